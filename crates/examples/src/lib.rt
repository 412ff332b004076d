// The worked examples of the rules, proved, and tests of the calls on examples.
#![tactic(auto)]

ghost use Rattle.examples.specs.WorkedExamples.{WorkedExamples};

#[cfg(test)]
mod collections;
#[cfg(test)]
mod habits;
#[cfg(test)]
mod ledgers;
#[cfg(test)]
mod months;
#[cfg(test)]
mod pools;
#[cfg(test)]
mod readings;
#[cfg(test)]
mod refusals;
#[cfg(test)]
mod securities;
#[cfg(test)]
mod texts;
#[cfg(test)]
mod through;
#[cfg(test)]
mod times;

// The rules give the values of the worked examples.
pub fn worked_examples_hold()
    ensures { WorkedExamples }
{}
