// What the ledger answered to each step, added up over years and for each Counter-Party.
use crate::parties::COUNTER_PARTIES;
use crate::plan::{Planned, Step};
use history::Answer;
use ledger::{Fault, Report};
use std::alloc::{AllocError, Global};

type Reply = Result<Answer, Fault>;

// Cents of accepted calls, and how many calls were refused. `due_day` is the last bill's.
#[derive(Clone, Copy, Default)]
pub(crate) struct Totals {
    pub(crate) billed: u64,
    pub(crate) paid: u64,
    pub(crate) paid_late: u64,
    pub(crate) funded: u64,
    pub(crate) drawn: u64,
    pub(crate) refused: u64,
    due_day: Option<u16>,
}

impl Totals {
    fn add_payment(&mut self, step: Step) {
        self.paid = self.paid.saturating_add(step.cents());
        if self.due_day.is_some_and(|day| step.is_paid_after(day)) {
            self.paid_late = self.paid_late.saturating_add(step.cents());
        }
    }

    fn add(&mut self, step: Step, reply: Reply) {
        match reply {
            Ok(Answer::Issued(bill)) => {
                self.billed = self.billed.saturating_add(step.cents());
                self.due_day = Some(bill.due_day);
            }
            Ok(Answer::Left(_)) => self.add_payment(step),
            Ok(Answer::Holds(_)) => self.funded = self.funded.saturating_add(step.cents()),
            Ok(Answer::Drew(outcome)) => self.drawn = self.drawn.saturating_add(outcome.drawn),
            Ok(Answer::Done | Answer::Tells(_)) => {}
            Err(_) => self.refused = self.refused.saturating_add(1),
        }
    }
}

// One Counter-Party's cents. `owed` and `held` are as last answered.
#[derive(Clone, Copy, Default)]
pub(crate) struct Account {
    pub(crate) charged: u64,
    pub(crate) paid: u64,
    pub(crate) drawn: u64,
    pub(crate) owed: u64,
    pub(crate) held: u64,
    is_billed: bool,
}

impl Account {
    // The first report after a bill has twice its charge as exposure. Only runs lower what is held.
    fn hear(&mut self, report: Report) {
        if self.is_billed {
            self.charged = self.charged.saturating_add(report.exposure / 2);
            self.is_billed = false;
        }
        let fall = self.held.saturating_sub(report.held);
        self.drawn = self.drawn.saturating_add(fall);
        self.held = report.held;
        self.owed = report.owed;
    }

    fn add(&mut self, step: Step, answer: Answer) {
        match answer {
            Answer::Issued(_) => self.is_billed = true,
            Answer::Left(_) => self.paid = self.paid.saturating_add(step.cents()),
            Answer::Holds(held) => self.held = held,
            Answer::Tells(report) => self.hear(report),
            Answer::Done | Answer::Drew(_) => {}
        }
    }
}

// A step, and the reply to it.
#[derive(Clone, Copy)]
pub(crate) struct Entry {
    planned: Planned,
    reply: Reply,
}

// What the runs of an entry drew, where it is a run at a minute of the day.
fn drawn_by(entry: &Entry, at: u16) -> u64 {
    match (entry.planned.step, entry.reply) {
        (Step::PastDue { stamp }, Ok(Answer::Drew(outcome))) if stamp.minute == at => outcome.drawn,
        _ => 0,
    }
}

// All steps, in their order.
#[derive(Drop)]
pub(crate) struct Journal {
    entries: Vec<Entry>,
}

impl Journal {
    pub(crate) fn new(
        heap: Global,
        steps: &[Planned],
        replies: &[Reply],
    ) -> Result<Journal, AllocError> {
        let entries = steps
            .iter()
            .zip(replies.iter())
            .map(|(planned, reply)| Entry {
                planned: *planned,
                reply: *reply,
            })
            .collect(heap)?;
        Ok(Journal { entries })
    }

    pub(crate) fn len(&self) -> usize {
        self.entries.len()
    }

    // From one year to another, both included.
    pub(crate) fn totals(&self, first: u16, last: u16) -> Totals {
        let mut totals = Totals::default();
        for entry in self.entries.iter() {
            if (first..=last).contains(&entry.planned.year) {
                totals.add(entry.planned.step, entry.reply);
            }
        }
        totals
    }

    // A Counter-Party's account at the end of a year.
    pub(crate) fn account(&self, number: u16, last: u16) -> Account {
        let mut account = Account::default();
        for entry in self.entries.iter() {
            let planned = entry.planned;
            if let Ok(answer) = entry.reply
                && planned.year <= last
                && planned.step.concerns(number)
            {
                account.add(planned.step, answer);
            }
        }
        account
    }

    // A sum over the Counter-Parties' accounts at the end of a year.
    pub(crate) fn of_all<F: Fn(Account) -> u64>(&self, last: u16, cents: F) -> u64
        requires { F.IsAlwaysCallable cents }
    {
        let mut sum: u64 = 0;
        for party in COUNTER_PARTIES {
            sum = sum.saturating_add(cents(self.account(party.number, last)));
        }
        sum
    }

    // What the runs at a minute of the day drew.
    pub(crate) fn drawn_at(&self, at: u16) -> u64 {
        self.entries
            .iter()
            .map(|entry| drawn_by(entry, at))
            .fold(0, |sum: u64, drawn| sum.saturating_add(drawn))
    }

    // How many calls were refused with a number.
    pub(crate) fn refused_with(&self, number: u8) -> usize {
        self.entries
            .iter()
            .filter(|entry| matches!(entry.reply, Err(fault) if fault.number() == number))
            .count()
    }
}
