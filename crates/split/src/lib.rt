// An amount of cents, shared by activity.
#![tactic(auto)]

mod amount;
mod fault;
mod share;

pub use amount::Amount;
pub use fault::Fault;
pub use share::split;
