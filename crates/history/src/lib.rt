// Calls of the ledger as values, and any list of them carried out, with the law of what it leaves.
#![tactic(auto)]

mod answer;
mod call;
mod carry;

pub use answer::Answer;
pub use call::Call;
pub use carry::{Carried, carry_out};
