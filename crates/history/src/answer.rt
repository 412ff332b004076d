// What an accepted call answers.
use ledger::{Billed, Report};
use receivables::Outcome;

// Registering and enrolling answer nothing; a bill its invoices; a payment the balance left; a funding what is
// then held; a past-due run what it drew and what is still owed; a report its four numbers.
#[derive(Clone, Copy, PartialEq, Eq, Debug)]
pub enum Answer {
    Done,
    Issued(Billed),
    Left(u64),
    Holds(u64),
    Drew(Outcome),
    Tells(Report),
}
