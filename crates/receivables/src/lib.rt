// Invoices, the payments on them and the draws for those past due.
#![tactic(auto)]

mod book;
mod charge;
mod draws;
mod fault;
mod invoice;

pub use book::Receivables;
pub use charge::{Charge, Issued};
pub use draws::Outcome;
pub use fault::Fault;
pub use invoice::{Event, Invoice, State};
