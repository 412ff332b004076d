// Interval records: determinants, marks, and which records are refused, counted or left out.
#![tactic(auto)]

mod determinant;
mod fault;
mod record;
mod ruling;

pub use determinant::{Determinant, Group, Unit};
pub use fault::Fault;
pub use record::Record;
pub use ruling::{Mark, Ruling};
