// The market activity of a reference month: records in, one activity for each Counter-Party out.
#![tactic(auto)]

mod month;
mod position;
mod row;
mod table;
mod units;

pub use month::{Closed, Collecting};
pub use position::Position;
pub use table::Table;
pub use units::Quarters;
