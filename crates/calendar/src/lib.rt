// Days, moments, calendars and the due day of an invoice.
#![tactic(auto)]

mod due;
mod meaning;
mod moment;
mod posted;
mod stamp;
mod weekly;

pub use due::due_day;
pub use meaning::Calendar;
pub use moment::Moment;
pub use posted::Posted;
pub use stamp::Stamp;
pub use weekly::Weekly;
