// The activity table of a month.
ghost use Rattle.std.specs.Prelude.{◌≡◌, length};

mod activities;
mod calls;

use crate::row::Row;

// The month that it carries, and the sums of each participant in order of enrolment.
#[derive(Drop, PartialEq)]
pub struct Table {
    month: Option<u16>,
    rows: [Row; 64],
    ghost full: { length rows ≡ 64 },
}
