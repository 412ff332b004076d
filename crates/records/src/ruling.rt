// What becomes of a record: why it is left out, or what it counts for.
ghost use Rattle.std.specs.Prelude.{◌≡◌, Some};
ghost use Rattle.records.specs.Ruled.{mark_number};
ghost use Rattle.records.specs.Texts.{mark_text};

use crate::determinant::Determinant;
use std::fmt;

// Why a record is accepted and not added, by its mark: an RMR Resource or a RUC-Committed Interval.
#[derive(Clone, Copy, PartialEq, Eq, Debug)]
pub enum Mark {
    RmrResource = 1,
    RucInterval = 2,
}

// What becomes of an accepted record.
#[derive(Clone, Copy, PartialEq, Eq, Debug)]
pub enum Ruling {
    Counted(Determinant),
    Excluded(Mark),
}

impl From<Mark> for u8 {
    ghost from_gives = { λ mark n. n ≡ mark_number mark };

    fn from(mark: Mark) -> u8 {
        mark as u8
    }
}

impl fmt::Display for Mark {
    ghost output = { λ mark. Some (mark_text mark) };

    fn fmt<W: fmt::Write>(&self, f: &mut fmt::Formatter<W>) -> fmt::Result {
        f.write_str(match self {
            Mark::RmrResource => "an RMR Resource",
            Mark::RucInterval => "a RUC-Committed Interval",
        })
    }
}
