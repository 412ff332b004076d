// An interval record: refused for its determinant, mark or sign, or counted, or left out.
ghost use Rattle.std.specs.Prelude.{◌≡◌, IfOk};
ghost use Rattle.records.specs.Ruled.{ruled as answer, SignOk};

use crate::determinant::Determinant;
use crate::fault::Fault;
use crate::ruling::{Mark, Ruling};

// As they stand in the record, of any value; the quantity is in thousandths of the determinant's unit.
#[derive(Clone, Copy, PartialEq, Eq, Debug)]
pub struct Record {
    pub determinant: u8,
    pub mark: u8,
    pub quantity: i32,
}

impl Record {
    pub fn ruled(self) -> Result<Ruling, Fault>
        ensures value { result ≡ answer self.determinant self.mark self.quantity }
        ensures sign { IfOk result (λ x. SignOk x self.quantity) }
    {
        // A match on ranges with guards: a rule of the project (docs/DECISIONS.md).
        match self.determinant {
            0 | 17.. => Err(Fault::Determinant),
            1 if self.mark > 2 => Err(Fault::Mark),
            2..=16 if self.mark > 0 => Err(Fault::Mark),
            1 | 2 | 5..=16 if self.quantity < 0 => Err(Fault::Sign),
            1 if self.mark == 1 => Ok(Ruling::Excluded(Mark::RmrResource)),
            1 if self.mark == 2 => Ok(Ruling::Excluded(Mark::RucInterval)),
            n => Determinant::try_from(n).map(Ruling::Counted),
        }
    }
}
