// One pool's ledger, in memory that is taken once.
ghost use Rattle.std.specs.Prelude.{◌+◌, ◌*◌, ◌≤◌};
ghost use Rattle.receivables.specs.Books.{book_of};
ghost use Rattle.ledger.specs.Months.{months_billed};

mod bill;
mod calls;
mod secure;

use crate::charges::Charges;
use crate::registry::Registry;
use calendar::Moment;
use receivables::Receivables;

pub const PLACES: usize = 256;

// `charges` are those of the last accepted bill. A month is billed to at
// most 32 Counter-Parties, so the numbers of invoices never run out.
#[derive(Drop, PartialEq)]
pub struct Ledger {
    registry: Registry,
    receivables: Receivables<PLACES>,
    charges: Charges,
    moment: Option<Moment>,
    month: Option<u16>,
    ghost numbered: { (book_of receivables).next ≤ 1 + 32 * months_billed month },
    ghost in_time: { months_billed month ≤ 960 },
}
