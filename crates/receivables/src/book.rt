// The unsettled invoices by rising number, in memory that is taken once.
ghost use Rattle.std.specs.Prelude.{◌≡◌, ◌≤◌, true, vec_len, vec_capacity};
ghost use Rattle.receivables.specs.Listed.{listed};

mod calls;
mod issues;
mod run;

use crate::invoice::Invoice;

// The invoices, the number of the next one, and the account that payments go to.
#[derive(Drop, PartialEq)]
pub struct Receivables<const PLACES: usize> {
    list: Vec<Invoice>,
    next: u32,
    account: u16,
    ghost reserved: { PLACES ≤ vec_capacity list },
    ghost few: { vec_len list ≤ PLACES },
    ghost sound: { listed 1 next list.items ≡ true },
    ghost numbered: { next ≤ 4294967295 },
}
