// The invoices of a bill.
ghost use Rattle.std.specs.Prelude.{◌≡◌, ◌<◌, ◌≤◌, [], ◌∷◌, length};
ghost use Rattle.foundation.specs.Questions.{after};
ghost use Rattle.receivables.specs.Books.{book_of};
ghost use Rattle.receivables.specs.Issued.{positive, issue_answer, after_issue};

use super::Receivables;
use crate::charge::{Charge, Issued};
use crate::fault::Fault;
use crate::invoice::{Invoice, State};

// How many charges are above 0. Added up: counted behind a filter, a refused bill took two to three times as
// long (docs/DESIGN-PASS.md).
fn positive_in(charges: &[Charge]) -> usize
    ensures value { result ≡ positive charges.now }
    ensures few { result ≤ length charges.now }
{
    charges
        .iter()
        .map(|charge| usize::from(charge.cents > 0))
        .sum()
}

impl<const PLACES: usize> Receivables<PLACES> {
    // Adds an open invoice for a charge above 0.
    fn add(&mut self, charge: Charge, due_day: u16)
        requires some { 0 < charge.cents }
        requires place { length (book_of self.old).invoices < PLACES }
        requires number { (book_of self.old).next < u32.MAX }
        ensures { book_of self.new ≡ after_issue (book_of self.old) due_day (charge ∷ []) }
    {
        let invoice = Invoice {
            number: self.next,
            billed: charge.billed,
            position: charge.position,
            balance: u64::from(charge.cents),
            due_day,
            state: State::Open,
        };
        self.list.push_reserved(invoice);
        self.next += 1;
    }

    // Issues an invoice for each charge above 0, if there are places for all.
    pub fn issue(&mut self, charges: &[Charge], due_day: u16) -> Result<Issued, Fault>
        ensures answer { result ≡ issue_answer PLACES (book_of self.old) charges.now }
        ensures book { book_of self.new ≡ after result (after_issue (book_of self.old) due_day charges.now) (book_of self.old) }
    {
        let count = positive_in(charges);
        let first = self.next;
        // `as`: no `From` leads from this width to that of a length.
        if count > PLACES - self.list.len() || count > (u32::MAX - first) as usize {
            return Err(Fault::Places);
        }
        // Kept as a test in the loop: a loop over a filter gets no proof in a block with a const parameter.
        for charge in charges {
            if charge.cents > 0 {
                self.add(*charge, due_day);
            }
        }
        Ok(Issued { count, first })
    }
}
