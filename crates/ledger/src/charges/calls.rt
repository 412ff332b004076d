// Sharing an amount, and the charges as a bill.
ghost use Rattle.std.specs.Prelude.{◌≡◌, ◌<◌, ◌≤◌, length, replicate, OnOk, slice_index};
ghost use Rattle.foundation.specs.Questions.{means};
ghost use Rattle.split.specs.Amounts.{cents_of};
ghost use Rattle.split.specs.Laws.{FairSplit};
ghost use Rattle.split.specs.Split.{charges, split_answer};
ghost use Rattle.ledger.specs.Bill.{bills};
ghost use Rattle.ledger.specs.Charges.{charges_in, laid};

use super::Charges;
use receivables::Charge;
use split::{Amount, Fault, split};

impl Charges {
    pub(crate) fn none() -> Charges
        ensures { charges_in result ≡ replicate 32 0 }
    {
        Charges { cents: [0; 32] }
    }

    // The charges of an amount that is shared by activities.
    pub(crate) fn shared(amount: Amount, activities: &[u64]) -> Result<Charges, Fault>
        ensures answer { means charges_in result ≡ laid (charges (cents_of amount) activities.now) (split_answer activities.now) }
        ensures fair { OnOk result (FairSplit (cents_of amount) activities.now (charges (cents_of amount) activities.now)) }
    {
        let mut cents = [0; 32];
        let _ = split(amount, activities, &mut cents)?;
        Ok(Charges { cents })
    }

    pub(crate) fn at(&self, place: usize) -> u64
        requires { place < 32 }
        ensures { result ≡ slice_index (charges_in self.now) place }
    {
        self.cents[place]
    }

    // What each Counter-Party is charged, and where its security stands.
    pub(crate) fn write_bills(&self, parties: &[u16], out: &mut [Charge])
        requires long { length out.old ≡ length parties.now }
        requires few { length parties.now ≤ 32 }
        ensures { out.new ≡ bills parties.now (charges_in self.now) }
    {
        for (position, bill) in out.iter_mut().enumerate() {
            // `as`: the charges' invariant says that it fits, and a `try_from` would bring a refusal that can't be.
            *bill = Charge {
                billed: parties[position],
                position,
                cents: self.cents[position] as u32,
            };
        }
    }
}
