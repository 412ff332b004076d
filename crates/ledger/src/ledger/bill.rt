// The bill.
ghost use Rattle.std.specs.Prelude.{◌≡◌, ◌+◌, ◌≤◌, not, length, OnOk};
ghost use Rattle.foundation.specs.Questions.{after, means};
ghost use Rattle.activity.specs.Months.{closed_month};
ghost use Rattle.activity.specs.Tables.{meaning as table_of};
ghost use Rattle.split.specs.Laws.{FairSplit};
ghost use Rattle.receivables.specs.Books.{book_of};
ghost use Rattle.receivables.specs.Issued.{after_issue};
ghost use Rattle.ledger.specs.Charges.{charges_in};
ghost use Rattle.ledger.specs.Bill.{activities_of, charges_of, bills, charge_answer, place_answer, bill_answer, billed};
ghost use Rattle.ledger.specs.Model.{model_of, is_later};

use super::{Ledger, PLACES};
use crate::answers::Billed;
use crate::charges::Charges;
use crate::fault::Fault;
use activity::{Closed, Table};
use calendar::{Calendar, Stamp, due_day};
use foundation::LAST_MONTH;
use receivables::{Charge, Issued, Receivables};
use split::Amount;

// Issues the invoices of the charges.
fn issue_bills(
    receivables: &mut Receivables<PLACES>,
    parties: &[u16],
    charges: &Charges,
    due_day: u16,
) -> Result<Issued, Fault>
    requires few { length parties.now ≤ 32 }
    requires numbers { (book_of receivables.old).next ≤ 4294967263 }
    ensures answer { result ≡ place_answer (book_of receivables.old) (bills parties.now (charges_in charges.now)) }
    ensures book { book_of receivables.new ≡ after result (after_issue (book_of receivables.old) due_day (bills parties.now (charges_in charges.now))) (book_of receivables.old) }
    ensures next { (book_of receivables.new).next ≤ (book_of receivables.old).next + 32 }
{
    // A part of a fixed array: after a ledger is made nothing takes memory.
    let mut room = [Charge {
        billed: 0,
        position: 0,
        cents: 0,
    }; 32];
    let bill = &mut room[0..parties.len()];
    charges.write_bills(parties, bill);
    Ok(receivables.issue(bill, due_day)?)
}

impl Ledger {
    fn is_billed(&self, month: u16) -> bool
        ensures { not result ≡ is_later (model_of self.now).month month }
    {
        self.month.is_some_and(|last| month <= last)
    }

    // The charges of a bill by position, 0 past the last Counter-Party.
    fn charges_for(&self, table: &Table, month: &Closed, amount: u64) -> Result<Charges, Fault>
        ensures answer { means charges_in result ≡ charge_answer (model_of self.now) (table_of table.now) (closed_month month.now) amount }
        ensures fair { OnOk result (FairSplit amount (activities_of (model_of self.now) (table_of table.now)) (charges_of (model_of self.now) (table_of table.now) amount)) }
    {
        // A part of a fixed array: after a ledger is made nothing takes memory.
        let mut room = [0; 32];
        let activities = &mut room[0..self.registry.counter_parties().len()];
        table.activities(month, self.registry.under(), activities)?;
        let amount = Amount::new(amount)?;
        if month.month() > LAST_MONTH || self.is_billed(month.month()) {
            return Err(Fault::Month);
        }
        Ok(Charges::shared(amount, activities)?)
    }

    // Bills the amount for a closed month: an invoice to each Counter-Party with a charge above 0.
    pub fn bill<C: Calendar>(
        &mut self,
        table: &Table,
        month: &Closed,
        amount: u64,
        stamp: Stamp,
        calendar: &C,
    ) -> Result<Billed, Fault>
        ensures answer { result ≡ bill_answer (model_of self.old) (table_of table.now) (closed_month month.now) amount stamp.day stamp.minute (C.Calendar.meaning calendar.now) }
        ensures model { model_of self.new ≡ after result (billed (model_of self.old) (table_of table.now) (closed_month month.now) amount stamp.day stamp.minute (C.Calendar.meaning calendar.now)) (model_of self.old) }
        ensures fair { OnOk result (FairSplit amount (activities_of (model_of self.old) (table_of table.now)) (charges_of (model_of self.old) (table_of table.now) amount)) }
    {
        let at = self.moment(stamp)?;
        let charges = self.charges_for(table, month, amount)?;
        let due_day = due_day(calendar, stamp.day).ok_or(Fault::DueDay)?;
        let issued = issue_bills(
            &mut self.receivables,
            self.registry.counter_parties(),
            &charges,
            due_day,
        )?;
        self.charges = charges;
        self.moment = Some(at);
        self.month = Some(month.month());
        Ok(Billed {
            count: issued.count,
            first: issued.first,
            due_day,
        })
    }
}
