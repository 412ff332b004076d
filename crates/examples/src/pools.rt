// Ledgers for the tests. Made twice, one is what the other was before a refused call.
use crate::readings::record;
use activity::{Closed, Table};
use calendar::{Stamp, Weekly};
use ledger::{Billed, Fault, Ledger};
use records::Record;
use security::{Cash, Letter, Pair};
use std::alloc::Global;
use std::test::Fail;

pub(crate) type Security = Pair<Cash, Letter>;

pub(crate) const ACCOUNT: u16 = 26;

// Friday, and the day on which what is invoiced on it falls due.
pub(crate) const BILL_DAY: u16 = 1_500;

pub(crate) const DUE_DAY: u16 = 1_507;

pub(crate) fn at(day: u16, minute: u16) -> Stamp {
    Stamp { day, minute }
}

// Counter-Parties 7 and 12, with the participants 101 and 102.
pub(crate) fn pool(heap: Global) -> Result<Ledger, Fail> {
    let mut ledger = Ledger::new(heap, ACCOUNT)?;
    ledger.register(7)?;
    ledger.register(12)?;
    ledger.enrol(101, 7)?;
    ledger.enrol(102, 12)?;
    Ok(ledger)
}

// A closed month with its table, after records of participants.
pub(crate) fn market(
    ledger: &Ledger,
    month: u16,
    records: &[(u16, Record)],
) -> Result<(Table, Closed), Fail> {
    let mut table = Table::new();
    let collecting = table.open(month);
    for (participant, record) in records {
        ledger.post(&mut table, &collecting, *participant, *record)?;
    }
    Ok((table, collecting.close()))
}

// Both Counter-Parties have the same activity.
pub(crate) fn equal_month(ledger: &Ledger, month: u16) -> Result<(Table, Closed), Fail> {
    market(
        ledger,
        month,
        &[(101, record(1, 0, 4)), (102, record(1, 0, 4))],
    )
}

pub(crate) fn bill(
    ledger: &mut Ledger,
    market: &(Table, Closed),
    amount: u64,
    stamp: Stamp,
) -> Result<Billed, Fault> {
    ledger.bill(&market.0, &market.1, amount, stamp, &Weekly::new(&[], &[]))
}

// The pool after a bill of 101 cents for month 46: invoice 1 of 51 cents and invoice 2 of 50.
pub(crate) fn billed(heap: Global) -> Result<Ledger, Fail> {
    let mut ledger = pool(heap)?;
    let market = equal_month(&ledger, 46)?;
    bill(&mut ledger, &market, 101, at(BILL_DAY, 600))?;
    Ok(ledger)
}

pub(crate) fn empty_row() -> [Security; 2] {
    [Pair {
        first: Cash::new(),
        second: Letter::new(),
    }; 2]
}
