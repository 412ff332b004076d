// A call of the ledger as a value, with what it is lent.
use activity::{Closed, Table};
use calendar::Stamp;

#[derive(Drop)]
pub enum Call<'a, C> {
    Register {
        counter_party: u16,
    },
    Enrol {
        participant: u16,
        counter_party: u16,
    },
    Bill {
        table: &'a Table,
        month: &'a Closed,
        amount: u64,
        stamp: Stamp,
        calendar: &'a C,
    },
    Pay {
        stamp: Stamp,
        account: u16,
        amount: u64,
        remark: &'a [u8],
    },
    Fund {
        counter_party: u16,
        // A number from outside, taken as it comes: a rule of the project (docs/DECISIONS.md).
        means: u8,
        amount: u64,
    },
    PastDue {
        stamp: Stamp,
    },
    Report {
        counter_party: u16,
    },
}
