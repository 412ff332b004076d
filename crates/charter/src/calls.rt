// The plan's steps as calls of the ledger, one for one, and all of them carried out.
use crate::market::MarketMonth;
use crate::plan::{Planned, Step};
use anyhow::Context;
use calendar::{Calendar, Stamp};
use history::{Call, Carried, carry_out};
use security::{Cash, Letter, Pair};
use std::alloc::Global;

const ACCOUNT: u16 = 26;

const UNNAMED: &[u8] = b"for the charge of March";

// What the calls are lent. Remark n names invoice n.
#[derive(Drop)]
pub(crate) struct Lent<'a, C> {
    pub(crate) months: &'a [MarketMonth],
    pub(crate) remarks: &'a [String],
    pub(crate) calendar: &'a C,
}

impl<'a, C: Calendar> Lent<'a, C> {
    // The remark that names an invoice.
    fn remark(&self, invoice: Option<usize>) -> Option<&'a [u8]> {
        // A match: `map_or` would put the exception first.
        match invoice {
            Some(number) => self.remarks.get(number).map(|text| text.as_bytes()),
            None => Some(UNNAMED),
        }
    }

    fn bill(&self, month: u16, amount: u64, stamp: Stamp) -> anyhow::Result<Call<'a, C>> {
        let MarketMonth { table, month } = self.months.get(usize::from(month)).context("no month")?;
        Ok(Call::Bill {
            table,
            month,
            amount,
            stamp,
            calendar: self.calendar,
        })
    }

    fn call(&self, step: Step) -> anyhow::Result<Call<'a, C>> {
        Ok(match step {
            Step::Register { counter_party } => Call::Register { counter_party },
            Step::Enrol {
                participant,
                counter_party,
            } => Call::Enrol {
                participant,
                counter_party,
            },
            Step::Bill {
                month,
                cents,
                stamp,
            } => self.bill(month, cents, stamp)?,
            Step::Pay {
                invoice,
                cents,
                stamp,
                ..
            } => Call::Pay {
                stamp,
                account: ACCOUNT,
                amount: cents,
                remark: self.remark(invoice).context("no remark")?,
            },
            Step::Fund {
                counter_party,
                means,
                cents,
            } => Call::Fund {
                counter_party,
                means: means.number(),
                amount: cents,
            },
            Step::PastDue { stamp } => Call::PastDue { stamp },
            Step::Report { counter_party } => Call::Report { counter_party },
        })
    }
}

// Carries the steps out over a new ledger and empty security.
pub(crate) fn carry_steps<'a, C: Calendar>(
    heap: Global,
    lent: &Lent<'a, C>,
    steps: &[Planned],
) -> anyhow::Result<Carried> {
    let calls: Vec<Call<'a, C>> = steps
        .iter()
        .map(|planned| lent.call(planned.step))
        .try_collect(heap)?;
    let mut row = [Pair {
        first: Cash::new(),
        second: Letter::new(),
    }; 32];
    let carried = carry_out(heap, ACCOUNT, &mut row, calls.as_slice())?;
    Ok(carried)
}
