// The whole term: its months are planned, carried out by one call, and printed.
use crate::calls::{Lent, carry_steps};
use crate::journal::Journal;
use crate::market::{MarketMonth, collect_months};
use crate::month::Month;
use crate::plan::Plan;
use crate::printing::print_term;
use calendar::{Calendar, Weekly};
use std::alloc::{AllocError, Global};

// Friday 3 July 2020 and Monday 4 July 2033.
const NO_BANK_DAYS: [u16; 2] = [184, 4_933];

// Friday 8 February 2030.
const NO_BUSINESS_DAYS: [u16; 1] = [3_691];

fn plan_months<C: Calendar>(
    heap: Global,
    months: &[MarketMonth],
    calendar: &C,
) -> anyhow::Result<Plan> {
    let mut plan = Plan::new(heap);
    for market in months {
        let month = Month::expected(heap, market, calendar, plan.invoices)?;
        month.add_to(&mut plan)?;
    }
    Ok(plan)
}

// Remark n names invoice n.
fn name_invoices(heap: Global, invoices: usize) -> Result<Vec<String>, AllocError> {
    (0..=invoices)
        .map(|number| -> Result<String, AllocError> { format!(in heap; "INV{number}") })
        .try_collect(heap)
}

pub(crate) fn carry_through(rt: &HostRuntime) -> anyhow::Result<()> {
    let heap = rt.alloc();
    let months = collect_months(heap)?;
    let weekly = Weekly::new(&NO_BANK_DAYS, &NO_BUSINESS_DAYS);
    let plan = plan_months(heap, months.as_slice(), &weekly)?;
    let remarks = name_invoices(heap, plan.invoices)?;
    let lent = Lent {
        months: months.as_slice(),
        remarks: remarks.as_slice(),
        calendar: &weekly,
    };
    let carried = carry_steps(heap, &lent, plan.steps.as_slice())?;
    let journal = Journal::new(heap, plan.steps.as_slice(), carried.replies.as_slice())?;
    print_term(rt, &journal)?;
    Ok(())
}
