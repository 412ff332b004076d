// The steps of one month: its bill, payments in time, the runs on its due day, and late payments.
use crate::days::first_day;
use crate::market::MarketMonth;
use crate::parties::{COUNTER_PARTIES, CounterParty, PARTIES};
use crate::plan::{Plan, Step};
use anyhow::Context;
use calendar::{Calendar, Stamp, due_day};
use foundation::DUE_MINUTE;
use std::alloc::{AllocError, Global};

const BILL_MINUTE: u16 = 600;

// Of the due day for a payment in time, of the fourth day after it for a late one.
const PAY_MINUTE: u16 = 900;

const LATE_DAYS: u16 = 4;

// Months of a year.
const JANUARY: u16 = 0;

const MARCH: u16 = 2;

const JUNE: u16 = 5;

const SEPTEMBER: u16 = 8;

const DECEMBER: u16 = 11;

// An invoice as it is expected.
#[derive(Clone, Copy)]
struct Invoice {
    payer: CounterParty,
    number: usize,
    charge: u64,
}

// A month that is billed on the first day of the next.
#[derive(Drop)]
pub(crate) struct Month {
    number: u16,
    cents: u64,
    bill_day: u16,
    due_day: u16,
    invoices: Vec<Invoice>,
}

fn at(day: u16, minute: u16) -> Stamp {
    Stamp { day, minute }
}

fn cents_of(month: u16) -> u64 {
    249_999_983 + 10_007 * u64::from(month)
}

// An invoice for each charge above 0, by rising number after the last one.
fn expected_invoices(
    heap: Global,
    last: usize,
    charges: [u64; PARTIES],
) -> Result<Vec<Invoice>, AllocError> {
    COUNTER_PARTIES
        .iter()
        .zip(charges.iter())
        .filter(|(_, charge)| **charge > 0)
        .zip(last.saturating_add(1)..=usize::MAX)
        .map(|((payer, charge), number)| Invoice {
            payer: *payer,
            number,
            charge: *charge,
        })
        .collect(heap)
}

impl Month {
    // What the bill of a month is expected to issue, where so many invoices were issued before.
    pub(crate) fn expected<C: Calendar>(
        heap: Global,
        market: &MarketMonth,
        calendar: &C,
        issued: usize,
    ) -> anyhow::Result<Month> {
        let number = market.month.month();
        let cents = cents_of(number);
        let charges = market.expected_charges(cents)?;
        let bill_day = first_day(number.saturating_add(1));
        let due_day = due_day(calendar, bill_day).context("no due day")?;
        Ok(Month {
            number,
            cents,
            bill_day,
            due_day,
            invoices: expected_invoices(heap, issued, charges)?,
        })
    }

    fn add_payment(
        &self,
        plan: &mut Plan,
        invoice: Invoice,
        cents: u64,
        day: u16,
    ) -> Result<(), AllocError> {
        if cents == 0 {
            return Ok(());
        }
        let step = Step::Pay {
            counter_party: invoice.payer.number,
            invoice: Some(invoice.number),
            cents,
            stamp: at(day, PAY_MINUTE),
        };
        plan.add(self.number, step)
    }

    fn late_day(&self) -> u16 {
        self.due_day.saturating_add(LATE_DAYS)
    }

    // On a day, what the rule says of each invoice.
    fn add_payments<F: Fn(Invoice) -> u64>(
        &self,
        plan: &mut Plan,
        day: u16,
        paid: F,
    ) -> Result<(), AllocError>
        requires { F.IsAlwaysCallable paid }
    {
        for invoice in self.invoices.iter() {
            self.add_payment(plan, *invoice, paid(*invoice), day)?;
        }
        Ok(())
    }

    // A run, and what everyone holds after it.
    fn add_run(&self, plan: &mut Plan, minute: u16) -> Result<(), AllocError> {
        let stamp = at(self.due_day, minute);
        plan.add(self.number, Step::PastDue { stamp })?;
        plan.add_reports(self.number)
    }

    fn add_bill(&self, plan: &mut Plan) -> Result<(), AllocError> {
        let step = Step::Bill {
            month: self.number,
            cents: self.cents,
            stamp: at(self.bill_day, BILL_MINUTE),
        };
        plan.add(self.number, step)?;
        plan.invoices = plan.invoices.saturating_add(self.invoices.len());
        plan.add_reports(self.number)
    }

    // What the ledger is to refuse: in March a remark that names no invoice, in June a payment on a settled invoice,
    // in September a run before the last moment.
    fn add_slips(&self, plan: &mut Plan) -> Result<(), AllocError> {
        let Some(first) = self.invoices.first() else {
            return Ok(());
        };
        match self.number % 12 {
            MARCH => {
                let step = Step::Pay {
                    counter_party: first.payer.number,
                    invoice: None,
                    cents: first.charge,
                    stamp: at(self.late_day(), PAY_MINUTE),
                };
                plan.add(self.number, step)
            }
            JUNE => self.add_payment(plan, *first, first.charge, self.late_day()),
            SEPTEMBER => {
                let stamp = at(self.due_day, DUE_MINUTE);
                plan.add(self.number, Step::PastDue { stamp })
            }
            _ => Ok(()),
        }
    }

    // Security is posted between the two runs, so that at 17:00 nothing is there for the balances of earlier months.
    pub(crate) fn add_to(&self, plan: &mut Plan) -> Result<(), AllocError> {
        plan.add_registrations(self.number)?;
        plan.add_enrolments(self.number)?;
        self.add_bill(plan)?;
        self.add_payments(plan, self.due_day, |invoice| {
            invoice.payer.pays_in_time(self.number, invoice.charge)
        })?;
        self.add_run(plan, DUE_MINUTE)?;
        if self.number % 12 == JANUARY {
            plan.add_fundings(self.number)?;
        }
        self.add_run(plan, DUE_MINUTE + 1)?;
        self.add_payments(plan, self.late_day(), |invoice| {
            invoice.payer.pays_late(invoice.charge)
        })?;
        self.add_slips(plan)?;
        if self.number % 12 == DECEMBER {
            plan.add_reports(self.number)?;
        }
        Ok(())
    }
}
