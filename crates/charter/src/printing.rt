// The term's years, and both sides of each equation.
use crate::journal::Journal;
use crate::market::MONTHS;
use crate::parties::{COUNTER_PARTIES, CounterParty};
use foundation::DUE_MINUTE;
use std::io;

const FIRST_YEAR: u16 = 2020;

const LAST: u16 = MONTHS / 12 - 1;

// New instruments hold nothing.
const HELD_AT_START: u64 = 0;

fn relation(left: u64, right: u64) -> &'static str {
    if left == right { "=" } else { "DIFFERS FROM" }
}

// One line of the table, for the years from one to another.
fn print_totals(rt: &impl Print, journal: &Journal, first: u16, last: u16) -> io::Result<()> {
    let totals = journal.totals(first, last);
    let billed = totals.billed;
    let paid = totals.paid;
    let late = totals.paid_late;
    let funded = totals.funded;
    let drawn = totals.drawn;
    let owed = journal.of_all(last, |account| account.owed);
    let refused = totals.refused;
    println!(rt;
        "{billed:>12} {paid:>12} {late:>12} {funded:>12} {drawn:>12} {owed:>12} {refused:>8}"
    )
}

fn print_years(rt: &impl Print, journal: &Journal) -> io::Result<()> {
    println!(rt;
        "Months of       billed         paid   of it late       funded        drawn  owed at end  refused"
    )?;
    for year in 0..=LAST {
        let name = year.saturating_add(FIRST_YEAR);
        print!(rt; "{name:<9}")?;
        print_totals(rt, journal, year, year)?;
    }
    print!(rt; "all      ")?;
    print_totals(rt, journal, 0, LAST)
}

fn print_account(rt: &impl Print, journal: &Journal, party: CounterParty) -> io::Result<()> {
    let number = party.number;
    let habit = party.habit;
    let account = journal.account(number, LAST);
    let charged = account.charged;
    let paid = account.paid;
    let drawn = account.drawn;
    let owed = account.owed;
    let sum = paid.saturating_add(drawn).saturating_add(owed);
    let is = relation(charged, sum);
    println!(rt; "  {number}, {habit}: {charged} {is} {sum} ({paid} + {drawn} + {owed})")
}

fn print_accounts(rt: &impl Print, journal: &Journal) -> io::Result<()> {
    println!(rt; "Charged = paid + drawn + owed, for each Counter-Party:")?;
    for party in COUNTER_PARTIES {
        print_account(rt, journal, party)?;
    }
    Ok(())
}

fn print_charges(rt: &impl Print, journal: &Journal) -> io::Result<()> {
    let charged = journal.of_all(LAST, |account| account.charged);
    let billed = journal.totals(0, LAST).billed;
    let is = relation(charged, billed);
    println!(rt; "Charged to all = billed:")?;
    println!(rt; "  {charged} {is} {billed}")
}

fn print_security(rt: &impl Print, journal: &Journal) -> io::Result<()> {
    let left = journal.of_all(LAST, |account| account.held);
    let totals = journal.totals(0, LAST);
    let funded = totals.funded;
    let drawn = totals.drawn;
    let given = HELD_AT_START.saturating_add(funded);
    let found = drawn.saturating_add(left);
    let is = relation(given, found);
    println!(rt; "Security at the start + funded = drawn + left:")?;
    println!(rt; "  {given} ({HELD_AT_START} + {funded}) {is} {found} ({drawn} + {left})")
}

fn print_refusals(rt: &impl Print, journal: &Journal) -> io::Result<()> {
    println!(rt; "Refused:")?;
    for number in 1..=31 {
        let times = journal.refused_with(number);
        if times > 0 {
            println!(rt; "  {times} calls with {number}")?;
        }
    }
    Ok(())
}

pub(crate) fn print_term(rt: &impl Print, journal: &Journal) -> io::Result<()> {
    let count = journal.len();
    println!(rt; "Thirty years in {count} calls, in cents:")?;
    print_years(rt, journal)?;
    print_accounts(rt, journal)?;
    print_charges(rt, journal)?;
    print_security(rt, journal)?;
    let at_due = journal.drawn_at(DUE_MINUTE);
    let after = journal.drawn_at(DUE_MINUTE + 1);
    println!(rt;
        "Drawn by the runs at 17:00 of a due day: {at_due}; by those a minute later: {after}."
    )?;
    print_refusals(rt, journal)
}
