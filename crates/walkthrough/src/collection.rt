// The invoices of a month, a part payment, and the past-due run at 17:00 and a minute later.
use anyhow::Context;
use calendar::{Moment, Stamp, Weekly, due_day};
use foundation::DUE_MINUTE;
use receivables::{Charge, Invoice, Receivables};
use remarks::{Digits, invoice_number};
use security::{Cash, Instrument, Letter, Means, Pair};
use std::io;

// Wednesday 1 July 2026. Friday 3 July is a bank holiday.
const INVOICE_DAY: u16 = 2373;

const BANK_HOLIDAY: u16 = 2375;

const ACCOUNT: u16 = 26;

const REMARK: &[u8] = b"April Retail, first part of INV2";

type Book = Receivables<256>;

type Security = Pair<Cash, Letter>;

fn print_invoice(rt: &impl Print, invoice: &Invoice) -> io::Result<()> {
    let number = invoice.number;
    let billed = invoice.billed;
    let balance = invoice.balance;
    let due_day = invoice.due_day;
    let state = invoice.state;
    println!(rt;
        "  invoice {number} to Counter-Party {billed}: {balance} cents, due on day {due_day}, {state}"
    )
}

fn print_invoices(rt: &impl Print, book: &Book) -> io::Result<()> {
    for invoice in book.invoices() {
        print_invoice(rt, invoice)?;
    }
    Ok(())
}

// Cents that a charge can have; no charge is larger.
fn cents(charge: u64) -> u32 {
    u32::try_from(charge).unwrap_or(u32::MAX)
}

fn issue(rt: &impl Print, book: &mut Book, charges: [u64; 2], due_day: u16) -> io::Result<()> {
    let bill = [
        Charge {
            billed: 7,
            position: 0,
            cents: cents(charges[0]),
        },
        Charge {
            billed: 12,
            position: 1,
            cents: cents(charges[1]),
        },
    ];
    match book.issue(&bill, due_day) {
        Ok(issued) => {
            let count = issued.count;
            let first = issued.first;
            println!(rt;
                "Invoiced on day {INVOICE_DAY}: {count} invoices from number {first} on."
            )?;
            print_invoices(rt, book)
        }
        Err(fault) => {
            let number = fault.number();
            println!(rt; "No invoices: refused with {number}.")
        }
    }
}

fn pay(rt: &impl Print, book: &mut Book, amount: u64) -> io::Result<()> {
    let Some(number) = invoice_number(REMARK, Digits::five()) else {
        return println!(rt; "The remark names no invoice.");
    };
    match book.pay(number, ACCOUNT, amount) {
        Ok(left) => println!(rt; "A payment of {amount} on invoice {number} leaves {left}."),
        Err(fault) => {
            let refusal = fault.number();
            println!(rt; "A payment of {amount} on invoice {number}: refused with {refusal}.")
        }
    }
}

fn fund(
    rt: &impl Print,
    row: &mut [Security; 2],
    place: usize,
    means: Means,
    amount: u64,
) -> io::Result<()> {
    let Some(security) = row.get_mut(place) else {
        return Ok(());
    };
    match security.fund(means, amount) {
        Ok(_) => {
            let held = security.held();
            println!(rt; "  place {place} is funded with {amount} and holds {held}")
        }
        Err(refused) => {
            let room = refused.room;
            println!(rt; "  place {place} is not funded with {amount}: the room is {room}")
        }
    }
}

fn run(rt: &impl Print, book: &mut Book, row: &mut [Security; 2], stamp: Stamp) -> io::Result<()> {
    let Stamp { day, minute } = stamp;
    let Some(at) = Moment::new(day, minute) else {
        return println!(rt; "Day {day} has no minute {minute}.");
    };
    let outcome = book.past_due(at, row);
    let drawn = outcome.drawn;
    let owed = outcome.owed;
    println!(rt;
        "Past-due run on day {day} at minute {minute}: {drawn} cents drawn, {owed} still owed past due."
    )?;
    print_invoices(rt, book)
}

// Carries the charges from their invoices to the draws for what is past due.
pub(crate) fn carry_out(rt: &HostRuntime, charges: [u64; 2]) -> anyhow::Result<()> {
    let weekly = Weekly::new(&[BANK_HOLIDAY], &[]);
    let day = due_day(&weekly, INVOICE_DAY).context("no due day")?;
    let mut book: Book = Receivables::new(rt.alloc(), ACCOUNT)?;
    issue(rt, &mut book, charges, day)?;
    pay(rt, &mut book, 400_000)?;
    println!(rt; "Security:")?;
    let mut row = [Pair {
        first: Cash::new(),
        second: Letter::new(),
    }; 2];
    fund(rt, &mut row, 0, Means::Cash, 300_000)?;
    fund(rt, &mut row, 0, Means::Letter, 200_000)?;
    fund(rt, &mut row, 1, Means::Cash, 250_000)?;
    for minute in [DUE_MINUTE, DUE_MINUTE + 1] {
        run(rt, &mut book, &mut row, Stamp { day, minute })?;
    }
    Ok(())
}
