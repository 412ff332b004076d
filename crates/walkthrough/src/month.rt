// A month's records, its activities and its charges.
use activity::{Closed, Collecting, Position, Table};
use records::{Fault, Group, Record, Ruling};
use split::{Amount, split};
use std::io;

// Of each participant, in order of enrolment, the position of its Counter-Party: the retailer that
// registered in March comes first, with two participants, then the one that registered in April.
const PARTIES: [usize; 3] = [0, 0, 1];

pub const NAMES: [&str; 2] = ["March Retail", "April Retail"];

// May 2026.
const REFERENCE_MONTH: u16 = 76;

// 12,345.67 dollars: an odd cent for two equal shares.
const CENTS: u64 = 1_234_567;

// Participant, determinant, mark and quantity. Both retailers come to 4,000 MWh: the first by its load, the second
// by its purchases.
const READINGS: [(usize, u8, u8, i32); 12] = [
    (0, 3, 0, 1_300_000),
    (0, 3, 0, 1_300_000),
    (1, 3, 0, 1_500_000),
    (1, 4, 0, 100_000),
    (0, 1, 1, 9_000_000),
    (1, 7, 0, 800_000),
    (2, 6, 0, 7_999_999),
    (2, 6, 0, 1),
    (2, 6, 0, 8_000_000),
    (2, 2, 0, 3_000_000),
    (2, 1, 0, 2_000_000),
    (2, 2, 1, 5_000),
];

fn print_posted(
    rt: &impl Print,
    participant: usize,
    record: Record,
    answer: Result<Ruling, Fault>,
) -> io::Result<()> {
    let Record {
        determinant,
        mark: _,
        quantity,
    } = record;
    match answer {
        Ok(Ruling::Counted(counted)) => {
            let unit = counted.unit();
            let group = counted.group().number();
            println!(rt;
                "  participant {participant}, determinant {determinant}: {quantity} thousandths of a {unit}, group {group}"
            )
        }
        Ok(Ruling::Excluded(mark)) => println!(rt;
            "  participant {participant}, determinant {determinant}: {quantity} accepted and not added, {mark}"
        ),
        Err(fault) => {
            let number = fault.number();
            println!(rt;
                "  participant {participant}, determinant {determinant}: {quantity} refused with {number}"
            )
        }
    }
}

fn post_records(rt: &impl Print, table: &mut Table, month: &Collecting) -> io::Result<()> {
    for (participant, determinant, mark, quantity) in READINGS {
        let record = Record {
            determinant,
            mark,
            quantity,
        };
        let answer = table.post(month, Position::new(participant), record);
        print_posted(rt, participant, record, answer)?;
    }
    Ok(())
}

fn print_activity(rt: &impl Print, table: &Table, party: usize) -> io::Result<()> {
    for group in Group::ALL {
        let number = group.number();
        let quarters = table.group_value(&PARTIES, party, group).count();
        println!(rt; "    group {number}: {quarters}")?;
    }
    let activity = table.activity(&PARTIES, party);
    println!(rt; "    activity: {activity}")
}

// The charge of each retailer, all 0 where a part refuses.
fn split_charges(rt: &impl Print, table: &Table, month: &Closed) -> io::Result<[u64; 2]> {
    let mut charges = [0; 2];
    let mut activities = [0; 2];
    if let Err(fault) = table.activities(month, &PARTIES, &mut activities) {
        let number = fault.number();
        println!(rt; "  no activities: refused with {number}")?;
        return Ok(charges);
    }
    let answer = Amount::new(CENTS).and_then(|amount| split(amount, &activities, &mut charges));
    match answer {
        Ok(all) => println!(rt; "  {CENTS} cents by {all} quarters of a kWh")?,
        Err(fault) => {
            let number = fault.number();
            println!(rt; "  no charges: refused with {number}")?;
        }
    }
    for (name, cents) in NAMES.iter().zip(charges.iter()) {
        println!(rt; "  {name} is charged {cents}")?;
    }
    Ok(charges)
}

// Carries the month from its opening to its charges.
pub(crate) fn carry_out(rt: &impl Print) -> io::Result<[u64; 2]> {
    let mut table = Table::new();
    println!(rt; "Month {REFERENCE_MONTH} is open.")?;
    let collecting = table.open(REFERENCE_MONTH);
    post_records(rt, &mut table, &collecting)?;
    let closed = collecting.close();
    println!(rt; "Month {REFERENCE_MONTH} is closed. In quarters of a kWh:")?;
    for (party, name) in NAMES.iter().enumerate() {
        println!(rt; "  {name}")?;
        print_activity(rt, &table, party)?;
    }
    println!(rt; "The split:")?;
    let charges = split_charges(rt, &table, &closed)?;
    println!(rt; "The same split again:")?;
    let _ = split_charges(rt, &table, &closed)?;
    Ok(charges)
}
