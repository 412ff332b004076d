// Spreadsheet habits that the rules rule out, and the odd cent, through the ledger: what each Counter-Party is then
// charged or drawn. Each test fails where the habit is followed.
use crate::pools::{BILL_DAY, DUE_DAY, at, bill, billed, empty_row, market, pool};
use crate::readings::record;
use ledger::{Ledger, Report};
use std::alloc::Global;
use std::test::Fail;

fn owed(ledger: &Ledger, counter_party: u16) -> Result<u64, Fail> {
    Ok(ledger.report(&empty_row(), counter_party)?.owed)
}

// Not the larger of 0 and the sum of all participants, which would leave the first Counter-Party without activity.
#[test]
fn clipped_for_each_participant(rt: HostRuntime) -> Result<(), Fail> {
    let mut ledger = pool(rt.alloc())?;
    ledger.enrol(103, 7)?;
    let records = [
        (101, record(3, 0, -5)),
        (103, record(3, 0, 3)),
        (102, record(1, 0, 3)),
    ];
    let month = market(&ledger, 46, &records)?;
    bill(&mut ledger, &month, 100, at(BILL_DAY, 600))?;
    assert_eq!(rt; owed(&ledger, 7)?, 50);
    assert_eq!(rt; owed(&ledger, 12)?, 50);
    Ok(())
}

// Not each quantity divided by four with its fraction dropped, which would leave the first without activity.
#[test]
fn quarter_hours_are_added_first(rt: HostRuntime) -> Result<(), Fail> {
    let mut ledger = pool(rt.alloc())?;
    let three = (101, record(5, 0, 3));
    let month = market(
        &ledger,
        46,
        &[three, three, three, three, (102, record(1, 0, 3))],
    )?;
    bill(&mut ledger, &month, 100, at(BILL_DAY, 600))?;
    assert_eq!(rt; owed(&ledger, 7)?, 50);
    assert_eq!(rt; owed(&ledger, 12)?, 50);
    Ok(())
}

// A pool of three, whose numbers fall in the order of registration.
fn falling_numbers(heap: Global) -> Result<Ledger, Fail> {
    let mut ledger = Ledger::new(heap, 26)?;
    for (participant, party) in [(101, 19), (102, 12), (103, 7)] {
        ledger.register(party)?;
        ledger.enrol(participant, party)?;
    }
    Ok(ledger)
}

// Not each share rounded with the difference given to the last, which would be 33, 33 and 34. The earlier is the one
// that was registered earlier, and not the one with the smaller number.
#[test]
fn leftover_goes_to_the_earlier(rt: HostRuntime) -> Result<(), Fail> {
    let mut ledger = falling_numbers(rt.alloc())?;
    let one = record(1, 0, 1);
    let month = market(&ledger, 46, &[(103, one), (102, one), (101, one)])?;
    bill(&mut ledger, &month, 100, at(BILL_DAY, 600))?;
    let row = [security::Cash::new(); 3];
    assert_eq!(rt; ledger.report(&row, 19)?.owed, 34);
    assert_eq!(rt; ledger.report(&row, 12)?.owed, 33);
    assert_eq!(rt; ledger.report(&row, 7)?.owed, 33);
    Ok(())
}

// Not 17:00 of the due day taken as past due: minute 1,020 draws nothing, the next one does.
#[test]
fn five_o_clock_is_in_time(rt: HostRuntime) -> Result<(), Fail> {
    let mut ledger = billed(rt.alloc())?;
    let mut row = empty_row();
    assert_eq!(rt; ledger.fund(&mut row, 7, 1, 40)?, 40);
    let early = ledger.past_due(at(DUE_DAY, 1_020), &mut row)?;
    assert_eq!(rt; early.drawn, 0);
    assert_eq!(rt; early.owed, 0);
    let late = ledger.past_due(at(DUE_DAY, 1_021), &mut row)?;
    assert_eq!(rt; late.drawn, 40);
    assert_eq!(rt; late.owed, 61);
    let report = Report {
        owed: 11,
        exposure: 102,
        held: 0,
        uncovered: 102,
    };
    assert_eq!(rt; ledger.report(&row, 7), Ok(report));
    Ok(())
}

// Of two equals the one that was registered earlier pays the odd cent, in this bill, in the next, and in a rerun.
#[test]
fn odd_cent_to_the_earlier(rt: HostRuntime) -> Result<(), Fail> {
    let heap = rt.alloc();
    for _ in 0..2 {
        let mut ledger = falling_numbers(heap)?;
        for month in 46..48 {
            let one = record(1, 0, 1);
            let market = market(&ledger, month, &[(102, one), (101, one)])?;
            bill(&mut ledger, &market, 101, at(BILL_DAY, 600))?;
        }
        let row = [security::Cash::new(); 3];
        assert_eq!(rt; ledger.report(&row, 19)?.owed, 102);
        assert_eq!(rt; ledger.report(&row, 12)?.owed, 100);
        assert_eq!(rt; ledger.report(&row, 7)?.owed, 0);
    }
    Ok(())
}
