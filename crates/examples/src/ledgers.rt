// Each refusal of each call of the ledger, and that what was lent to the call for change is as it was.
use crate::pools::{BILL_DAY, DUE_DAY, at, bill, billed, empty_row, equal_month, market, pool};
use crate::readings::record;
use activity::Table;
use ledger::{Fault, Ledger};
use security::Cash;
use std::alloc::Global;
use std::test::Fail;

fn number<T: Drop>(answer: Result<T, Fault>) -> Option<u8> {
    answer.err().map(Fault::number)
}

// 32 Counter-Parties, each with two participants.
fn full_pool(heap: Global) -> Result<Ledger, Fail> {
    let mut ledger = Ledger::new(heap, 26)?;
    for party in 1..=32 {
        ledger.register(party)?;
        ledger.enrol(100 + party, party)?;
        ledger.enrol(200 + party, party)?;
    }
    Ok(ledger)
}

#[test]
fn registering(rt: HostRuntime) -> Result<(), Fail> {
    let heap = rt.alloc();
    let mut ledger = full_pool(heap)?;
    assert_eq!(rt; number(ledger.register(0)), Some(8));
    assert_eq!(rt; number(ledger.register(32)), Some(9));
    assert_eq!(rt; number(ledger.register(33)), Some(10));
    assert!(rt; ledger == full_pool(heap)?);
    Ok(())
}

#[test]
fn enrolling(rt: HostRuntime) -> Result<(), Fail> {
    let heap = rt.alloc();
    let mut ledger = full_pool(heap)?;
    assert_eq!(rt; number(ledger.enrol(0, 1)), Some(8));
    assert_eq!(rt; number(ledger.enrol(101, 33)), Some(9));
    assert_eq!(rt; number(ledger.enrol(301, 33)), Some(11));
    assert_eq!(rt; number(ledger.enrol(301, 1)), Some(10));
    assert!(rt; ledger == full_pool(heap)?);
    Ok(())
}

#[test]
fn posting(rt: HostRuntime) -> Result<(), Fail> {
    let ledger = pool(rt.alloc())?;
    let mut table = Table::new();
    let mut same = Table::new();
    let earlier = table.open(45);
    let month = table.open(46);
    let _ = same.open(45);
    let again = same.open(46);
    ledger.post(&mut table, &month, 101, record(1, 0, 2_000_000_000))?;
    ledger.post(&mut same, &again, 101, record(1, 0, 2_000_000_000))?;
    let cases = [
        (103, record(0, 9, -1), 13),
        (101, record(17, 9, -1), 14),
        (101, record(2, 1, -1), 15),
        (101, record(16, 0, -1), 16),
        (101, record(1, 0, 1), 17),
    ];
    assert_eq!(rt;
        number(ledger.post(&mut table, &earlier, 103, record(0, 9, -1))),
        Some(12)
    );
    for (participant, record, refusal) in cases {
        assert_eq!(rt;
            number(ledger.post(&mut table, &month, participant, record)),
            Some(refusal)
        );
    }
    assert!(rt; table == same);
    Ok(())
}

// In the order of the questions: the moment, then the table.
#[test]
fn billing(rt: HostRuntime) -> Result<(), Fail> {
    let heap = rt.alloc();
    let mut ledger = billed(heap)?;
    let (table, _) = equal_month(&ledger, 48)?;
    let (_, other) = equal_month(&ledger, 49)?;
    let mixed = (table, other);
    assert_eq!(rt;
        number(bill(&mut ledger, &mixed, 0, at(29_220, 0))),
        Some(6)
    );
    assert_eq!(rt;
        number(bill(&mut ledger, &mixed, 0, at(BILL_DAY, 1_440))),
        Some(6)
    );
    assert_eq!(rt;
        number(bill(&mut ledger, &mixed, 0, at(BILL_DAY, 599))),
        Some(7)
    );
    assert_eq!(rt;
        number(bill(&mut ledger, &mixed, 0, at(BILL_DAY, 600))),
        Some(12)
    );
    assert!(rt; ledger == billed(heap)?);
    Ok(())
}

// The amount, the month and the due day.
#[test]
fn billing_again(rt: HostRuntime) -> Result<(), Fail> {
    let heap = rt.alloc();
    let mut ledger = billed(heap)?;
    let stamp = at(BILL_DAY, 600);
    let next = equal_month(&ledger, 47)?;
    let old = equal_month(&ledger, 46)?;
    let late = equal_month(&ledger, 960)?;
    assert_eq!(rt; number(bill(&mut ledger, &old, 0, stamp)), Some(18));
    assert_eq!(rt;
        number(bill(&mut ledger, &old, 1_000_000_001, stamp)),
        Some(18)
    );
    assert_eq!(rt; number(bill(&mut ledger, &old, 5, stamp)), Some(19));
    assert_eq!(rt; number(bill(&mut ledger, &late, 5, stamp)), Some(19));
    assert_eq!(rt;
        number(bill(&mut ledger, &next, 5, at(29_213, 600))),
        Some(22)
    );
    assert!(rt; ledger == billed(heap)?);
    Ok(())
}

#[test]
fn billing_by_activity(rt: HostRuntime) -> Result<(), Fail> {
    let heap = rt.alloc();
    let mut ledger = pool(heap)?;
    let none = market(&ledger, 46, &[])?;
    let most = record(1, 0, 2_000_000_000);
    let much = market(&ledger, 46, &[(101, most), (102, record(1, 0, 1))])?;
    assert_eq!(rt;
        number(bill(&mut ledger, &none, 5, at(BILL_DAY, 600))),
        Some(20)
    );
    assert_eq!(rt;
        number(bill(&mut ledger, &much, 5, at(BILL_DAY, 600))),
        Some(21)
    );
    assert!(rt; ledger == pool(heap)?);
    Ok(())
}

fn equal_shares(ledger: &Ledger, month: u16) -> Result<(Table, activity::Closed), Fail> {
    let mut table = Table::new();
    let collecting = table.open(month);
    for participant in 101..=132 {
        ledger.post(&mut table, &collecting, participant, record(1, 0, 1))?;
    }
    Ok((table, collecting.close()))
}

// A pool with 256 unsettled invoices, after eight months.
fn without_places(heap: Global) -> Result<Ledger, Fail> {
    let mut ledger = full_pool(heap)?;
    for month in 0..8 {
        let market = equal_shares(&ledger, month)?;
        bill(&mut ledger, &market, 3_200, at(BILL_DAY, 600))?;
    }
    Ok(ledger)
}

// A paid invoice gives its place free. A month of 32 invoices wants 32 of them.
#[test]
fn places(rt: HostRuntime) -> Result<(), Fail> {
    let heap = rt.alloc();
    let mut ledger = without_places(heap)?;
    let next = equal_shares(&ledger, 8)?;
    assert_eq!(rt;
        number(bill(&mut ledger, &next, 3_200, at(BILL_DAY, 600))),
        Some(23)
    );
    assert!(rt; ledger == without_places(heap)?);
    for invoice in 1..=31 {
        let remark = format!(in heap; "INV{invoice}")?;
        assert_eq!(rt;
            ledger.pay(at(BILL_DAY, 601), 26, 100, remark.as_bytes()),
            Ok(0)
        );
    }
    assert_eq!(rt;
        number(bill(&mut ledger, &next, 3_200, at(BILL_DAY, 601))),
        Some(23)
    );
    assert_eq!(rt; ledger.pay(at(BILL_DAY, 601), 26, 100, b"INV256"), Ok(0));
    let issued = bill(&mut ledger, &next, 3_200, at(BILL_DAY, 601))?;
    assert_eq!(rt; issued.count, 32);
    assert_eq!(rt; issued.first, 257);
    Ok(())
}

#[test]
fn paying(rt: HostRuntime) -> Result<(), Fail> {
    let heap = rt.alloc();
    let mut ledger = billed(heap)?;
    assert_eq!(rt; number(ledger.pay(at(29_220, 0), 1, 0, b"")), Some(6));
    assert_eq!(rt; number(ledger.pay(at(BILL_DAY, 599), 1, 0, b"")), Some(7));
    assert_eq!(rt;
        number(ledger.pay(at(BILL_DAY, 601), 1, 0, b"INV123456")),
        Some(24)
    );
    assert_eq!(rt;
        number(ledger.pay(at(BILL_DAY, 601), 1, 0, b"INV3")),
        Some(25)
    );
    assert_eq!(rt;
        number(ledger.pay(at(BILL_DAY, 601), 1, 0, b"INV1")),
        Some(26)
    );
    assert_eq!(rt;
        number(ledger.pay(at(BILL_DAY, 601), 26, 0, b"INV1")),
        Some(27)
    );
    assert_eq!(rt;
        number(ledger.pay(at(BILL_DAY, 601), 26, 52, b"INV1")),
        Some(27)
    );
    assert!(rt; ledger == billed(heap)?);
    assert_eq!(rt; ledger.pay(at(BILL_DAY, 600), 26, 51, b"INV1"), Ok(0));
    assert!(rt; ledger != billed(heap)?);
    Ok(())
}

#[test]
fn funding(rt: HostRuntime) -> Result<(), Fail> {
    let ledger = pool(rt.alloc())?;
    let mut row = empty_row();
    let mut short = [Cash::new(); 1];
    assert_eq!(rt;
        ledger.fund(&mut row, 12, 1, 1_000_000_000),
        Ok(1_000_000_000)
    );
    let before = row;
    assert_eq!(rt; number(ledger.fund(&mut short, 9, 3, 0)), Some(11));
    assert_eq!(rt; number(ledger.fund(&mut short, 12, 3, 0)), Some(28));
    assert_eq!(rt; number(ledger.fund(&mut row, 12, 0, 0)), Some(29));
    assert_eq!(rt; number(ledger.fund(&mut row, 12, 3, 0)), Some(29));
    assert_eq!(rt; number(ledger.fund(&mut row, 12, 1, 0)), Some(30));
    assert_eq!(rt;
        number(ledger.fund(&mut row, 12, 1, 1_000_000_001)),
        Some(30)
    );
    assert!(rt; row == before);
    assert!(rt; short == [Cash::new(); 1]);
    Ok(())
}

// The instrument's own refusal is inside, with means, amount and room.
#[test]
fn funding_above_the_room(rt: HostRuntime) -> Result<(), Fail> {
    let ledger = pool(rt.alloc())?;
    let mut row = [Cash::new(); 2];
    for _ in 0..10 {
        ledger.fund(&mut row, 7, 1, 1_000_000_000)?;
    }
    let before = row;
    let Err(fault) = ledger.fund(&mut row, 7, 1, 1) else {
        return Err(Fail::new("funded above the room"));
    };
    let Some(refused) = fault.instrument() else {
        return Err(Fail::new("no instrument's refusal"));
    };
    assert_eq!(rt; fault.number(), 31);
    assert_eq!(rt; refused.means.number(), 1);
    assert_eq!(rt; refused.amount, 1);
    assert_eq!(rt; refused.room, 0);
    assert_eq!(rt; number(ledger.fund(&mut row, 7, 2, 5)), Some(31));
    assert!(rt; row == before);
    Ok(())
}

#[test]
fn running(rt: HostRuntime) -> Result<(), Fail> {
    let heap = rt.alloc();
    let mut ledger = billed(heap)?;
    let mut row = empty_row();
    ledger.fund(&mut row, 7, 1, 1_000)?;
    let before = row;
    let mut short = [row[0]];
    assert_eq!(rt; number(ledger.past_due(at(29_220, 0), &mut row)), Some(6));
    assert_eq!(rt;
        number(ledger.past_due(at(BILL_DAY, 599), &mut row)),
        Some(7)
    );
    assert_eq!(rt;
        number(ledger.past_due(at(DUE_DAY, 1_021), &mut short)),
        Some(28)
    );
    assert!(rt; ledger == billed(heap)?);
    assert!(rt; row == before);
    assert!(rt; short == [before[0]]);
    assert_eq!(rt; ledger.past_due(at(DUE_DAY, 1_021), &mut row)?.drawn, 51);
    assert!(rt; row != before);
    let drawn = row;
    assert_eq!(rt;
        number(ledger.past_due(at(DUE_DAY, 1_020), &mut row)),
        Some(7)
    );
    assert!(rt; row == drawn);
    Ok(())
}

#[test]
fn reporting(rt: HostRuntime) -> Result<(), Fail> {
    let ledger = billed(rt.alloc())?;
    let row = empty_row();
    assert_eq!(rt; number(ledger.report(&row[0..1], 9)), Some(11));
    assert_eq!(rt; number(ledger.report(&row[0..1], 12)), Some(28));
    assert!(rt; ledger.report(&row, 12).is_ok());
    Ok(())
}
