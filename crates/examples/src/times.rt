// Moments, calendars and due days.
use calendar::{Calendar, Moment, Posted, Weekly, due_day};
use std::test::Fail;

#[test]
fn moments(rt: HostRuntime) -> Result<(), Fail> {
    let first = Moment::new(1500, 1020).ok_or(6)?;
    let second = Moment::new(1500, 1021).ok_or(6)?;
    assert_eq!(rt; first.day(), 1500);
    assert_eq!(rt; first.minute(), 1020);
    assert!(rt; first.is_before(second));
    assert!(rt; !second.is_before(first));
    assert!(rt; !first.is_before(first));
    assert!(rt; Moment::new(29_219, 1_439).is_some());
    assert!(rt; Moment::new(29_220, 0).is_none());
    assert!(rt; Moment::new(0, 1_440).is_none());
    Ok(())
}

// Day 1500 is a Friday.
#[test]
fn weekly_due_days(rt: HostRuntime) {
    assert_eq!(rt; due_day(&Weekly::new(&[], &[]), 1500), Some(1507));
    assert_eq!(rt; due_day(&Weekly::new(&[], &[1507]), 1500), Some(1510));
    assert_eq!(rt; due_day(&Weekly::new(&[1503], &[]), 1500), Some(1510));
    assert_eq!(rt; due_day(&Weekly::new(&[], &[]), 29_212), Some(29_219));
    assert_eq!(rt; due_day(&Weekly::new(&[], &[]), 29_213), None);
}

// The seventeenth listed day does not count.
#[test]
fn sixteen_listed_days(rt: HostRuntime) {
    let list = [1, 2, 3, 4, 5, 6, 7, 8, 9, 10, 11, 12, 13, 14, 15, 16, 1507];
    let weekly = Weekly::new(&list, &list);
    assert!(rt; !weekly.is_business_day(16));
    assert!(rt; weekly.is_bank_business_day(1507));
}

// Five Bank Business Days from day 101 on, of which only the last three are Business Days; then a weekend.
#[test]
fn posted_calendar(rt: HostRuntime) {
    let posted = Posted::new(101, &[0b1111_0101, 0b0000_0011]);
    assert!(rt; posted.is_bank_business_day(101));
    assert!(rt; !posted.is_business_day(101));
    assert!(rt; !posted.is_bank_business_day(100));
    assert!(rt; !posted.is_bank_business_day(109));
    assert_eq!(rt; due_day(&posted, 100), Some(105));
    assert_eq!(rt; due_day(&posted, 101), None);
}

// No day within 30 days of the invoice day is both, though one after them is.
#[test]
fn at_most_thirty_days(rt: HostRuntime) {
    let late = Posted::new(1, &[0x55, 0x55, 0x55, 0x55, 0x55, 0x55, 0x55, 0x75]);
    assert_eq!(rt; due_day(&late, 0), None);
    let thirtieth = Posted::new(1, &[0x55, 0x55, 0x55, 0x55, 0x55, 0x55, 0x55, 0x5d]);
    assert_eq!(rt; due_day(&thirtieth, 0), Some(30));
}
