// A month from its opening to its activities.
use crate::readings::record;
use activity::{Position, Table};
use records::{Determinant, Group, Mark, Ruling, Unit};
use std::test::Fail;

#[test]
fn determinants(rt: HostRuntime) {
    assert_eq!(rt;
        record(16, 0, 5).ruled(),
        Ok(Ruling::Counted(Determinant::Oblp))
    );
    assert_eq!(rt;
        record(1, 1, 5).ruled(),
        Ok(Ruling::Excluded(Mark::RmrResource))
    );
    assert_eq!(rt;
        record(1, 2, 5).ruled(),
        Ok(Ruling::Excluded(Mark::RucInterval))
    );
    assert_eq!(rt; Determinant::try_from(16u8).ok(), Some(Determinant::Oblp));
    assert!(rt; Determinant::try_from(17u8).is_err());
    assert_eq!(rt; Determinant::Mebl.unit(), Unit::MegawattHour);
    assert_eq!(rt; Determinant::Rtqqep.unit(), Unit::MegawattOverQuarterHour);
    assert_eq!(rt; Determinant::Obls.group().number(), 8);
    assert_eq!(rt; u8::from(Determinant::Opts), 13);
    assert_eq!(rt; u8::from(Mark::RucInterval), 2);
    for (group, number) in Group::ALL.iter().zip(1..=9) {
        assert_eq!(rt; group.number(), number);
    }
}

// Determinants 1 and 2 in one group, two Counter-Parties, and a marked record that is not added.
#[test]
fn activities(rt: HostRuntime) {
    let mut table = Table::new();
    let month = table.open(46);
    assert!(rt;
        table
            .post(&month, Position::new(0), record(1, 0, 10))
            .is_ok()
    );
    assert!(rt;
        table
            .post(&month, Position::new(0), record(2, 0, 10))
            .is_ok()
    );
    assert!(rt;
        table
            .post(&month, Position::new(0), record(1, 2, 999))
            .is_ok()
    );
    assert!(rt;
        table
            .post(&month, Position::new(1), record(4, 0, -7))
            .is_ok()
    );
    assert!(rt;
        table
            .post(&month, Position::new(2), record(4, 0, 7))
            .is_ok()
    );
    let closed = month.close();
    assert_eq!(rt; closed.month(), 46);
    let mut quarters = [9; 4];
    assert!(rt; table.activities(&closed, &[1, 0, 2], &mut quarters).is_ok());
    assert_eq!(rt; quarters, [28, 50, 0, 0]);
    assert_eq!(rt; table.group_value(&[1, 0, 2], 2, Group::Load).count(), -28);
}

// Opening the next month clears the table.
#[test]
fn months_follow(rt: HostRuntime) {
    let mut table = Table::new();
    let first = table.open(46);
    assert!(rt;
        table
            .post(&first, Position::new(63), record(8, 0, 25))
            .is_ok()
    );
    let closed = first.close();
    let second = table.open(47);
    let mut quarters = [9];
    assert_eq!(rt;
        table.activities(&closed, &[0], &mut quarters).is_err(),
        true
    );
    assert_eq!(rt; quarters, [9]);
    assert!(rt;
        table
            .activities(&second.close(), &[0], &mut quarters)
            .is_ok()
    );
    assert_eq!(rt; quarters, [0]);
}

#[test]
fn positions(rt: HostRuntime) -> Result<(), Fail> {
    let last = Position::new(63).ok_or(13)?;
    assert_eq!(rt; last.index(), 63);
    assert!(rt; Position::new(64).is_none());
    Ok(())
}
