// Each refusal by its number, and what it leaves.
use crate::readings::record;
use activity::{Position, Table};
use records::Fault;
use split::{Amount, Fault as SplitFault, split};
use std::test::Fail;

// Determinant, mark, sign and sum, in that order.
#[test]
fn posts(rt: HostRuntime) {
    let mut table = Table::new();
    let earlier = table.open(45);
    let month = table.open(46);
    let first = Position::new(0);
    let cases = [
        (record(0, 9, -1), 14),
        (record(17, 0, 1), 14),
        (record(1, 3, -1), 15),
        (record(2, 1, -1), 15),
        (record(1, 1, -1), 16),
        (record(16, 0, -1), 16),
    ];
    assert_eq!(rt;
        table
            .post(&earlier, None, record(0, 9, -1))
            .map_err(Fault::number),
        Err(12)
    );
    assert_eq!(rt;
        table
            .post(&month, None, record(0, 9, -1))
            .map_err(Fault::number),
        Err(13)
    );
    for (record, number) in cases {
        assert_eq!(rt;
            table.post(&month, first, record).map_err(Fault::number),
            Err(number)
        );
    }
    assert_eq!(rt; table.activity(&[0], 0), 0);
}

// A sum of just 2,000,000,000 stands, one more is refused, and a marked record is not added.
#[test]
fn sums(rt: HostRuntime) {
    let mut table = Table::new();
    let month = table.open(46);
    let first = Position::new(0);
    assert!(rt;
        table
            .post(&month, first, record(1, 0, 2_000_000_000))
            .is_ok()
    );
    assert_eq!(rt;
        table
            .post(&month, first, record(1, 0, 1))
            .map_err(Fault::number),
        Err(17)
    );
    assert!(rt; table.post(&month, first, record(1, 1, 1)).is_ok());
    assert!(rt;
        table
            .post(&month, first, record(4, 0, -2_000_000_000))
            .is_ok()
    );
    assert_eq!(rt;
        table
            .post(&month, first, record(4, 0, -1))
            .map_err(Fault::number),
        Err(17)
    );
    assert_eq!(rt; table.activity(&[0], 0), 8_000_000_000);
}

#[test]
fn amounts(rt: HostRuntime) -> Result<(), Fail> {
    assert_eq!(rt; Amount::new(1_000_000_000)?.cents(), 1_000_000_000);
    assert_eq!(rt; Amount::new(0).is_err(), true);
    assert_eq!(rt; Amount::new(1_000_000_001).is_err(), true);
    Ok(())
}

#[test]
fn splits(rt: HostRuntime) -> Result<(), Fail> {
    let amount = Amount::new(2)?;
    let mut charges = [9; 3];
    assert_eq!(rt;
        split(amount, &[0, 0], &mut charges).map_err(SplitFault::number),
        Err(20)
    );
    assert_eq!(rt;
        split(amount, &[8_000_000_000, 1], &mut charges).map_err(SplitFault::number),
        Err(21)
    );
    assert_eq!(rt; charges, [9, 9, 9]);
    assert!(rt; split(amount, &[8_000_000_000, 0], &mut charges).is_ok());
    assert_eq!(rt; charges, [2, 0, 0]);
    assert_eq!(rt; SplitFault::Amount.number(), 18);
    Ok(())
}
