// Spreadsheet habits that the rules rule out: each test fails where the habit is followed.
use crate::readings::record;
use activity::{Position, Table};
use records::Group;
use split::{Amount, split};
use std::test::Fail;

// Not the larger of 0 and the sum of all participants, which would be 0.
#[test]
fn clipped_for_each_participant(rt: HostRuntime) {
    let mut table = Table::new();
    let month = table.open(46);
    assert!(rt;
        table
            .post(&month, Position::new(0), record(3, 0, -5))
            .is_ok()
    );
    assert!(rt;
        table
            .post(&month, Position::new(1), record(3, 0, 3))
            .is_ok()
    );
    assert_eq!(rt; table.group_value(&[0, 0], 0, Group::Load).count(), 12);
    assert_eq!(rt; table.activity(&[0, 0], 0), 12);
}

// Not each quantity divided by four with its fraction dropped, which would come to 0.
#[test]
fn quarter_hours_are_added_first(rt: HostRuntime) {
    let mut table = Table::new();
    let month = table.open(46);
    for _ in 0..5 {
        assert!(rt;
            table
                .post(&month, Position::new(0), record(5, 0, 3))
                .is_ok()
        );
    }
    assert_eq!(rt; table.group_value(&[0], 0, Group::Sales).count(), 15);
}

// Not each share rounded with the difference given to the last, which would be 33, 33 and 34.
#[test]
fn leftover_goes_to_the_earlier(rt: HostRuntime) -> Result<(), Fail> {
    let mut charges = [9; 3];
    let amount = Amount::new(100)?;
    assert_eq!(rt; split(amount, &[1, 1, 1], &mut charges)?, 3);
    assert_eq!(rt; charges, [34, 33, 33]);
    Ok(())
}
