// Records for the tests.
use records::Record;

pub(crate) fn record(determinant: u8, mark: u8, quantity: i32) -> Record {
    Record {
        determinant,
        mark,
        quantity,
    }
}
