// Why a record is not posted, or a month's activity not given.
ghost use Rattle.std.specs.Prelude.{◌≡◌};
ghost use Rattle.records.specs.Faults.{number as number_of};

#[derive(Clone, Copy, PartialEq, Eq, Debug)]
pub enum Fault {
    Month = 12,
    Participant = 13,
    Determinant = 14,
    Mark = 15,
    Sign = 16,
    Sum = 17,
}

impl Fault {
    pub fn number(self) -> u8
        ensures { result ≡ number_of self }
    {
        self as u8
    }
}
