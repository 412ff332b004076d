// Why an amount is not split.
ghost use Rattle.std.specs.Prelude.{◌≡◌};
ghost use Rattle.split.specs.Faults.{number as number_of};

// By its number.
#[derive(Clone, Copy, PartialEq, Eq, Debug)]
pub enum Fault {
    Amount = 18,
    NoActivity = 20,
    TooMuchActivity = 21,
}

impl Fault {
    pub fn number(self) -> u8
        ensures { result ≡ number_of self }
    {
        self as u8
    }
}
