// Why no invoice is issued, or a payment not taken.
ghost use Rattle.std.specs.Prelude.{◌≡◌};
ghost use Rattle.receivables.specs.Faults.{number as number_of};

#[derive(Clone, Copy, PartialEq, Eq, Debug)]
pub enum Fault {
    Places = 23,
    Number = 25,
    Account = 26,
    Amount = 27,
}

impl Fault {
    pub fn number(self) -> u8
        ensures { result ≡ number_of self }
    {
        self as u8
    }
}
