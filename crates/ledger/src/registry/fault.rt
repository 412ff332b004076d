// Why nobody is registered or enrolled.
ghost use Rattle.std.specs.Prelude.{◌≡◌};
ghost use Rattle.ledger.specs.RegistryFaults.{number as number_of};

// By its number.
#[derive(Clone, Copy, PartialEq, Eq, Debug)]
pub enum Fault {
    Zero = 8,
    Known = 9,
    Full = 10,
    CounterParty = 11,
}

impl Fault {
    pub fn number(self) -> u8
        ensures { result ≡ number_of self }
    {
        self as u8
    }
}
