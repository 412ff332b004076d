// Cash, up to a limit.
ghost use Rattle.std.specs.Prelude.{◌≡◌, ◌≤◌};
ghost use Rattle.security.specs.Instruments.{cash_room};

use crate::instrument::Instrument;
use crate::means::{FundingRefused, Means};
use foundation::MOST_SECURITY;

#[derive(Clone, Copy, PartialEq)]
pub struct Cash {
    cents: u64,
    ghost within: { cents ≤ 10000000000 },
}

impl Cash {
    pub fn new() -> Cash
        ensures { result.cents ≡ 0 }
    {
        Cash { cents: 0 }
    }
}

impl Instrument for Cash {
    ghost held = { λ c. c.cents };

    ghost room = { λ c. cash_room c.cents };

    fn held(&self) -> u64 {
        self.cents
    }

    fn room(&self, means: Means) -> u64 {
        match means {
            Means::Cash => MOST_SECURITY - self.cents,
            Means::Letter => 0,
        }
    }

    fn draw(&mut self, n: u64) -> u64 {
        let paid = n.min(self.cents);
        self.cents -= paid;
        paid
    }

    fn fund(&mut self, means: Means, n: u64) -> Result<(), FundingRefused> {
        FundingRefused::unless_fits(means, n, self.room(means))?;
        self.cents += n;
        Ok(())
    }
}
