// Making an amount.
ghost use Rattle.std.specs.Prelude.{◌≡◌};
ghost use Rattle.foundation.specs.Questions.{means};
ghost use Rattle.split.specs.Amounts.{cents_of, amount_answer};

use super::Amount;
use crate::fault::Fault;
use foundation::MOST_AMOUNT;

impl Amount {
    pub fn new(cents: u64) -> Result<Amount, Fault>
        ensures { means cents_of result ≡ amount_answer cents }
    {
        if cents < 1 || cents > MOST_AMOUNT {
            return Err(Fault::Amount);
        }
        Ok(Amount { cents })
    }

    pub fn cents(self) -> u64
        ensures { result ≡ cents_of self }
    {
        self.cents
    }
}
