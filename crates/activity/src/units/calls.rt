// What may be done with a sum. Only `quarters` leads from one unit to another.
ghost use Rattle.std.specs.Prelude.{◌≡◌, ◌≤◌, pos, ◌+ℤ◌, ◌*ℤ◌, neg_ℤ, unsigned_abs};
ghost use Rattle.std.specs.Int.{int_max};
ghost use Rattle.foundation.specs.Questions.{means};
ghost use Rattle.activity.specs.Units.{sum_in, quarters_in, sum_answer};

use super::{Quarters, Sum};
use foundation::MOST_SUM;
use records::Fault;
use std::ops::Neg;

impl<const QUARTERS: u8> Sum<QUARTERS> {
    pub(crate) fn zero() -> Sum<QUARTERS>
        ensures { sum_in result ≡ pos 0 }
    {
        Sum { sum: 0 }
    }

    // The sum with a quantity more, if that stays within its limit.
    pub(crate) fn plus(self, quantity: i32) -> Result<Sum<QUARTERS>, Fault>
        ensures { means sum_in result ≡ sum_answer (sum_in self.entry) quantity }
    {
        let sum = self.sum + i64::from(quantity);
        if sum < -MOST_SUM || sum > MOST_SUM {
            return Err(Fault::Sum);
        }
        Ok(Sum { sum })
    }

    // The larger of 0 and the sum.
    pub(crate) fn clipped(self) -> Sum<QUARTERS>
        ensures { sum_in result ≡ int_max (pos 0) (sum_in self.entry) }
    {
        Sum {
            sum: self.sum.max(0),
        }
    }

    pub(crate) fn quarters(self) -> Quarters
        ensures { quarters_in result ≡ pos QUARTERS *ℤ sum_in self.entry }
    {
        Quarters {
            count: i64::from(QUARTERS) * self.sum,
        }
    }
}

impl<const QUARTERS: u8> Neg for Sum<QUARTERS> {
    type Output = Sum<QUARTERS>;

    ghost neg_gives = { λ s r. sum_in r ≡ neg_ℤ (sum_in s) };

    fn neg(self) -> Sum<QUARTERS> {
        Sum { sum: -self.sum }
    }
}

impl Quarters {
    pub(crate) fn zero() -> Quarters
        ensures { quarters_in result ≡ pos 0 }
    {
        Quarters { count: 0 }
    }

    pub fn count(self) -> i64
        ensures { result ≡ quarters_in self }
    {
        self.count
    }

    // Kept as a method: the type is public, and an `Add` would ask something of its callers.
    pub(crate) fn plus(self, more: Quarters) -> Quarters
        requires { (unsigned_abs (quarters_in self) ≤ 2000000000000000) × (unsigned_abs (quarters_in more) ≤ 2000000000000000) }
        ensures { quarters_in result ≡ quarters_in self +ℤ quarters_in more }
    {
        Quarters {
            count: self.count + more.count,
        }
    }
}
