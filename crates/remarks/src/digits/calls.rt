// The number of digits of each product.
ghost use Rattle.std.specs.Prelude.{◌≡◌};
ghost use Rattle.remarks.specs.Digits.{most_of};

use super::Digits;

impl Digits {
    pub fn five() -> Digits
        ensures { most_of result ≡ 5 }
    {
        Digits { most: 5 }
    }

    pub(crate) fn most(self) -> usize
        ensures { result ≡ most_of self }
    {
        self.most
    }
}
