// What every instrument does.
ghost use Rattle.std.specs.Prelude.{◌≡◌, ℕ, ◌-◌, ◌<◌, ◌≤◌, min};
ghost use Rattle.foundation.specs.Limits.{most_held};
ghost use Rattle.security.specs.declared.means.Means.{Means};
ghost use Rattle.security.specs.Funding.{fund_answer, funded};

use crate::means::{FundingRefused, Means};

// Its meaning is the cents held and, for each means, the room for more. Asking changes nothing.
pub trait Instrument {
    ghost held: { Self → ℕ };

    ghost room: { Self → Means → ℕ };

    fn held(&self) -> u64
        ensures { result ≡ min (held self.now) most_held };

    fn room(&self, means: Means) -> u64
        ensures { result ≡ room self.now means };

    // Pays the smaller of n and what is held. No room falls.
    fn draw(&mut self, n: u64) -> u64
        ensures paid { result ≡ min n (held self.old) }
        ensures left { held self.new ≡ held self.old - n }
        ensures rooms { (m : Means) → room self.old m ≤ room self.new m };

    // Raises what is held by n, or is refused where n is above the room, and then changes nothing. No room rises.
    fn fund(&mut self, means: Means, n: u64) -> Result<(), FundingRefused>
        ensures answer { result ≡ fund_answer means n (room self.old means) }
        ensures left { held self.new ≡ funded (held self.old) n (room self.old means) }
        ensures rooms { (m : Means) → room self.new m ≤ room self.old m }
        ensures refused { room self.old means < n → self.new ≡ self.old };
}
