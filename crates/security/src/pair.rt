// Two instruments together.
ghost use Rattle.std.specs.Prelude.{◌≡◌, ◌+◌, ◌-◌, ◌<◌, ◌≤◌, min, max};
ghost use Rattle.security.specs.Funding.{fund_answer, funded};
ghost use Rattle.security.specs.Instruments.{left_in_first, left_in_second, funded_second};
ghost use Rattle.security.specs.declared.means.Means.{Means};

use crate::instrument::Instrument;
use crate::means::{FundingRefused, Means};
use foundation::MOST_HELD;

#[derive(Clone, Copy, PartialEq)]
pub struct Pair<A, B> {
    pub first: A,
    pub second: B,
}

impl<F: Instrument, S: Instrument> Instrument for Pair<F, S> {
    ghost held = { λ p. F.Instrument.held p.first + S.Instrument.held p.second };

    ghost room = { λ p m. max (F.Instrument.room p.first m) (S.Instrument.room p.second m) };

    fn held(&self) -> u64 {
        let both = self.first.held() + self.second.held();
        both.min(MOST_HELD)
    }

    fn room(&self, means: Means) -> u64 {
        self.first.room(means).max(self.second.room(means))
    }

    // From the first, then the rest from the second. Clauses here, and at `fund`, stand in place of the trait's, so
    // these stand here too.
    fn draw(&mut self, n: u64) -> u64
        ensures paid { result ≡ min n (F.Instrument.held self.old.first + S.Instrument.held self.old.second) }
        ensures left { F.Instrument.held self.new.first + S.Instrument.held self.new.second ≡ F.Instrument.held self.old.first + S.Instrument.held self.old.second - n }
        ensures rooms { (m : Means) → max (F.Instrument.room self.old.first m) (S.Instrument.room self.old.second m) ≤ max (F.Instrument.room self.new.first m) (S.Instrument.room self.new.second m) }
        ensures first { F.Instrument.held self.new.first ≡ left_in_first (F.Instrument.held self.old.first) n }
        ensures second { S.Instrument.held self.new.second ≡ left_in_second (F.Instrument.held self.old.first) (S.Instrument.held self.old.second) n }
    {
        let paid = self.first.draw(n);
        paid + self.second.draw(n - paid)
    }

    // To the first that has the room.
    fn fund(&mut self, means: Means, n: u64) -> Result<(), FundingRefused>
        ensures answer { result ≡ fund_answer means n (max (F.Instrument.room self.old.first means) (S.Instrument.room self.old.second means)) }
        ensures left { F.Instrument.held self.new.first + S.Instrument.held self.new.second ≡ funded (F.Instrument.held self.old.first + S.Instrument.held self.old.second) n (max (F.Instrument.room self.old.first means) (S.Instrument.room self.old.second means)) }
        ensures rooms { (m : Means) → max (F.Instrument.room self.new.first m) (S.Instrument.room self.new.second m) ≤ max (F.Instrument.room self.old.first m) (S.Instrument.room self.old.second m) }
        ensures refused { max (F.Instrument.room self.old.first means) (S.Instrument.room self.old.second means) < n → self.new ≡ self.old }
        ensures first { F.Instrument.held self.new.first ≡ funded (F.Instrument.held self.old.first) n (F.Instrument.room self.old.first means) }
        ensures second { S.Instrument.held self.new.second ≡ funded_second (S.Instrument.held self.old.second) n (F.Instrument.room self.old.first means) (S.Instrument.room self.old.second means) }
    {
        let room = self.first.room(means);
        if n <= room {
            return self.first.fund(means, n);
        }
        FundingRefused::unless_fits(means, n, room.max(self.second.room(means)))?;
        self.second.fund(means, n)
    }
}
