// A letter of credit: a face, and what was drawn of it.
ghost use Rattle.std.specs.Prelude.{◌≡◌, ◌+◌, ◌-◌, ◌<◌, ◌≤◌, min};
ghost use Rattle.security.specs.Funding.{fund_answer, funded};
ghost use Rattle.security.specs.Instruments.{letter_room};

use crate::instrument::Instrument;
use crate::means::{FundingRefused, Means};
use foundation::MOST_SECURITY;

// It holds what was not drawn yet.
#[derive(Clone, Copy, PartialEq)]
pub struct Letter {
    face: u64,
    drawn: u64,
    ghost within: { face ≤ 10000000000 },
    ghost covered: { drawn ≤ face },
}

impl Letter {
    pub fn new() -> Letter
        ensures face { result.face ≡ 0 }
        ensures drawn { result.drawn ≡ 0 }
    {
        Letter { face: 0, drawn: 0 }
    }
}

impl Instrument for Letter {
    ghost held = { λ l. l.face - l.drawn };

    ghost room = { λ l. letter_room l.face };

    fn held(&self) -> u64 {
        self.face - self.drawn
    }

    fn room(&self, means: Means) -> u64 {
        match means {
            Means::Cash => 0,
            Means::Letter => MOST_SECURITY - self.face,
        }
    }

    // The face stays, and so does the room. Clauses here, and at `fund`, stand in place of the trait's, so these stand
    // here too.
    fn draw(&mut self, n: u64) -> u64
        ensures paid { result ≡ min n (self.old.face - self.old.drawn) }
        ensures left { self.new.face - self.new.drawn ≡ self.old.face - self.old.drawn - n }
        ensures rooms { (m : Means) → letter_room self.old.face m ≤ letter_room self.new.face m }
        ensures face { self.new.face ≡ self.old.face }
        ensures drawn { self.new.drawn ≡ self.old.drawn + result }
    {
        let paid = n.min(self.face - self.drawn);
        self.drawn += paid;
        paid
    }

    // A funding raises the face.
    fn fund(&mut self, means: Means, n: u64) -> Result<(), FundingRefused>
        ensures answer { result ≡ fund_answer means n (letter_room self.old.face means) }
        ensures left { self.new.face - self.new.drawn ≡ funded (self.old.face - self.old.drawn) n (letter_room self.old.face means) }
        ensures rooms { (m : Means) → letter_room self.new.face m ≤ letter_room self.old.face m }
        ensures refused { letter_room self.old.face means < n → self.new ≡ self.old }
        ensures face { self.new.face ≡ funded self.old.face n (letter_room self.old.face means) }
        ensures drawn { self.new.drawn ≡ self.old.drawn }
    {
        FundingRefused::unless_fits(means, n, self.room(means))?;
        self.face += n;
        Ok(())
    }
}
