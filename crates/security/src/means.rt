// By what an instrument is funded, and how a funding is refused.
ghost use Rattle.std.specs.Prelude.{◌≡◌, Some};
ghost use Rattle.security.specs.Funding.{NumbersMeans, fund_answer, means_name, means_number, refusal_text, unknown_text};

use std::error::Error;
use std::fmt;

#[derive(Clone, Copy, PartialEq, Eq, Debug)]
pub enum Means {
    Cash = 1,
    Letter = 2,
}

impl Means {
    pub fn number(self) -> u8
        ensures { result ≡ means_number self }
    {
        self as u8
    }
}

// A number that is no means'.
#[derive(Clone, Copy, PartialEq, Eq, Debug)]
pub struct UnknownMeans(pub u8);

impl TryFrom<u8> for Means {
    type Error = UnknownMeans;

    ghost try_from_gives = { NumbersMeans };

    fn try_from(number: u8) -> Result<Means, UnknownMeans> {
        match number {
            1 => Ok(Means::Cash),
            2 => Ok(Means::Letter),
            _ => Err(UnknownMeans(number)),
        }
    }
}

impl fmt::Display for Means {
    ghost output = { λ means. Some (means_name means) };

    fn fmt<W: fmt::Write>(&self, f: &mut fmt::Formatter<W>) -> fmt::Result {
        f.write_str(match self {
            Means::Cash => "cash",
            Means::Letter => "a letter of credit",
        })
    }
}

impl fmt::Display for UnknownMeans {
    ghost output = { λ e. Some (unknown_text e.0) };

    fn fmt<W: fmt::Write>(&self, f: &mut fmt::Formatter<W>) -> fmt::Result {
        write!(f, "no means of funding has number {}", self.0)
    }
}

impl Error for UnknownMeans {}

// A funding above the room.
#[derive(Clone, Copy, PartialEq, Eq, Debug)]
pub struct FundingRefused {
    pub means: Means,
    pub amount: u64,
    pub room: u64,
}

impl FundingRefused {
    pub(crate) fn unless_fits(means: Means, amount: u64, room: u64) -> Result<(), FundingRefused>
        ensures { result ≡ fund_answer means amount room }
    {
        if amount > room {
            return Err(FundingRefused {
                means,
                amount,
                room,
            });
        }
        Ok(())
    }
}

impl fmt::Display for FundingRefused {
    ghost output = { λ r. Some (refusal_text r) };

    fn fmt<W: fmt::Write>(&self, f: &mut fmt::Formatter<W>) -> fmt::Result {
        write!(
            f,
            "a funding of {} cents by {} is above the room of {}",
            self.amount, self.means, self.room
        )
    }
}

impl Error for FundingRefused {}
