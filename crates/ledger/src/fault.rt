// Why a call is refused: the ledger's own reasons, and those of its parts.
ghost use Rattle.std.specs.Prelude.{◌≡◌};
ghost use Rattle.ledger.specs.Faults.{number as number_of};
ghost use Rattle.ledger.specs.Refusals.{refusal, named};
ghost use Rattle.ledger.specs.declared.fault.Fault.TheVariants as fault;

use security::{FundingRefused, UnknownMeans};

#[derive(Clone, Copy, PartialEq, Eq, Debug)]
pub enum Fault {
    NoMoment,
    Before,
    Registry(crate::registry::Fault),
    Record(records::Fault),
    Split(split::Fault),
    Month,
    DueDay,
    Receivable(receivables::Fault),
    Remark,
    Row,
    Means,
    Funding,
    Room(FundingRefused),
}

impl Fault {
    pub fn number(self) -> u8
        ensures { result ≡ number_of self }
    {
        // A match: variants that hold a part's refusal have no discriminant.
        match self {
            Fault::NoMoment => 6,
            Fault::Before => 7,
            Fault::Registry(fault) => fault.number(),
            Fault::Record(fault) => fault.number(),
            Fault::Split(fault) => fault.number(),
            Fault::Month => 19,
            Fault::DueDay => 22,
            Fault::Receivable(fault) => fault.number(),
            Fault::Remark => 24,
            Fault::Row => 28,
            Fault::Means => 29,
            Fault::Funding => 30,
            Fault::Room(_) => 31,
        }
    }

    // The instrument's own refusal, with the means, the amount and the room that it names.
    pub fn instrument(self) -> Option<FundingRefused>
        ensures { named result ≡ (refusal self).values }
    {
        match self {
            Fault::Room(refused) => Some(refused),
            _ => None,
        }
    }
}

impl From<crate::registry::Fault> for Fault {
    ghost from_gives = { λ e f. f ≡ fault.Registry e };

    fn from(value: crate::registry::Fault) -> Fault {
        Fault::Registry(value)
    }
}

impl From<records::Fault> for Fault {
    ghost from_gives = { λ e f. f ≡ fault.Record e };

    fn from(value: records::Fault) -> Fault {
        Fault::Record(value)
    }
}

impl From<split::Fault> for Fault {
    ghost from_gives = { λ e f. f ≡ fault.Split e };

    fn from(value: split::Fault) -> Fault {
        Fault::Split(value)
    }
}

impl From<receivables::Fault> for Fault {
    ghost from_gives = { λ e f. f ≡ fault.Receivable e };

    fn from(value: receivables::Fault) -> Fault {
        Fault::Receivable(value)
    }
}

impl From<FundingRefused> for Fault {
    ghost from_gives = { λ e f. f ≡ fault.Room e };

    fn from(value: FundingRefused) -> Fault {
        Fault::Room(value)
    }
}

impl From<UnknownMeans> for Fault {
    ghost from_gives = { λ e f. f ≡ fault.Means };

    fn from(_: UnknownMeans) -> Fault {
        Fault::Means
    }
}
