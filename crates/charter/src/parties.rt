// The Counter-Parties, how they pay, and what security they post.

use std::fmt;

// What a Counter-Party pays of its invoices.
#[derive(Clone, Copy)]
pub(crate) enum Habit {
    InFull,
    TwoThirds,
    // Nothing in each third month, and all in the others.
    TwoMonthsOfThree,
    // All, but days after the due day.
    Late,
    Half,
}

// It is registered from the month `since` on, and each January posts cents in cash and by letter of credit.
#[derive(Clone, Copy)]
pub(crate) struct CounterParty {
    pub(crate) number: u16,
    pub(crate) since: u16,
    pub(crate) habit: Habit,
    pub(crate) cash: u64,
    pub(crate) letter: u64,
}

pub(crate) const PARTIES: usize = 5;

// January 2030, the first month of the eleventh year.
pub(crate) const NEWCOMER_SINCE: u16 = 120;

// In order of registration. The first posts letters until there is no more room, the newcomer posts too little.
pub(crate) const COUNTER_PARTIES: [CounterParty; PARTIES] = [
    CounterParty {
        number: 7,
        since: 0,
        habit: Habit::InFull,
        cash: 0,
        letter: 1_000_000_000,
    },
    CounterParty {
        number: 12,
        since: 0,
        habit: Habit::TwoThirds,
        cash: 250_000_000,
        letter: 0,
    },
    CounterParty {
        number: 19,
        since: 0,
        habit: Habit::TwoMonthsOfThree,
        cash: 100_000_000,
        letter: 150_000_000,
    },
    CounterParty {
        number: 23,
        since: 0,
        habit: Habit::Late,
        cash: 0,
        letter: 0,
    },
    CounterParty {
        number: 31,
        since: NEWCOMER_SINCE,
        habit: Habit::Half,
        cash: 0,
        letter: 195_000_000,
    },
];

// Of each participant, in order of enrolment, the place of its Counter-Party.
pub(crate) const UNDER: [usize; 7] = [0, 0, 1, 2, 3, 4, 4];

// The participants are numbered from this on.
pub(crate) const FIRST_PARTICIPANT: u16 = 101;

impl fmt::Display for Habit {
    fn fmt<W: fmt::Write>(&self, f: &mut fmt::Formatter<W>) -> fmt::Result {
        f.write_str(match self {
            Habit::InFull => "pays in full",
            Habit::TwoThirds => "pays two thirds",
            Habit::TwoMonthsOfThree => "pays two months of three",
            Habit::Late => "pays late",
            Habit::Half => "pays half",
        })
    }
}

impl CounterParty {
    pub(crate) fn is_registered(self, month: u16) -> bool {
        self.since <= month
    }

    // What it pays in time of a charge.
    pub(crate) fn pays_in_time(self, month: u16, charge: u64) -> u64 {
        match self.habit {
            Habit::InFull => charge,
            Habit::TwoThirds => charge - charge / 3,
            Habit::TwoMonthsOfThree if month % 3 < 2 => charge,
            Habit::TwoMonthsOfThree | Habit::Late => 0,
            Habit::Half => charge / 2,
        }
    }

    // What it pays after the due day.
    pub(crate) fn pays_late(self, charge: u64) -> u64 {
        match self.habit {
            Habit::Late => charge,
            Habit::InFull | Habit::TwoThirds | Habit::TwoMonthsOfThree | Habit::Half => 0,
        }
    }
}
