// The charter's calls as plain data. What a call is lent is named by its place.
use crate::parties::{COUNTER_PARTIES, FIRST_PARTICIPANT, UNDER};
use calendar::Stamp;
use security::Means;
use std::alloc::{AllocError, Global};

// A bill is lent its month's table, a payment the remark with its invoice's number, or one that has none.
#[derive(Clone, Copy)]
pub(crate) enum Step {
    Register {
        counter_party: u16,
    },
    Enrol {
        participant: u16,
        counter_party: u16,
    },
    Bill {
        month: u16,
        cents: u64,
        stamp: Stamp,
    },
    Pay {
        counter_party: u16,
        invoice: Option<usize>,
        cents: u64,
        stamp: Stamp,
    },
    Fund {
        counter_party: u16,
        means: Means,
        cents: u64,
    },
    PastDue {
        stamp: Stamp,
    },
    Report {
        counter_party: u16,
    },
}

impl Step {
    // Whether it is a step of the Counter-Party, or of all of them.
    pub(crate) fn concerns(self, number: u16) -> bool {
        match self {
            Step::Register { counter_party }
            | Step::Enrol { counter_party, .. }
            | Step::Pay { counter_party, .. }
            | Step::Fund { counter_party, .. }
            | Step::Report { counter_party } => counter_party == number,
            Step::Bill { .. } | Step::PastDue { .. } => true,
        }
    }

    // The cents that it bills, pays or funds.
    pub(crate) fn cents(self) -> u64 {
        match self {
            Step::Bill { cents, .. } | Step::Pay { cents, .. } | Step::Fund { cents, .. } => cents,
            Step::Register { .. }
            | Step::Enrol { .. }
            | Step::PastDue { .. }
            | Step::Report { .. } => 0,
        }
    }

    // Whether it is a payment after a day.
    pub(crate) fn is_paid_after(self, due_day: u16) -> bool {
        matches!(self, Step::Pay { stamp, .. } if stamp.day > due_day)
    }
}

// A step, and the year of the month that it belongs to, 0 for the first.
#[derive(Clone, Copy)]
pub(crate) struct Planned {
    pub(crate) year: u16,
    pub(crate) step: Step,
}

// The steps in their order, and how many invoices their bills are expected to issue.
#[derive(Drop)]
pub(crate) struct Plan {
    pub(crate) steps: Vec<Planned>,
    pub(crate) invoices: usize,
}

impl Plan {
    pub(crate) fn new(heap: Global) -> Plan {
        Plan {
            steps: Vec::new(heap),
            invoices: 0,
        }
    }

    pub(crate) fn add(&mut self, month: u16, step: Step) -> Result<(), AllocError> {
        let year = month / 12;
        self.steps.push(Planned { year, step })?;
        Ok(())
    }

    // Registers those who come with the month.
    pub(crate) fn add_registrations(&mut self, month: u16) -> Result<(), AllocError> {
        for party in COUNTER_PARTIES.iter().filter(|party| party.since == month) {
            let counter_party = party.number;
            self.add(month, Step::Register { counter_party })?;
        }
        Ok(())
    }

    // Enrols the participants of those who come with the month.
    pub(crate) fn add_enrolments(&mut self, month: u16) -> Result<(), AllocError> {
        for (place, participant) in UNDER.iter().zip(FIRST_PARTICIPANT..=u16::MAX) {
            if let Some(party) = COUNTER_PARTIES.get(*place)
                && party.since == month
            {
                let counter_party = party.number;
                let step = Step::Enrol {
                    participant,
                    counter_party,
                };
                self.add(month, step)?;
            }
        }
        Ok(())
    }

    // A report of everyone who is registered.
    pub(crate) fn add_reports(&mut self, month: u16) -> Result<(), AllocError> {
        for party in COUNTER_PARTIES
            .iter()
            .filter(|party| party.is_registered(month))
        {
            let counter_party = party.number;
            self.add(month, Step::Report { counter_party })?;
        }
        Ok(())
    }

    fn add_funding(
        &mut self,
        month: u16,
        counter_party: u16,
        means: Means,
        cents: u64,
    ) -> Result<(), AllocError> {
        if cents == 0 {
            return Ok(());
        }
        let step = Step::Fund {
            counter_party,
            means,
            cents,
        };
        self.add(month, step)
    }

    // What everyone posts in a January.
    pub(crate) fn add_fundings(&mut self, month: u16) -> Result<(), AllocError> {
        for party in COUNTER_PARTIES
            .iter()
            .filter(|party| party.is_registered(month))
        {
            self.add_funding(month, party.number, Means::Cash, party.cash)?;
            self.add_funding(month, party.number, Means::Letter, party.letter)?;
        }
        Ok(())
    }
}
