// Registering, enrolling and looking up.
ghost use Rattle.std.specs.Prelude.{◌≡◌, ◌≤◌, length, IfOk};
ghost use Rattle.std.specs.Option.{option_map};
ghost use Rattle.foundation.specs.Limits.{most_counter_parties};
ghost use Rattle.foundation.specs.Questions.{after};
ghost use Rattle.activity.specs.Positions.{index_of};
ghost use Rattle.ledger.specs.Enrolment.{register_answer, registered, enrol_answer, enrolled};
ghost use Rattle.ledger.specs.Registries.{register_of, nobody, place_of};

use super::{Fault, Registry};
use activity::Position;
use foundation::{MOST_COUNTER_PARTIES, MOST_PARTICIPANTS};
use std::alloc::{AllocError, Global};

// The position of a number in a table.
fn place_of(table: &[u16], number: u16) -> Option<usize>
    ensures { result ≡ place_of table.now number }
{
    table.iter().position(|known| *known == number)
}

impl Registry {
    pub(crate) fn new(heap: Global) -> Result<Registry, AllocError>
        ensures { IfOk result (λ g. register_of g ≡ nobody) }
    {
        let counter_parties = Vec::with_capacity(heap, MOST_COUNTER_PARTIES)?;
        let participants = Vec::with_capacity(heap, MOST_PARTICIPANTS)?;
        let under = Vec::with_capacity(heap, MOST_PARTICIPANTS)?;
        Ok(Registry {
            counter_parties,
            participants,
            under,
        })
    }

    // The Counter-Parties' numbers in order of registration.
    pub(crate) fn counter_parties(&self) -> &[u16]
        ensures numbers { result.now ≡ (register_of self.now).parties }
        ensures few { length result.now ≤ most_counter_parties }
    {
        self.counter_parties.as_slice()
    }

    // The position of each participant's Counter-Party, in order of enrolment.
    pub(crate) fn under(&self) -> &[usize]
        ensures { result.now ≡ (register_of self.now).under }
    {
        self.under.as_slice()
    }

    // The position of a Counter-Party.
    pub(crate) fn position_of(&self, counter_party: u16) -> Option<usize>
        ensures { result ≡ place_of (register_of self.now).parties counter_party }
    {
        place_of(self.counter_parties.as_slice(), counter_party)
    }

    // The position of a participant.
    pub(crate) fn participant(&self, number: u16) -> Option<Position>
        ensures { option_map index_of result ≡ place_of (register_of self.now).participants number }
    {
        let place = place_of(self.participants.as_slice(), number)?;
        Position::new(place)
    }

    pub(crate) fn register(&mut self, counter_party: u16) -> Result<(), Fault>
        ensures answer { result ≡ register_answer (register_of self.old) counter_party }
        ensures register { register_of self.new ≡ after result (registered (register_of self.old) counter_party) (register_of self.old) }
    {
        if counter_party == 0 {
            return Err(Fault::Zero);
        }
        if self.position_of(counter_party).is_some() {
            return Err(Fault::Known);
        }
        if self.counter_parties.len() >= MOST_COUNTER_PARTIES {
            return Err(Fault::Full);
        }
        self.counter_parties.push_reserved(counter_party);
        Ok(())
    }

    pub(crate) fn enrol(&mut self, participant: u16, counter_party: u16) -> Result<(), Fault>
        ensures answer { result ≡ enrol_answer (register_of self.old) participant counter_party }
        ensures register { register_of self.new ≡ after result (enrolled (register_of self.old) participant counter_party) (register_of self.old) }
    {
        if participant == 0 {
            return Err(Fault::Zero);
        }
        if self.participant(participant).is_some() {
            return Err(Fault::Known);
        }
        let position = self.position_of(counter_party).ok_or(Fault::CounterParty)?;
        if self.participants.len() >= MOST_PARTICIPANTS {
            return Err(Fault::Full);
        }
        self.participants.push_reserved(participant);
        self.under.push_reserved(position);
        Ok(())
    }
}
