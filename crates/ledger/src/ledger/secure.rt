// Funding, the past-due run and the report.
ghost use Rattle.std.specs.Prelude.{◌≡◌, ℕ, ◌+◌, ◌<◌, ◌≤◌, min, true, map, length, is_err, IfOk, ◌≢◌, slice_index, slice_index_or, slice_set};
ghost use Rattle.foundation.specs.Limits.{most_counter_parties};
ghost use Rattle.foundation.specs.Questions.{after};
ghost use Rattle.security.specs.Rows.{NoRoomFalls, NoRoomRises, OnlyAt};
ghost use Rattle.receivables.specs.Invoices.{is_past_due};
ghost use Rattle.receivables.specs.Laws.{Untouched, RunLaw};
ghost use Rattle.receivables.specs.Run.{helds};
ghost use Rattle.ledger.specs.Model.{model_of, at};
ghost use Rattle.ledger.specs.Secure.{row_of, no_security, place_funded, party_at, place_answer, fund_answer, funded, run_answer, ran, report_answer};

use super::Ledger;
use crate::answers::Report;
use crate::fault::Fault;
use crate::registry;
use calendar::Stamp;
use foundation::MOST_FUNDING;
use receivables::Outcome;
use security::{FundingRefused, Instrument, Means};

// Funds the instrument at a place of the row, and answers what it then holds.
fn fund_at<I: Instrument + Copy>(
    row: &mut [I],
    place: usize,
    means: Means,
    amount: u64,
) -> Result<u64, FundingRefused>
    requires within { place < length row.old }
    ensures answer { result ≡ place_funded (slice_index_or (row_of I.held I.room row.old) place no_security) means amount }
    ensures helds { map I.held row.new ≡ after result (slice_set (map I.held row.old) place (slice_index (map I.held row.old) place + amount)) (map I.held row.old) }
    ensures others { OnlyAt place row.old row.new }
    ensures rooms { NoRoomRises I.room row.old row.new }
    ensures refused { is_err result ≡ true → row.new ≡ row.old }
{
    let mut instrument = row[place];
    instrument.fund(means, amount)?;
    row[place] = instrument;
    Ok(instrument.held())
}

impl Ledger {
    // The place of a Counter-Party's security in a row of so many places.
    fn place_in(&self, places: usize, counter_party: u16) -> Result<usize, Fault>
        ensures answer { result ≡ place_answer (model_of self.now) places counter_party }
        ensures within { IfOk result (λ k. k < min places most_counter_parties) }
    {
        let place = self
            .registry
            .position_of(counter_party)
            .ok_or(registry::Fault::CounterParty)?;
        if places < self.registry.counter_parties().len() {
            return Err(Fault::Row);
        }
        Ok(place)
    }

    // Funds a Counter-Party's instrument, and answers what it then holds. The means is a number from outside,
    // taken as it comes: a rule of the project (docs/DECISIONS.md).
    pub fn fund<I: Instrument + Copy>(
        &self,
        row: &mut [I],
        counter_party: u16,
        means: u8,
        amount: u64,
    ) -> Result<u64, Fault>
        ensures answer { result ≡ fund_answer (model_of self.now) (row_of I.held I.room row.old) counter_party means amount }
        ensures helds { map I.held row.new ≡ after result (funded (model_of self.now) (map I.held row.old) counter_party amount) (map I.held row.old) }
        ensures others { OnlyAt (party_at (model_of self.now) counter_party) row.old row.new }
        ensures rooms { NoRoomRises I.room row.old row.new }
        ensures refused { is_err result ≡ true → row.new ≡ row.old }
    {
        let place = self.place_in(row.len(), counter_party)?;
        let means = Means::try_from(means)?;
        if amount < 1 || amount > MOST_FUNDING {
            return Err(Fault::Funding);
        }
        let held = fund_at(row, place, means, amount)?;
        Ok(held)
    }

    // What a Counter-Party owes, its exposure, what it holds, and what the exposure is above that.
    pub fn report<I: Instrument>(&self, row: &[I], counter_party: u16) -> Result<Report, Fault>
        ensures { result ≡ report_answer (model_of self.now) (map I.held row.now) counter_party }
    {
        let place = self.place_in(row.len(), counter_party)?;
        let exposure = 2 * self.charges.at(place);
        let held = row[place].held();
        Ok(Report {
            owed: self.receivables.owed_by(counter_party),
            exposure,
            held,
            uncovered: exposure.saturating_sub(held),
        })
    }

    // Draws for each past-due invoice by rising number on the instrument at its Counter-Party's position.
    pub fn past_due<I: Instrument + Copy>(
        &mut self,
        stamp: Stamp,
        row: &mut [I],
    ) -> Result<Outcome, Fault>
        ensures answer { result ≡ run_answer (model_of self.old) (map I.held row.old) stamp.day stamp.minute }
        ensures model { model_of self.new ≡ after result (ran (model_of self.old) (map I.held row.old) stamp.day stamp.minute) (model_of self.old) }
        ensures helds { map I.held row.new ≡ after result (helds (is_past_due (at stamp.day stamp.minute)) (model_of self.old).book.invoices (map I.held row.old)) (map I.held row.old) }
        ensures others { (j : ℕ) (d : I) → Untouched (is_past_due (at stamp.day stamp.minute)) j (model_of self.old).book.invoices → slice_index_or row.new j d ≡ slice_index_or row.old j d }
        ensures rooms { NoRoomFalls I.room row.old row.new }
        ensures refused { is_err result ≡ true → row.new ≡ row.old }
        ensures law { IfOk result (λ o. RunLaw (is_past_due (at stamp.day stamp.minute)) (model_of self.old).book.invoices (map I.held row.old) (model_of self.new).book.invoices (map I.held row.new) o) }
    {
        let at = self.moment(stamp)?;
        if row.len() < self.registry.counter_parties().len() {
            return Err(Fault::Row);
        }
        let outcome = self.receivables.past_due(at, row);
        self.moment = Some(at);
        Ok(outcome)
    }
}
