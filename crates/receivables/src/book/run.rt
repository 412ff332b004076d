// The past-due run.
ghost use Rattle.std.specs.Prelude.{◌≡◌, ℕ, map, slice_index_or};
ghost use Rattle.calendar.specs.Moments.{when};
ghost use Rattle.security.specs.Rows.{NoRoomFalls};
ghost use Rattle.receivables.specs.Books.{book_of};
ghost use Rattle.receivables.specs.Invoices.{is_past_due};
ghost use Rattle.receivables.specs.Laws.{Untouched, RunLaw};
ghost use Rattle.receivables.specs.Run.{helds, outcome, after_run};

use super::Receivables;
use super::calls::sweep;
use crate::draws::{Outcome, draw_all};
use calendar::Moment;
use security::Instrument;

impl<const PLACES: usize> Receivables<PLACES> {
    // Draws for each past-due invoice by rising number on the instrument at its position of the row.
    pub fn past_due<I: Instrument + Copy>(&mut self, at: Moment, row: &mut [I]) -> Outcome
        ensures outcome { result ≡ outcome (is_past_due (when at)) (book_of self.old).invoices (map I.held row.old) }
        ensures book { book_of self.new ≡ after_run (is_past_due (when at)) (book_of self.old) (map I.held row.old) }
        ensures helds { map I.held row.new ≡ helds (is_past_due (when at)) (book_of self.old).invoices (map I.held row.old) }
        ensures others { (j : ℕ) (d : I) → Untouched (is_past_due (when at)) j (book_of self.old).invoices → slice_index_or row.new j d ≡ slice_index_or row.old j d }
        ensures rooms { NoRoomFalls I.room row.old row.new }
        ensures law { RunLaw (is_past_due (when at)) (book_of self.old).invoices (map I.held row.old) (book_of self.new).invoices (map I.held row.new) result }
    {
        let outcome = draw_all(self.list.as_mut_slice(), at, row);
        sweep(&mut self.list);
        outcome
    }
}
