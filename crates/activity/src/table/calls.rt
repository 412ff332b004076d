// Opening a month and posting records to it.
ghost use Rattle.std.specs.Prelude.{◌≡◌, Some, None};
ghost use Rattle.std.specs.Option.{option_map};
ghost use Rattle.foundation.specs.Questions.{after};
ghost use Rattle.activity.specs.Positions.{index_of};
ghost use Rattle.activity.specs.Months.{collecting_month};
ghost use Rattle.activity.specs.Tables.{meaning, cleared, carries, post_answer, posted};

use super::Table;
use crate::month::Collecting;
use crate::position::Position;
use crate::row::Row;
use records::{Fault, Record, Ruling};

impl Table {
    // A new table carries no month.
    pub fn new() -> Table
        ensures { meaning result ≡ cleared None }
    {
        Table {
            month: None,
            rows: [Row::empty(); 64],
        }
    }

    // Clears the table for a month, and gives the month in its collecting state.
    pub fn open(&mut self, month: u16) -> Collecting
        ensures table { meaning self.new ≡ cleared (Some month) }
        ensures state { collecting_month result ≡ month }
    {
        self.month = Some(month);
        self.rows = [Row::empty(); 64];
        Collecting { month }
    }

    pub(crate) fn carries(&self, month: u16) -> bool
        ensures { result ≡ carries (meaning self.now) month }
    {
        self.month == Some(month)
    }

    // Adds a record of the participant at a position, if there is one; a record with mark 1 or 2 is accepted and not added.
    pub fn post(
        &mut self,
        state: &Collecting,
        participant: Option<Position>,
        record: Record,
    ) -> Result<Ruling, Fault>
        ensures answer { result ≡ post_answer (meaning self.old) (collecting_month state.now) (option_map index_of participant) «record».determinant «record».mark «record».quantity }
        ensures table { meaning self.new ≡ after result (posted (meaning self.old) (option_map index_of participant) «record».determinant «record».mark «record».quantity) (meaning self.old) }
    {
        if !self.carries(state.month) {
            return Err(Fault::Month);
        }
        let k = participant.ok_or(Fault::Participant)?.index();
        let ruling = record.ruled()?;
        if let Ruling::Counted(determinant) = ruling {
            // Added to a copy: the borrow checker doesn't build a call that writes to an element beside the table's ghost field.
            let mut row = self.rows[k];
            row.add(determinant, record.quantity)?;
            self.rows[k] = row;
        }
        Ok(ruling)
    }
}
