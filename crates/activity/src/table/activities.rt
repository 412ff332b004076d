// What the Counter-Parties count. `parties` has the position of each participant's Counter-Party, in order of
// enrolment; it stays apart from the party that is asked for, since a struct of both would be made for one question.
ghost use Rattle.std.specs.Prelude.{◌≡◌, length, pos, ◌≢◌};
ghost use Rattle.foundation.specs.Questions.{after};
ghost use Rattle.records.specs.declared.determinant.Group.TheVariants.{Load};
ghost use Rattle.activity.specs.Activity.{is_under, group_value, group_values, largest, activity as quarters_of, activities as quarters_of_all};
ghost use Rattle.activity.specs.Counts.{Counts};
ghost use Rattle.activity.specs.Months.{closed_month};
ghost use Rattle.activity.specs.Tables.{meaning, activities_answer};
ghost use Rattle.activity.specs.Units.{quarters_in};

use super::Table;
use crate::month::Closed;
use crate::units::Quarters;
use records::{Fault, Group};

fn is_under(parties: &[usize], party: usize, k: usize) -> bool
    ensures { result ≡ is_under parties.now party k }
{
    parties.get(k) == Some(&party)
}

impl Table {
    // What a Counter-Party's participants count in a group; only group 2 can be below 0.
    pub fn group_value(&self, parties: &[usize], party: usize, group: Group) -> Quarters
        ensures { Counts (group_value (meaning self.now).rows parties.now party group) 2048000000000 (group ≢ Load) (quarters_in result) }
    {
        let mut sum = Quarters::zero();
        // A loop over the rows with their index: a rule of the project (docs/DECISIONS.md).
        for (k, row) in self.rows.iter().enumerate() {
            if is_under(parties, party, k) {
                sum = sum.plus(row.value(group));
            }
        }
        sum
    }

    // The largest of a Counter-Party's nine group values, which is not below 0, since only group 2 can be.
    pub fn activity(&self, parties: &[usize], party: usize) -> u64
        ensures value { result ≡ quarters_of (meaning self.now).rows parties.now party }
        ensures largest { pos result ≡ largest (group_values (meaning self.now).rows parties.now party) }
    {
        let mut top = Quarters::zero();
        for group in Group::ALL {
            top = top.max(self.group_value(parties, party, group));
        }
        top.count().unsigned_abs()
    }

    // Writes the activity of the Counter-Party at each place, if the table carries the month.
    pub fn activities(
        &self,
        month: &Closed,
        parties: &[usize],
        out: &mut [u64],
    ) -> Result<(), Fault>
        ensures answer { result ≡ activities_answer (meaning self.now) (closed_month month.now) }
        ensures activities { out.new ≡ after result (quarters_of_all (meaning self.now).rows parties.now (length out.old)) out.old }
    {
        if !self.carries(month.month) {
            return Err(Fault::Month);
        }
        for (i, activity) in out.iter_mut().enumerate() {
            *activity = self.activity(parties, i);
        }
        Ok(())
    }
}
