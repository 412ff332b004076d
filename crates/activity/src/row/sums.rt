// What a record adds to a row, and what the row counts.
ghost use Rattle.std.specs.Prelude.{◌≡◌, true, ◌≢◌};
ghost use Rattle.foundation.specs.Questions.{after};
ghost use Rattle.records.specs.declared.determinant.Determinant.TheVariants.{Mebl};
ghost use Rattle.records.specs.declared.determinant.Group.TheVariants.{Load, CongestionRights};
ghost use Rattle.activity.specs.Activity.{counted, row_value};
ghost use Rattle.activity.specs.Counts.{Counts};
ghost use Rattle.records.specs.Determinants.{facts};
ghost use Rattle.records.specs.Ruled.{sign_allowed};
ghost use Rattle.activity.specs.Rows.{sums_of};
ghost use Rattle.activity.specs.Sums.{no_sums, add_answer, added};
ghost use Rattle.activity.specs.Units.{quarters_in};

use super::Row;
use super::place::{Place, place_of};
use crate::units::{KilowattHours, KilowattQuarterHours, Quarters};
use records::{Determinant, Fault, Group};

impl Row {
    pub(crate) fn empty() -> Row
        ensures { sums_of result ≡ no_sums }
    {
        Row {
            energy: [KilowattHours::zero(); 13],
            intervals: [KilowattQuarterHours::zero(); 3],
        }
    }

    // Adds the quantity to the determinant's sum.
    pub(crate) fn add(&mut self, determinant: Determinant, quantity: i32) -> Result<(), Fault>
        requires { sign_allowed (facts determinant).number quantity ≡ true }
        ensures answer { result ≡ add_answer (sums_of self.old) determinant quantity }
        ensures sums { sums_of self.new ≡ after result (added (sums_of self.old) determinant quantity) (sums_of self.old) }
    {
        match place_of(determinant) {
            Place::Energy(k) => self.energy[k] = self.energy[k].plus(quantity)?,
            Place::Interval(k) => self.intervals[k] = self.intervals[k].plus(quantity)?,
        }
        Ok(())
    }

    // What the sum of a determinant counts: that of determinant 3 as the larger of 0 and itself, that of determinant 4 with its sign reversed.
    pub(crate) fn counted(&self, determinant: Determinant) -> Quarters
        ensures { Counts (counted (sums_of self.now) determinant) 8000000000 (determinant ≢ Mebl) (quarters_in result) }
    {
        match place_of(determinant) {
            Place::Interval(k) => self.intervals[k].quarters(),
            Place::Energy(k) => match determinant {
                Determinant::Rtamlexsecm => self.energy[k].clipped().quarters(),
                Determinant::Mebl => (-self.energy[k]).quarters(),
                _ => self.energy[k].quarters(),
            },
        }
    }

    // What the row counts in a group.
    pub(crate) fn value(&self, group: Group) -> Quarters
        ensures { Counts (row_value group (sums_of self.now)) 32000000000 (group ≢ Load) (quarters_in result) }
    {
        match group {
            Group::Generation => self
                .counted(Determinant::Rtmg)
                .plus(self.counted(Determinant::Rtdcimp)),
            Group::Load => self
                .counted(Determinant::Rtamlexsecm)
                .plus(self.counted(Determinant::Mebl)),
            Group::Sales => self.counted(Determinant::Rtqqes),
            Group::Purchases => self.counted(Determinant::Rtqqep),
            Group::DayAheadSales => self.counted(Determinant::Daes),
            Group::DayAheadPurchases => self.counted(Determinant::Daep),
            Group::RealTimeObligations => self
                .counted(Determinant::Rtobl)
                .plus(self.counted(Determinant::Rtobllo)),
            Group::CongestionRights => self.congestion_rights(),
            Group::CongestionRightPurchases => self
                .counted(Determinant::Optp)
                .plus(self.counted(Determinant::Oblp)),
        }
    }

    fn congestion_rights(&self) -> Quarters
        ensures { Counts (row_value CongestionRights (sums_of self.now)) 32000000000 (CongestionRights ≢ Load) (quarters_in result) }
    {
        let owned = self
            .counted(Determinant::Opt)
            .plus(self.counted(Determinant::Daobl));
        let sold = self
            .counted(Determinant::Opts)
            .plus(self.counted(Determinant::Obls));
        owned.plus(sold)
    }
}
