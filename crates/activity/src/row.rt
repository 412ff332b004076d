// The sixteen sums of one participant.
ghost use Rattle.std.specs.Prelude.{◌≡◌, map, length};
ghost use Rattle.activity.specs.Signs.{Signs, energy_signed, interval_signed};

mod place;
mod sums;

use crate::units::{KilowattHours, KilowattQuarterHours};

// Thirteen in kWh and three in kW over 15 minutes; only those of determinants 3 and 4 may be below 0.
#[derive(Clone, Copy, PartialEq)]
pub struct Row {
    energy: [KilowattHours; 13],
    intervals: [KilowattQuarterHours; 3],
    ghost thirteen: { length energy ≡ 13 },
    ghost three: { length intervals ≡ 3 },
    ghost energy_signs: { Signs energy_signed (map (λ e. e.sum) energy) },
    ghost interval_signs: { Signs interval_signed (map (λ i. i.sum) intervals) },
}
