// Sums of kWh, sums of kW over 15 minutes, and the quarters of a kWh that both are turned into.
ghost use Rattle.std.specs.Prelude.{◌≤◌, unsigned_abs};

mod calls;

// A sum of a unit that is so many quarters of a kWh.
#[derive(Clone, Copy, PartialEq)]
pub struct Sum<const QUARTERS: u8> {
    sum: i64,
    ghost within: { unsigned_abs sum ≤ 2000000000 },
}

pub(crate) type KilowattHours = Sum<4>;

// In kW over 15 minutes.
pub(crate) type KilowattQuarterHours = Sum<1>;

#[derive(Clone, Copy, PartialEq, Eq, PartialOrd, Ord)]
pub struct Quarters {
    count: i64,
}
