// A day and a minute of it.
ghost use Rattle.std.specs.Prelude.{◌≤◌};

mod calls;

#[derive(Clone, Copy, PartialEq, Eq, PartialOrd, Ord)]
pub struct Moment {
    day: u16,
    minute: u16,
    ghost in_calendar: { day ≤ 29219 },
    ghost in_day: { minute ≤ 1439 },
}
