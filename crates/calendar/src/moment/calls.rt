// Making moments and comparing them.
ghost use Rattle.std.specs.Prelude.{◌≡◌, if◌then◌else◌, Some, None};
ghost use Rattle.std.specs.Option.{option_map};
ghost use Rattle.calendar.specs.Moments.{when, is_moment, before};

use super::Moment;
use foundation::{LAST_DAY, LAST_MINUTE};

impl Moment {
    // None where there is no such day or no such minute.
    pub fn new(day: u16, minute: u16) -> Option<Moment>
        ensures { option_map when result ≡ (if is_moment day minute then Some (record { day = day; minute = minute }) else None) }
    {
        if day <= LAST_DAY && minute <= LAST_MINUTE {
            Some(Moment { day, minute })
        } else {
            None
        }
    }

    pub fn day(self) -> u16
        ensures { result ≡ (when self).day }
    {
        self.day
    }

    pub fn minute(self) -> u16
        ensures { result ≡ (when self).minute }
    {
        self.minute
    }

    pub fn is_before(self, other: Moment) -> bool
        ensures { result ≡ before (when self) (when other) }
    {
        self < other
    }
}
