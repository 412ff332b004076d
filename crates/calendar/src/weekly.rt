// Monday to Friday, less listed days.
ghost use Rattle.std.specs.Prelude.{◌≡◌, take};
ghost use Rattle.calendar.specs.Calendars.{weekly, monday_to_friday};
ghost use Rattle.calendar.specs.Weeklies.{meaning_of};

mod listed;

use crate::meaning::Calendar;
use listed::Listed;

#[derive(Clone, Copy)]
pub struct Weekly {
    no_bank_days: Listed,
    no_business_days: Listed,
}

impl Weekly {
    // Of a longer list only the first 16 days count.
    pub fn new(no_bank_days: &[u16], no_business_days: &[u16]) -> Weekly
        ensures { meaning_of result ≡ weekly (take 16 no_bank_days.now) (take 16 no_business_days.now) }
    {
        Weekly {
            no_bank_days: Listed::new(no_bank_days),
            no_business_days: Listed::new(no_business_days),
        }
    }
}

// Day 0 is a Wednesday, so two days more count from a Monday.
fn is_monday_to_friday(day: u16) -> bool
    ensures { result ≡ monday_to_friday day }
{
    (u32::from(day) + 2) % 7 < 5
}

impl Calendar for Weekly {
    ghost meaning = { meaning_of };

    fn is_bank_business_day(&self, day: u16) -> bool {
        is_monday_to_friday(day) && !self.no_bank_days.contains(day)
    }

    fn is_business_day(&self, day: u16) -> bool {
        is_monday_to_friday(day) && !self.no_business_days.contains(day)
    }
}
