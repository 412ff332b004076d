// The due day of an invoice.
ghost use Rattle.std.specs.Prelude.{◌≡◌};
ghost use Rattle.calendar.specs.Due.{due_day_of, DueAnswer};

use crate::meaning::Calendar;
use foundation::LAST_DAY;

// The Bank Business Day after the invoice day on which an invoice falls due.
const FIFTH: u16 = 5;

// The due day lies at most this many days after the invoice day.
const MOST_DAYS: u16 = 30;

// The fifth Bank Business Day after the invoice day; if that is no Business Day, the next later day that is both.
pub fn due_day<C: Calendar>(calendar: &C, invoice_day: u16) -> Option<u16>
    ensures rule { result ≡ due_day_of (C.meaning calendar.now) invoice_day }
    ensures law { DueAnswer (C.meaning calendar.now) invoice_day result }
{
    let span = LAST_DAY.saturating_sub(invoice_day).min(MOST_DAYS);
    let mut bank_days: u16 = 0;
    // Kept as a loop: a chain over the days took 1.9 times as long where no day is listed (docs/DESIGN-PASS.md).
    for after in 0..span {
        let day = invoice_day + after + 1;
        if calendar.is_bank_business_day(day) {
            bank_days += 1;
            if bank_days >= FIFTH && calendar.is_business_day(day) {
                return Some(day);
            }
        }
    }
    None
}
