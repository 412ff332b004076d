// A row of bytes from a first day on: four days a byte, two bits a day.
ghost use Rattle.std.specs.Prelude.{◌≡◌};
ghost use Rattle.calendar.specs.Calendars.{posted, day_bits};

use crate::meaning::Calendar;

#[derive(Clone, Copy)]
pub struct Posted<'a> {
    first: u16,
    row: &'a [u8],
}

impl<'a> Posted<'a> {
    pub fn new(first: u16, row: &'a [u8]) -> Posted<'a>
        ensures { posted result.first result.row.now ≡ posted first row.now }
    {
        Posted { first, row }
    }
}

// The two bits of a day, both 0 outside the row. Compared and then subtracted: with `checked_sub` a due day took 1.3
// to 1.7 times as long (docs/DESIGN-PASS.md).
fn day_bits(first: u16, row: &[u8], day: u16) -> u8
    ensures { result ≡ day_bits first row.now day }
{
    if day < first {
        return 0;
    }
    let place = day - first;
    let Some(byte) = row.get(usize::from(place / 4)) else {
        return 0;
    };
    (*byte >> (place % 4 * 2)) % 4
}

impl<'a> Calendar for Posted<'a> {
    ghost meaning = { λ p. posted p.first p.row.now };

    fn is_bank_business_day(&self, day: u16) -> bool {
        day_bits(self.first, self.row, day) % 2 == 1
    }

    fn is_business_day(&self, day: u16) -> bool {
        day_bits(self.first, self.row, day) / 2 == 1
    }
}
