// What every calendar says.
ghost use Rattle.std.specs.Prelude.{◌≡◌};
ghost use Rattle.calendar.specs.Meaning.{CalendarMeaning};

// Asking changes nothing, and the same day always gets the same answer.
pub trait Calendar {
    ghost meaning: { Self → CalendarMeaning };

    fn is_bank_business_day(&self, day: u16) -> bool
        ensures { result ≡ (meaning self.now).bank day };

    fn is_business_day(&self, day: u16) -> bool
        ensures { result ≡ (meaning self.now).business day };
}
