// A month's two states. Each is moved, not copied: a month that is closed collects no more.
ghost use Rattle.std.specs.Prelude.{◌≡◌};
ghost use Rattle.activity.specs.Months.{collecting_month, closed_month};

// Its records are still posted.
#[derive(Drop)]
pub struct Collecting {
    pub(crate) month: u16,
}

// It may be billed.
#[derive(Drop)]
pub struct Closed {
    pub(crate) month: u16,
}

impl Collecting {
    pub fn close(self) -> Closed
        ensures { closed_month result ≡ collecting_month self }
    {
        Closed { month: self.month }
    }
}

impl Closed {
    pub fn month(&self) -> u16
        ensures { result ≡ closed_month self.now }
    {
        self.month
    }
}
