// An invoice, and what a payment, a draw or the passing of its due day does to it.
ghost use Rattle.std.specs.Prelude.{◌≡◌, Some};
ghost use Rattle.calendar.specs.Moments.{when};
ghost use Rattle.receivables.specs.Invoices.{told, is_settled, is_past_due, state_name};

use calendar::Moment;
use foundation::DUE_MINUTE;
use std::fmt;

#[derive(Clone, Copy, PartialEq, Eq, Debug)]
pub enum State {
    Open,
    Short,
    Settled,
}

impl fmt::Display for State {
    ghost output = { λ state. Some (state_name state) };

    fn fmt<W: fmt::Write>(&self, f: &mut fmt::Formatter<W>) -> fmt::Result {
        f.write_str(match self {
            State::Open => "open",
            State::Short => "short",
            State::Settled => "settled",
        })
    }
}

#[derive(Clone, Copy)]
pub enum Event {
    Payment(u64),
    Draw(u64),
    PastDue,
}

#[derive(Clone, Copy, PartialEq)]
pub struct Invoice {
    pub number: u32,
    pub billed: u16,
    pub position: usize,
    pub balance: u64,
    pub due_day: u16,
    pub state: State,
}

impl Invoice {
    // A payment or a draw lowers the balance, and settles the invoice at 0; a past-due event makes it short.
    pub fn tell(&mut self, event: Event)
        ensures { self.new ≡ told self.old event }
    {
        match (self.state, event) {
            (State::Settled, _) => {}
            (State::Open | State::Short, Event::Payment(n) | Event::Draw(n)) => {
                if n < self.balance {
                    self.balance -= n;
                } else {
                    self.balance = 0;
                    self.state = State::Settled;
                }
            }
            (State::Open | State::Short, Event::PastDue) => self.state = State::Short,
        }
    }

    pub fn is_settled(&self) -> bool
        ensures { result ≡ is_settled self.now.state }
    {
        self.state == State::Settled
    }

    // 17:00 of the due day itself is not past due.
    pub fn is_past_due(&self, at: Moment) -> bool
        ensures { result ≡ is_past_due (when at) self.now }
    {
        (self.due_day, DUE_MINUTE) < (at.day(), at.minute())
    }
}
