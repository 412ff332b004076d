// What a bill and a report answer.

// How many invoices were issued, the number of the first, and the day they are due.
#[derive(Clone, Copy, PartialEq, Eq, Debug)]
pub struct Billed {
    pub count: usize,
    pub first: u32,
    pub due_day: u16,
}

// Balances owed, exposure, cents held, and what the exposure is above them.
#[derive(Clone, Copy, PartialEq, Eq, Debug)]
pub struct Report {
    pub owed: u64,
    pub exposure: u64,
    pub held: u64,
    pub uncovered: u64,
}
