// What a bill charges, and what it issued.

// The number of the party that is billed, the position of the instrument that stands for it, and the cents.
#[derive(Clone, Copy, PartialEq, Eq, Debug)]
pub struct Charge {
    pub billed: u16,
    pub position: usize,
    pub cents: u32,
}

// How many invoices were issued, and the number of the first.
#[derive(Clone, Copy, PartialEq, Eq, Debug)]
pub struct Issued {
    pub count: usize,
    pub first: u32,
}
