// A day and a minute as they come from outside, of which not all are moments.

#[derive(Clone, Copy, PartialEq, Eq, Debug)]
pub struct Stamp {
    pub day: u16,
    pub minute: u16,
}
