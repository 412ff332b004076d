// The tables of Counter-Parties and participants, in memory that is taken once. A position never changes.
ghost use Rattle.std.specs.Prelude.{◌≡◌, ◌≤◌, vec_len, vec_capacity};

mod calls;
mod fault;

pub use fault::Fault;

// Numbers by position; `under` has the position of each participant's Counter-Party. Kept beside `participants`: a
// month's table reads positions alone, and pairs would be copied apart into a buffer at each bill.
#[derive(Drop, PartialEq)]
pub struct Registry {
    counter_parties: Vec<u16>,
    participants: Vec<u16>,
    under: Vec<usize>,
    ghost counter_parties_reserved: { 32 ≤ vec_capacity counter_parties },
    ghost participants_reserved: { 64 ≤ vec_capacity participants },
    ghost under_reserved: { 64 ≤ vec_capacity under },
    ghost counter_parties_few: { vec_len counter_parties ≤ 32 },
    ghost participants_few: { vec_len participants ≤ 64 },
    ghost level: { vec_len under ≡ vec_len participants },
}
