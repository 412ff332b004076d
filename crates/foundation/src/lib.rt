// What every layer stands on: the numbers that the rules fix, questions asked in order, sums over places.
#![tactic(auto)]

// Day 0 is Wednesday 1 January 2020, and this one 31 December 2099.
pub const LAST_DAY: u16 = 29_219;

// Minute 0 is midnight, and this one 23:59.
pub const LAST_MINUTE: u16 = 1_439;

// A ledger has at most this many Market Participants.
pub const MOST_PARTICIPANTS: usize = 64;

// A sum of a reference month stays within this on either side of 0, in thousandths of its unit.
pub const MOST_SUM: i64 = 2_000_000_000;

// A month's amount, in cents.
pub const MOST_AMOUNT: u64 = 1_000_000_000;

// All activities of a month together, in quarters of a kWh.
pub const MOST_ACTIVITY: u64 = 8_000_000_000;

// Cash, and the face of a letter of credit, in cents.
pub const MOST_SECURITY: u64 = 10_000_000_000;

// Where an instrument holds more cents, this is answered.
pub const MOST_HELD: u64 = 1_000_000_000_000_000;

// 17:00, until which an invoice may be paid on its due day.
pub const DUE_MINUTE: u16 = 1_020;

// A ledger has at most this many Counter-Parties.
pub const MOST_COUNTER_PARTIES: usize = 32;

// Month 0 is January 2020, and this one December 2099.
pub const LAST_MONTH: u16 = 959;

// One funding, in cents.
pub const MOST_FUNDING: u64 = 1_000_000_000;
