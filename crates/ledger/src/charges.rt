// Each Counter-Party's charge in a bill, by position.
ghost use Rattle.std.specs.Prelude.{◌≡◌, ℕ, ◌≤◌, length, slice_index};

mod calls;

// 0 past the last Counter-Party. No charge is above the largest amount.
#[derive(Clone, Copy, PartialEq)]
pub(crate) struct Charges {
    cents: [u64; 32],
    ghost laid: { length cents ≡ 32 },
    ghost small: { (k : ℕ) → slice_index cents k ≤ 4294967295 },
}
