// A month's amount in cents: 1 to 1,000,000,000.
ghost use Rattle.std.specs.Prelude.{◌≤◌};

mod calls;

#[derive(Clone, Copy)]
pub struct Amount {
    cents: u64,
    ghost some: { 1 ≤ cents },
    ghost fits: { cents ≤ 1000000000 },
}
