// How many digits an invoice number may have.
ghost use Rattle.std.specs.Prelude.{◌≤◌};

mod calls;

#[derive(Clone, Copy)]
pub struct Digits {
    most: usize,
    ghost fits: { most ≤ 9 },
}
