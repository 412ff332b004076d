// A Market Participant by its place in the order of enrolment.
ghost use Rattle.std.specs.Prelude.{◌<◌};

mod calls;

#[derive(Clone, Copy)]
pub struct Position {
    index: usize,
    ghost within: { index < 64 },
}
