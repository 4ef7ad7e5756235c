// Where in a trace a thread's step uses an event.
ghost use Rattle.std.specs.Prelude.{◌<◌, ◌≤◌};

// A thread, and the place of the sequence of its object.
#[derive(Clone, Copy)]
pub(crate) struct Spot {
    pub(crate) thread: u8,
    pub(crate) place: usize,
    ghost first: { 1 ≤ thread },
    ghost last: { thread ≤ 8 },
    ghost inside: { place < 32 },
}
