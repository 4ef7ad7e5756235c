// What a refusal says, in the same words for every layer.
#![tactic(auto)]

pub mod text;

// The layer that refuses.
#[derive(Clone, Copy, PartialEq, Eq, Debug)]
pub enum Layer {
    Store,
    File,
    Sequence,
    Machine,
    Replay,
}

// A shared object by its kind and number.
#[derive(Clone, Copy, PartialEq, Eq, Debug)]
pub enum Object {
    Variable(u8),
    Semaphore(u8),
    Lock(u8),
}

// The number and the parts of a refusal. Refusals are known by their numbers (docs/REFUSALS.md), which a rule of the
// project gives; each layer's faults are an enum.
#[derive(Clone, Copy, PartialEq, Eq, Debug)]
pub struct Refusal {
    pub number: u8,
    pub layer: Layer,
    pub thread: Option<u8>,
    pub place: Option<usize>,
    pub object: Option<Object>,
}
