// What following a trace changes: the machine, and what is used of the trace.
use crate::used::Used;
use machine::Machine;

#[derive(Clone, Copy)]
pub(crate) struct Stage {
    pub(crate) machine: Machine,
    pub(crate) used: Used,
}
