// The machine: threads over shared variables, semaphores and locks.
#![tactic(auto)]

pub mod action;
pub mod state;
pub mod step;

// An operation on a semaphore or a lock.
#[derive(Clone, Copy, PartialEq, Eq, Debug)]
pub enum Operation {
    P,
    V,
    Lock,
    Unlock,
}

// A thread: its registers, the place at which it stands, and how many steps it has made.
#[derive(Clone, Copy, PartialEq, Eq, Debug)]
pub struct Thread {
    pub registers: [u32; 4],
    pub place: u16,
    pub count: u16,
}

// What a variable holds: its value, how often it was written, and the reads made of this version.
#[derive(Clone, Copy, PartialEq, Eq, Debug)]
pub struct Item {
    pub value: u32,
    pub version: u16,
    pub made: u16,
}

// The machine: threads from 1 on, and the objects of each kind from 0 on. A free lock's holder is 0, since in the rules
// the value of every object is a number. It does not hold its program, so that it can be copied and compared alone.
#[derive(Clone, Copy, PartialEq, Eq, Debug)]
pub struct Machine {
    threads: [Thread; 8],
    variables: [Item; 16],
    semaphores: [u8; 8],
    holders: [u8; 8],
}
