// Programs: the instructions of one to eight threads, and the semaphores' starts and limits.
#![tactic(auto)]

pub mod code;
pub mod faults;
mod memory;
pub mod read;
mod reader;
mod reserve;
pub mod text;

ghost use Rattle.std.specs.Prelude.{◌≡◌, ◌≤◌, true, map, length, vec_items, vec_len};
ghost use Rattle.program.specs.Form.{each, text_fits, limits_fit};

pub use memory::Room;
pub use reserve::spares;

// One instruction; docs/MACHINE.md says what each code means.
// The code stays a number: the machine's step is one match on it by ranges, with guards.
#[derive(Clone, Copy, PartialEq, Eq, Debug)]
pub struct Instruction {
    pub code: u8,
    pub a: u8,
    pub b: u16,
}

// A program, which is well formed by its type.
#[derive(Drop)]
pub struct Program {
    // the instructions of thread 1, thread 2 and so on
    texts: Vec<Vec<Instruction>>,
    // The starts and the limits lie apart, since the bytes hold eight starts and then eight limits,
    // and the machine begins as a copy of the starts: each array is lent whole.
    starts: [u8; 8],
    limits: [u8; 8],
    ghost some: { 1 ≤ vec_len texts },
    ghost few: { vec_len texts ≤ 8 },
    ghost eight: { length starts ≡ 8 },
    ghost limited: { limits_fit starts limits ≡ true },
    ghost fit: { each text_fits (map vec_items texts.items) ≡ true },
}
