// Memory for one program, reserved before its bytes are read.
ghost use Rattle.std.specs.Prelude.{◌≡◌, ◌≤◌, true, IfOk, vec_len, vec_capacity};
ghost use Rattle.program.specs.Form.{each};
ghost use Rattle.program.specs.Rooms.{spare};

use crate::Instruction;
use crate::reserve::spares;
use std::alloc::{AllocError, Global};

// Room for eight threads of 128 instructions; reading a program into it allocates nothing.
#[derive(Drop)]
pub struct Room {
    // empty, with a place for each thread
    pub(crate) texts: Vec<Vec<Instruction>>,
    // one for each thread, empty, with a place for each instruction
    pub(crate) spares: Vec<Vec<Instruction>>,
    ghost empty: { vec_len texts ≡ 0 },
    ghost wide: { 8 ≤ vec_capacity texts },
    ghost eight: { vec_len spares ≡ 8 },
    ghost spared: { each spare spares.items ≡ true },
}

impl Room {
    // Reserves all the memory that a program can take.
    pub fn reserve(heap: Global) -> Result<Room, AllocError>
        ensures { IfOk result (λ m. (vec_len m.texts ≡ 0) × (vec_len m.spares ≡ 8)) }
    {
        let texts = Vec::with_capacity(heap, 8)?;
        let spares = spares(heap, 8, 128)?;
        Ok(Room { texts, spares })
    }
}
