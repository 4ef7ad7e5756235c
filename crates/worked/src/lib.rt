// The worked example: a program, the order of its run, and the trace of the run.
#![tactic(auto)]

pub mod build;
#[cfg(test)]
mod tests;

ghost use Rattle.std.specs.Prelude.{◌≡◌, IsSomeAnd};
ghost use Rattle.trace.specs.Traces.{parts};
ghost use Rattle.worked.specs.Worked.{worked};

use build::{read, write};
use trace::draft::Draft;
use trace::{Room, Trace};

// Threads 1 and 2 read variable 0; thread 3 reads it, adds 1 and writes it back.
pub const WORKED: [u8; 44] = [
    3, 0, 0, 0, 0, 0, 0, 0, 0, 1, 1, 1, 1, 1, 1, 1, 1, // threads, starts, limits
    1, 6, 0, 0, 0, // thread 1
    1, 6, 0, 0, 0, // thread 2
    4, 6, 0, 0, 0, 1, 1, 1, 0, 2, 0, 1, 0, 7, 0, 0, 0, // thread 3
];

// The order in which the threads step in the run.
pub const ORDER: [u8; 6] = [3, 1, 3, 3, 3, 2];

// The trace of the run, in which threads 1, 2 and 3 made so many steps. One call after another: a loop over seven
// different calls would be no shorter.
pub fn trace(room: Room, counts: [u16; 3]) -> Option<Trace>
    ensures { IsSomeAnd result (λ t. parts t ≡ worked counts) }
{
    let mut draft = Draft::new(room, 3)?;
    let _ = draft.add(0, read(3, 0));
    let _ = draft.add(0, read(1, 0));
    let _ = draft.add(0, write(3, 0, 2));
    let _ = draft.add(0, read(2, 1));
    let [first, second, third] = counts;
    let _ = draft.set_count(1, first);
    let _ = draft.set_count(2, second);
    let _ = draft.set_count(3, third);
    draft.finish().ok()
}
