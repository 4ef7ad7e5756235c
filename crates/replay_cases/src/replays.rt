// Whole replays, under several schedulers.
use machine::Machine;
use program::Program;
use replay::faults::Fault;
use replay::{Ending, Replay};
use schedule::{Scheduler, Seeded, Turn};
use std::process::Abort;
use std::test::Fail;
use trace::Trace;

// The values of all variables, and the first registers of all threads.
#[derive(Clone, Copy, PartialEq, Eq, Debug)]
pub struct Held {
    pub values: [u32; 16],
    pub registers: [u32; 8],
}

pub fn contents(machine: &Machine) -> Held {
    let values = machine.variables().map(|item| item.value);
    // a machine has all eight threads, so that the 0 is never taken
    let registers = [1, 2, 3, 4, 5, 6, 7, 8].map(|thread| {
        machine
            .thread(thread)
            .map_or(0, |thread| thread.registers[0])
    });
    Held { values, registers }
}

// How a run of a new replay comes out, and what its machine then holds.
fn under<'a, S: Scheduler>(
    program: &'a Program,
    trace: &'a Trace,
    scheduler: &mut S,
) -> Result<(Result<Ending, Fault>, Held), Fail> {
    let mut replay = Replay::new(program, trace)?;
    let answer = replay.run(100, scheduler);
    Ok((answer, contents(replay.machine())))
}

// A replay comes out so under each scheduler; what the machine then holds, which is the same each time.
pub fn always<'a>(
    rt: &impl Abort,
    program: &'a Program,
    trace: &'a Trace,
    expected: Result<Ending, Fault>,
) -> Result<Held, Fail> {
    let (answer, end) = under(program, trace, &mut Turn::new(1))?;
    assert_eq!(rt; answer, expected);
    for seed in [1, 12345] {
        let (answer, other) = under(program, trace, &mut Seeded::new(seed))?;
        assert_eq!(rt; answer, expected);
        assert_eq!(rt; other, end);
    }
    Ok(end)
}
