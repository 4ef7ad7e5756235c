// Replays a trace to its end: reads a program and then a trace file from standard input, and prints how it ended.
#![tactic(auto)]

use anyhow::anyhow;
use machine::Machine;
use program::{Program, Room};
use refusal::Refusal;
use replay::{Ending, Replay};
use schedule::Turn;
use std::io::Read;
use trace::Room as TraceRoom;
use trace_file::read::read;

// Ends with status 0 where the replay is complete, and with 1 where a refusal was printed or the input failed.
fn main(rt: HostRuntime) -> anyhow::Result<()> {
    let mut input = Vec::new(rt.alloc());
    rt.stdin().read_to_end(&mut input)?;
    // a match and no `?`: a refusal is printed and an error of memory is not, so that with `?` both rooms would have to be
    // reserved before the program is read
    let ended = match Program::read(Room::reserve(rt.alloc())?, input.as_slice()) {
        Ok((program, taken)) => {
            let file = input.as_slice().get(taken..).unwrap_or(&[]);
            replayed(&program, TraceRoom::reserve(rt.alloc())?, file)
        }
        Err(fault) => Err(fault.into()),
    };
    match ended {
        Ok((Ending::Complete { steps }, machine)) => {
            println!(rt; "complete {steps}")?;
            return variables(&rt, &machine);
        }
        Ok((Ending::Spent { steps }, _)) => println!(rt; "spent {steps}")?,
        Err(refusal) => println!(rt; "{refusal}")?,
    }
    Err(anyhow!("refused"))
}

// How the replay of a trace file ends, and its machine then.
fn replayed(program: &Program, room: TraceRoom, file: &[u8]) -> Result<(Ending, Machine), Refusal> {
    let trace = read(room, file)?;
    let mut replay = Replay::new(program, &trace)?;
    let ending = replay.run(u32::MAX, &mut Turn::new(1))?;
    Ok((ending, *replay.machine()))
}

// The variables that are not 0. The tours print them with a heading and an indent: one function for all would be no
// plainer.
fn variables(rt: &HostRuntime, machine: &Machine) -> anyhow::Result<()> {
    for (v, item) in machine.variables().iter().enumerate() {
        if item.value != 0 {
            println!(rt; "v{v} {}", item.value)?;
        }
    }
    Ok(())
}
