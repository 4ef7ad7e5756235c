// Tries programs and traces at their limits and one past them, and prints what each gave.
#![tactic(auto)]

use anyhow::anyhow;
use program::{Instruction, Program, Room};
use refusal::Refusal;
use trace::Room as TraceRoom;
use trace::draft::Draft;
use worked::build::{bytes, op, read};

fn main(rt: HostRuntime) -> anyhow::Result<()> {
    limits(&rt)
}

fn limits(rt: &HostRuntime) -> anyhow::Result<()> {
    // each `set r0 to 0`
    let text = [op(1, 0, 0); 129];
    for text in [&text[..0], &text[..128], &text] {
        print!(rt; "{} instructions: ", text.len())?;
        program(rt, &[text])?;
    }
    let texts: [&[Instruction]; 9] = [&[]; 9];
    for texts in [&texts[..8], &texts] {
        print!(rt; "{} threads: ", texts.len())?;
        program(rt, texts)?;
    }
    for n in [1024, 1025] {
        print!(rt; "{n} events: ")?;
        trace(rt, n)?;
    }
    Ok(())
}

// A program of these threads.
fn program(rt: &HostRuntime, texts: &[&[Instruction]]) -> anyhow::Result<()> {
    let bytes = bytes(rt.alloc(), 0, 1, texts)?;
    match Program::read(Room::reserve(rt.alloc())?, bytes.as_slice()) {
        Ok((program, taken)) => println!(rt;
            "accepted, threads {}, bytes {taken}",
            program.threads()
        )?,
        Err(fault) => println!(rt; "{}", Refusal::from(fault))?,
    }
    Ok(())
}

// A trace of one thread that read variable 0 n times.
fn trace(rt: &HostRuntime, n: u16) -> anyhow::Result<()> {
    let Some(mut draft) = Draft::new(TraceRoom::reserve(rt.alloc())?, 1) else {
        return Err(anyhow!("no draft of one thread"));
    };
    for _ in 0..n {
        let _ = draft.add(0, read(1, 0));
    }
    match draft.finish() {
        Ok(trace) => println!(rt; "accepted, events {}", trace.sequence_at(0).len())?,
        Err(fault) => println!(rt; "{}", Refusal::from(fault))?,
    }
    Ok(())
}
