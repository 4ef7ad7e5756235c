// A tour of the product: does one task from beginning to end and prints each thing it did.
#![tactic(auto)]

mod keeping;

use machine::action::Action;
use machine::{Machine, Operation};
use program::{Instruction, Program, Room};
use refusal::Refusal;
use worked::{ORDER, WORKED};

fn main(rt: HostRuntime) -> anyhow::Result<()> {
    tour(&rt)
}

fn tour(rt: &HostRuntime) -> anyhow::Result<()> {
    let room = Room::reserve(rt.alloc())?;
    println!(rt; "A program of {} bytes is read.", WORKED.len())?;
    match Program::read(room, &WORKED) {
        Err(fault) => {
            println!(rt; "  {}", Refusal::from(fault))?;
        }
        Ok((program, taken)) => {
            list(rt, &program, taken)?;
            run(rt, &program)?;
        }
    }
    refuse(rt)?;
    keeping::keep(rt)
}

// What was read.
fn list(rt: &HostRuntime, program: &Program, taken: usize) -> anyhow::Result<()> {
    let threads = program.threads();
    println!(rt; "  Bytes taken: {taken}. Threads: {threads}.")?;
    for thread in 1..=threads {
        let text = program.text(thread);
        println!(rt; "  Instructions of thread {thread}: {}", text.len())?;
        for (place, instruction) in text.iter().enumerate() {
            println!(rt; "    {place}: {instruction}")?;
        }
    }
    Ok(())
}

// Steps the threads in order, and shows what each step changed.
fn run(rt: &HostRuntime, program: &Program) -> anyhow::Result<()> {
    println!(rt; "It is run, the threads stepping in the order {ORDER:?}.")?;
    let mut machine = Machine::start(program);
    for thread in ORDER {
        let action = machine.action(program, thread);
        match machine.current(program, thread) {
            Some(instruction) if machine.step(program, thread) => {
                println!(rt; "  Thread {thread}: {instruction}.")?;
                change(rt, &machine, thread, instruction)?;
                object(rt, &machine, action.unwrap_or(Action::Local))?;
            }
            _ => println!(rt; "  Thread {thread} is not able.")?,
        }
    }
    // as in the tour of replays: a function for both would be a library's, with a contract and an edit, for these lines
    println!(rt; "The variables that are not 0:")?;
    for (v, item) in machine.variables().iter().enumerate() {
        if item.value != 0 {
            println!(rt; "  v{v} {}", item.value)?;
        }
    }
    Ok(())
}

// What a step changed of its thread: a register, or the place that it jumped to. An instruction's code is a number
// (see `Instruction`).
fn change(
    rt: &HostRuntime,
    machine: &Machine,
    thread: u8,
    instruction: Instruction,
) -> anyhow::Result<()> {
    let Some(state) = machine.thread(thread) else {
        return Ok(());
    };
    let a = instruction.a;
    match (instruction.code, state.registers.get(usize::from(a))) {
        (1..=3 | 6, Some(value)) => println!(rt; "    r{a} is {value}")?,
        (4..=5, _) => println!(rt; "    its place is {}", state.place)?,
        _ => {}
    }
    Ok(())
}

// What the object that a step acted on holds now.
fn object(rt: &HostRuntime, machine: &Machine, action: Action) -> anyhow::Result<()> {
    match action {
        Action::Local => {}
        Action::Read { variable: v } | Action::Write { variable: v } => {
            if let Some(item) = machine.variable(v) {
                println!(rt;
                    "    v{v} is {}, version {}, reads made of it {}",
                    item.value, item.version, item.made
                )?;
            }
        }
        Action::Sync {
            operation: Operation::P | Operation::V,
            number,
        } => {
            if let Some(value) = machine.semaphore(number) {
                println!(rt; "    s{number} is {value}")?;
            }
        }
        Action::Sync {
            operation: Operation::Lock | Operation::Unlock,
            number,
        } => {
            if let Some(holder) = machine.holder(number) {
                println!(rt; "    l{number} has the holder {holder}")?;
            }
        }
    }
    Ok(())
}

// Two byte strings that are no program.
fn refuse(rt: &HostRuntime) -> anyhow::Result<()> {
    println!(rt; "Two damaged programs are read.")?;
    attempt(rt, "cut short by one byte", &WORKED[0..43])?;
    let mut nine = WORKED;
    nine[0] = 9;
    attempt(rt, "with nine threads", &nine)
}

fn attempt(rt: &HostRuntime, name: &str, bytes: &[u8]) -> anyhow::Result<()> {
    match Program::read(Room::reserve(rt.alloc())?, bytes) {
        Ok((_, taken)) => println!(rt; "  The program {name}: {taken} bytes taken.")?,
        Err(fault) => println!(rt; "  The program {name}: {}.", Refusal::from(fault))?,
    }
    Ok(())
}
