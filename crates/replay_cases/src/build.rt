// Programs and traces for the cases. A replay, a thread, a program and a trace are what a case is about, and go from call
// to call as they are: a struct of two of them would be made and taken apart at each call.
use machine::Machine;
use program::{Instruction, Program};
use refusal::Object;
use replay::Ending;
use replay::faults::Fault;
use std::process::Abort;
use std::test::Fail;
use trace::access::place_of;
use trace::draft::Draft;
use trace::next::Access;
use trace::{Event, Trace};
use worked::build::{bytes, read, write};

// The end of a run that is complete after so many steps.
pub fn complete(steps: u32) -> Result<Ending, Fault> {
    Ok(Ending::Complete { steps })
}

// The end of a run whose budget is used up after so many.
pub fn spent(steps: u32) -> Result<Ending, Fault> {
    Ok(Ending::Spent { steps })
}

// A program of these threads, every semaphore with this start and limit, which are what a case varies. The machine's cases
// have the same four lines: they assert, which no library can.
pub fn program(
    rt: &(impl Abort + AllocGlobal),
    start: u8,
    limit: u8,
    texts: &[&[Instruction]],
) -> Result<Program, Fail> {
    let bytes = bytes(rt.alloc(), start, limit, texts)?;
    let (program, taken) = Program::read(program::Room::reserve(rt.alloc())?, bytes.as_slice())?;
    assert_eq!(rt; taken, bytes.len());
    Ok(program)
}

// One line, as in the traces' cases: it ends in a test's error, which no library has.
fn draft(rt: &(impl Abort + AllocGlobal), threads: u8) -> Result<Draft, Fail> {
    Ok(Draft::new(trace::Room::reserve(rt.alloc())?, threads).ok_or("no draft")?)
}

// A trace of these events, with the counts of threads 1, 2 and so on.
pub fn trace(
    rt: &(impl Abort + AllocGlobal),
    events: &[(Object, Event)],
    counts: &[u16],
) -> Result<Trace, Fail> {
    let mut draft = draft(rt, u8::try_from(counts.len())?)?;
    for (object, event) in events {
        assert!(rt; draft.add(place_of(*object), *event));
    }
    for (thread, count) in (1..=8u8).zip(counts) {
        assert!(rt; draft.set_count(thread, *count));
    }
    Ok(draft.finish()?)
}

// A trace of these events of variable 0.
pub fn of_variable_0(
    rt: &(impl Abort + AllocGlobal),
    events: &[Event],
    counts: &[u16],
) -> Result<Trace, Fail> {
    let mut all = Vec::new(rt.alloc());
    for event in events {
        all.push((Object::Variable(0), *event))?;
    }
    trace(rt, all.as_slice(), counts)
}

// The machine after steps of these threads, and the trace of this run.
pub fn recorded(
    rt: &(impl Abort + AllocGlobal),
    program: &Program,
    order: &[u8],
) -> Result<(Machine, Trace), Fail> {
    let mut machine = Machine::start(program);
    let mut draft = draft(rt, program.threads())?;
    for thread in order {
        if let Some(access) = Access::next(&machine, program, *thread) {
            assert!(rt; draft.add(place_of(access.object), access.event));
        }
        assert!(rt; machine.step(program, *thread));
    }
    for thread in 1..=program.threads() {
        assert!(rt; draft.set_count(thread, machine.count(thread)));
    }
    Ok((machine, draft.finish()?))
}

// The worked program: threads 1 and 2 read variable 0; thread 3 reads it and writes 1 more back.
pub fn bump(rt: &(impl Abort + AllocGlobal)) -> Result<Program, Fail> {
    let room = program::Room::reserve(rt.alloc())?;
    let (program, taken) = Program::read(room, &worked::WORKED)?;
    assert_eq!(rt; taken, worked::WORKED.len());
    Ok(program)
}

// The trace of its run 3, 1, 3, 3, 3, 2, with counts of one's own. One line, with a test's own error.
pub fn bump_trace(rt: &impl AllocGlobal, counts: &[u16; 3]) -> Result<Trace, Fail> {
    Ok(worked::trace(trace::Room::reserve(rt.alloc())?, *counts).ok_or("no trace")?)
}

// A trace of it in which thread 2 reads before the write.
pub fn early_trace(rt: &(impl Abort + AllocGlobal)) -> Result<Trace, Fail> {
    let events = [read(3, 0), read(1, 0), read(2, 0), write(3, 0, 3)];
    of_variable_0(rt, &events, &[1, 1, 4])
}
