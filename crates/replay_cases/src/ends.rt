// How replays end that do not end complete.
use crate::build::{bump, bump_trace, program, trace};
use crate::replays::{always, contents};
use crate::steps::hold;
use machine::Operation;
use program::Instruction;
use refusal::{Layer, Object, Refusal};
use replay::Replay;
use replay::faults::Fault;
use schedule::{Seeded, Turn};
use std::process::Abort;
use std::test::Fail;
use trace::Event;
use worked::build::{op, read, sync, write};

fn stuck(thread: u8, place: u16, object: Option<Object>, steps: u32) -> Fault {
    Fault::Stuck {
        thread,
        place,
        object,
        steps,
    }
}

// A thread that is never permitted its one instruction: the object is named.
fn waits(
    rt: &(impl Abort + AllocGlobal),
    start: u8,
    instruction: Instruction,
    object: Object,
    event: Event,
) -> Result<(), Fail> {
    let waiting = program(rt, start, 1, &[&[instruction]])?;
    let trace = trace(rt, &[(object, event)], &[1])?;
    let _ = always(rt, &waiting, &trace, Err(stuck(1, 0, Some(object), 0)))?;
    Ok(())
}

// P at 0, V at the limit, and unlock of a free lock.
#[test]
fn not_able(rt: HostRuntime) -> Result<(), Fail> {
    waits(
        &rt,
        0,
        op(8, 0, 3),
        Object::Semaphore(3),
        sync(1, Operation::P),
    )?;
    waits(
        &rt,
        1,
        op(9, 0, 7),
        Object::Semaphore(7),
        sync(1, Operation::V),
    )?;
    waits(
        &rt,
        0,
        op(11, 0, 5),
        Object::Lock(5),
        sync(1, Operation::Unlock),
    )
}

// The trace has another event: a write for a read, V for P, unlock for lock.
#[test]
fn not_on_turn(rt: HostRuntime) -> Result<(), Fail> {
    waits(&rt, 0, op(6, 0, 15), Object::Variable(15), write(1, 0, 0))?;
    waits(&rt, 0, op(7, 0, 0), Object::Variable(0), read(1, 0))?;
    waits(
        &rt,
        1,
        op(8, 0, 0),
        Object::Semaphore(0),
        sync(1, Operation::V),
    )?;
    waits(
        &rt,
        0,
        op(10, 0, 7),
        Object::Lock(7),
        sync(1, Operation::Unlock),
    )
}

// A lock that another thread holds.
#[test]
fn a_lock_is_held(rt: HostRuntime) -> Result<(), Fail> {
    let locks = [op(10, 0, 5)];
    let both = program(&rt, 0, 1, &[&locks, &locks])?;
    let object = Object::Lock(5);
    let events = [
        (object, sync(1, Operation::Lock)),
        (object, sync(2, Operation::Lock)),
    ];
    let trace = trace(&rt, &events, &[1, 1])?;
    let _ = always(&rt, &both, &trace, Err(stuck(2, 0, Some(object), 1)))?;
    Ok(())
}

// A thread that has ended stands at no event.
#[test]
fn it_has_ended(rt: HostRuntime) -> Result<(), Fail> {
    let sets = program(&rt, 0, 1, &[&[op(1, 0, 7)], &[]])?;
    let _ = always(
        &rt,
        &sets,
        &trace(&rt, &[], &[2, 0])?,
        Err(stuck(1, 1, None, 1)),
    )?;
    let end = always(
        &rt,
        &sets,
        &trace(&rt, &[], &[1, 3])?,
        Err(stuck(2, 0, None, 1)),
    )?;
    assert_eq!(rt; end.registers[0], 7);
    Ok(())
}

// The lowest thread below its count is named, and before any unused event.
#[test]
fn the_lowest_thread(rt: HostRuntime) -> Result<(), Fail> {
    let program = bump(&rt)?;
    for (counts, fault) in [
        ([2, 2, 5], stuck(1, 1, None, 6)),
        ([1, 2, 5], stuck(2, 1, None, 6)),
        ([1, 0, 5], stuck(3, 4, None, 5)),
        ([0, 0, 4], stuck(3, 3, Some(Object::Variable(0)), 3)),
    ] {
        let _ = always(&rt, &program, &bump_trace(&rt, &counts)?, Err(fault))?;
    }
    Ok(())
}

// Of these events, in a replay with no steps, the first object is named.
fn unused(
    rt: &(impl Abort + AllocGlobal),
    events: &[(Object, Event)],
    object: Object,
) -> Result<(), Fail> {
    let idle = program(rt, 0, 1, &[&[]])?;
    let trace = trace(rt, events, &[0])?;
    let _ = always(rt, &idle, &trace, Err(Fault::Unused { object, steps: 0 }))?;
    Ok(())
}

// Variables come first, then semaphores, then locks, each kind by number.
#[test]
fn the_first_unused(rt: HostRuntime) -> Result<(), Fail> {
    let lock = (Object::Lock(0), sync(1, Operation::Lock));
    let semaphore = (Object::Semaphore(7), sync(1, Operation::P));
    let last = (Object::Variable(15), read(1, 0));
    let other = (Object::Variable(2), write(1, 0, 0));
    unused(&rt, &[lock], Object::Lock(0))?;
    unused(&rt, &[lock, semaphore], Object::Semaphore(7))?;
    unused(&rt, &[lock, semaphore, last], Object::Variable(15))?;
    unused(&rt, &[lock, last, other, semaphore], Object::Variable(2))
}

// A replay that has ended so keeps its steps and its machine, and ends so again.
#[test]
fn it_stays_ended(rt: HostRuntime) -> Result<(), Fail> {
    let program = bump(&rt)?;
    let unused = Fault::Unused {
        object: Object::Variable(0),
        steps: 5,
    };
    for (counts, steps, fault) in [([1, 1, 5], 6, stuck(3, 4, None, 6)), ([1, 0, 4], 5, unused)] {
        let trace = bump_trace(&rt, &counts)?;
        let mut replay = Replay::new(&program, &trace)?;
        assert_eq!(rt; replay.run(100, &mut Turn::new(1)), Err(fault));
        let end = contents(replay.machine());
        assert_eq!(rt; hold(&mut replay, 3), Err(Fault::NotPermitted));
        assert_eq!(rt; replay.run(0, &mut Seeded::new(1)), Err(fault));
        assert_eq!(rt; replay.run(100, &mut Seeded::new(1)), Err(fault));
        assert_eq!(rt; replay.steps(), steps);
        assert_eq!(rt; contents(replay.machine()), end);
    }
    Ok(())
}

// Program and trace have not the same number of threads.
#[test]
fn other_threads(rt: HostRuntime) -> Result<(), Fail> {
    let program = bump(&rt)?;
    for counts in [[0; 8].as_slice(), &[0; 4], &[0; 2], &[0; 1]] {
        let trace = trace(&rt, &[], counts)?;
        assert_eq!(rt; Replay::new(&program, &trace).err(), Some(Fault::Threads));
    }
    let trace = trace(&rt, &[], &[0; 3])?;
    assert!(rt; Replay::new(&program, &trace).is_ok());
    Ok(())
}

// Number and parts of each fault.
#[test]
fn numbers(rt: HostRuntime) -> Result<(), Fail> {
    let lock = Some(Object::Lock(7));
    let unused = Fault::Unused {
        object: Object::Semaphore(1),
        steps: 9,
    };
    for (fault, number, thread, place, object) in [
        (Fault::Threads, 11, None, None, None),
        (Fault::PermitOut, 12, None, None, None),
        (Fault::NotPermitted, 13, None, None, None),
        (Fault::WrongPermit, 14, None, None, None),
        (stuck(3, 4, None, 6), 15, Some(3), Some(4), None),
        (stuck(8, 128, lock, 6), 15, Some(8), Some(128), lock),
        (unused, 16, None, None, Some(Object::Semaphore(1))),
    ] {
        let refusal = Refusal {
            number,
            layer: Layer::Replay,
            thread,
            place,
            object,
        };
        assert_eq!(rt; Refusal::from(fault), refusal);
    }
    Ok(())
}
