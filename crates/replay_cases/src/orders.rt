// Which orders of steps a trace allows.
use crate::build::{bump, complete, early_trace, of_variable_0, program, spent, trace};
use crate::replays::always;
use crate::steps::step;
use machine::Operation;
use refusal::Object;
use replay::Replay;
use replay::faults::Fault;
use schedule::Turn;
use std::test::Fail;
use worked::build::{op, read, sync, write};

// Thread 1 is not on turn until both others have written; a thread that has to wait ends no replay.
#[test]
fn a_thread_waits_for_its_turn(rt: HostRuntime) -> Result<(), Fail> {
    let reads = [op(6, 0, 0)];
    let five = [op(1, 0, 5), op(7, 0, 0)];
    let seven = [op(1, 0, 7), op(7, 0, 0)];
    let waits = program(&rt, 0, 1, &[&reads, &five, &seven])?;
    let events = [write(3, 0, 0), write(2, 1, 0), read(1, 2)];
    let trace = of_variable_0(&rt, &events, &[1, 2, 2])?;
    let mut replay = Replay::new(&waits, &trace)?;
    assert_eq!(rt; step(&mut replay, 1), Err(Fault::NotPermitted));
    assert_eq!(rt; replay.run(2, &mut Turn::new(1)), spent(2));
    assert_eq!(rt; step(&mut replay, 2), Err(Fault::NotPermitted));
    let end = always(&rt, &waits, &trace, complete(5))?;
    assert_eq!(rt; (end.values[0], end.registers[0]), (5, 5));
    Ok(())
}

// Reads of one version may swap: thread 2 reads first, though its read stands last.
#[test]
fn swapped_reads(rt: HostRuntime) -> Result<(), Fail> {
    let (program, trace) = (bump(&rt)?, early_trace(&rt)?);
    let mut replay = Replay::new(&program, &trace)?;
    assert_eq!(rt; step(&mut replay, 2), Ok(1));
    assert_eq!(rt; step(&mut replay, 1), Ok(1));
    assert_eq!(rt; step(&mut replay, 3), Ok(1));
    assert_eq!(rt; replay.run(100, &mut Turn::new(1)), complete(6));
    Ok(())
}

// Of two writes each has the reads of its own version only.
#[test]
fn reads_of_two_versions(rt: HostRuntime) -> Result<(), Fail> {
    let bumps = [op(6, 0, 0), op(1, 1, 1), op(2, 0, 1), op(7, 0, 0)];
    let twice = program(&rt, 0, 1, &[&bumps, &bumps, &[op(6, 0, 0)]])?;
    let events = [
        read(1, 0),
        read(3, 0),
        write(1, 0, 2),
        read(2, 1),
        write(2, 1, 1),
    ];
    let trace = of_variable_0(&rt, &events, &[4, 4, 1])?;
    let end = always(&rt, &twice, &trace, complete(9))?;
    assert_eq!(rt; end.values[0], 2);
    assert_eq!(rt; end.registers, [1, 2, 0, 0, 0, 0, 0, 0]);
    Ok(())
}

// Operations on a semaphore are made in the order of its sequence, though both threads are able.
#[test]
fn operations_do_not_swap(rt: HostRuntime) -> Result<(), Fail> {
    let takes = [op(8, 0, 6)];
    let both = program(&rt, 2, 2, &[&takes, &takes])?;
    let object = Object::Semaphore(6);
    let events = [
        (object, sync(2, Operation::P)),
        (object, sync(1, Operation::P)),
    ];
    let trace = trace(&rt, &events, &[1, 1])?;
    let mut replay = Replay::new(&both, &trace)?;
    assert_eq!(rt; step(&mut replay, 1), Err(Fault::NotPermitted));
    assert_eq!(rt; step(&mut replay, 2), Ok(1));
    assert_eq!(rt; step(&mut replay, 1), Ok(1));
    assert_eq!(rt; replay.machine().semaphore(6), Some(0));
    assert_eq!(rt; replay.run(0, &mut Turn::new(1)), complete(2));
    Ok(())
}

// Two threads that lock crosswise: where the run stopped, its replay is complete.
#[test]
fn crossed_locks(rt: HostRuntime) -> Result<(), Fail> {
    let one = [op(10, 0, 0), op(10, 0, 1)];
    let two = [op(10, 0, 1), op(10, 0, 0)];
    let crossed = program(&rt, 0, 1, &[&one, &two])?;
    let events = [
        (Object::Lock(0), sync(1, Operation::Lock)),
        (Object::Lock(1), sync(2, Operation::Lock)),
    ];
    let trace = trace(&rt, &events, &[1, 1])?;
    let _ = always(&rt, &crossed, &trace, complete(2))?;
    let mut replay = Replay::new(&crossed, &trace)?;
    assert_eq!(rt; replay.run(100, &mut Turn::new(1)), complete(2));
    let machine = replay.machine();
    assert_eq!(rt; (machine.holder(0), machine.holder(1)), (Some(1), Some(2)));
    Ok(())
}
