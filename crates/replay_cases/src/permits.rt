// Steps by permit, and permits that are refused.
use crate::build::{bump, bump_trace, complete};
use crate::replays::contents;
use crate::steps::{Fate, exchange, hold, misplace, step, while_out};
use replay::Replay;
use replay::faults::Fault;
use schedule::Turn;
use std::test::Fail;

// Each step answers the thread's count.
#[test]
fn the_worked_run(rt: HostRuntime) -> Result<(), Fail> {
    let (program, trace) = (bump(&rt)?, bump_trace(&rt, &[1, 1, 4])?);
    let mut replay = Replay::new(&program, &trace)?;
    for (thread, count) in [(3, 1), (1, 1), (3, 2), (3, 3), (3, 4), (2, 1)] {
        assert_eq!(rt; step(&mut replay, thread), Ok(count));
    }
    assert_eq!(rt; replay.steps(), 6);
    assert_eq!(rt; replay.run(0, &mut Turn::new(1)), complete(6));
    Ok(())
}

// Thread 3 may not write before thread 1 has read.
#[test]
fn a_write_waits_for_reads(rt: HostRuntime) -> Result<(), Fail> {
    let (program, trace) = (bump(&rt)?, bump_trace(&rt, &[1, 1, 4])?);
    let mut replay = Replay::new(&program, &trace)?;
    for count in [1, 2, 3] {
        assert_eq!(rt; step(&mut replay, 3), Ok(count));
    }
    assert_eq!(rt; step(&mut replay, 3), Err(Fault::NotPermitted));
    assert_eq!(rt; replay.steps(), 3);
    assert_eq!(rt; step(&mut replay, 1), Ok(1));
    assert_eq!(rt; step(&mut replay, 3), Ok(4));
    Ok(())
}

// Thread 2 is not on turn, there are no threads 0, 4, 8, 9 and 255, and thread 1 may make one step only.
#[test]
fn not_permitted(rt: HostRuntime) -> Result<(), Fail> {
    let (program, trace) = (bump(&rt)?, bump_trace(&rt, &[1, 1, 4])?);
    let mut replay = Replay::new(&program, &trace)?;
    for thread in [2, 0, 4, 8, 9, 255] {
        assert_eq!(rt; hold(&mut replay, thread), Err(Fault::NotPermitted));
    }
    assert_eq!(rt; replay.steps(), 0);
    assert_eq!(rt; step(&mut replay, 1), Ok(1));
    assert_eq!(rt; step(&mut replay, 1), Err(Fault::NotPermitted));
    assert_eq!(rt; replay.run(100, &mut Turn::new(1)), complete(6));
    Ok(())
}

// While a permit is out, every request and every run is refused, and nothing is altered.
#[test]
fn a_permit_is_out(rt: HostRuntime) -> Result<(), Fail> {
    let (program, trace) = (bump(&rt)?, bump_trace(&rt, &[1, 1, 4])?);
    let mut replay = Replay::new(&program, &trace)?;
    assert_eq!(rt; step(&mut replay, 3), Ok(1));
    let before = contents(replay.machine());
    for other in [1, 2, 3, 0, 4, 255] {
        assert_eq!(rt;
            while_out(&mut replay, 3, other),
            Ok((Fault::PermitOut, Err(Fault::PermitOut)))
        );
    }
    assert_eq!(rt; replay.steps(), 1);
    assert_eq!(rt; contents(replay.machine()), before);
    assert_eq!(rt; replay.run(100, &mut Turn::new(1)), complete(6));
    Ok(())
}

// A permit that is handed back makes no step, and the replay goes on.
#[test]
fn handed_back(rt: HostRuntime) -> Result<(), Fail> {
    let (program, trace) = (bump(&rt)?, bump_trace(&rt, &[1, 1, 4])?);
    let mut replay = Replay::new(&program, &trace)?;
    let before = contents(replay.machine());
    assert_eq!(rt; hold(&mut replay, 3), Ok(()));
    assert_eq!(rt; hold(&mut replay, 1), Ok(()));
    assert_eq!(rt; replay.steps(), 0);
    assert_eq!(rt; contents(replay.machine()), before);
    assert_eq!(rt; replay.run(100, &mut Turn::new(1)), complete(6));
    Ok(())
}

// A permit of another replay, where none is out.
#[test]
fn none_is_out(rt: HostRuntime) -> Result<(), Fail> {
    let (program, trace) = (bump(&rt)?, bump_trace(&rt, &[1, 1, 4])?);
    let mut own = Replay::new(&program, &trace)?;
    let mut other = Replay::new(&program, &trace)?;
    assert_eq!(rt;
        misplace(&mut own, &mut other, 3),
        Ok(Fate::Refused(Fault::WrongPermit, Fault::WrongPermit))
    );
    assert_eq!(rt; (own.steps(), other.steps()), (0, 0));
    assert_eq!(rt; own.run(100, &mut Turn::new(1)), complete(6));
    assert_eq!(rt; other.run(100, &mut Turn::new(1)), complete(6));
    Ok(())
}

// A permit of another replay, where one for another thread is out.
#[test]
fn another_thread(rt: HostRuntime) -> Result<(), Fail> {
    let (program, trace) = (bump(&rt)?, bump_trace(&rt, &[1, 1, 4])?);
    let mut own = Replay::new(&program, &trace)?;
    let mut other = Replay::new(&program, &trace)?;
    assert_eq!(rt;
        exchange(&mut own, 3, &mut other, 1)?,
        (Fault::WrongPermit, Fault::WrongPermit)
    );
    assert_eq!(rt; (own.steps(), other.steps()), (0, 0));
    assert_eq!(rt; own.run(100, &mut Turn::new(1)), complete(6));
    assert_eq!(rt; other.run(100, &mut Turn::new(1)), complete(6));
    Ok(())
}

// A permit of another replay, where one for the same thread at another step is out.
#[test]
fn another_step(rt: HostRuntime) -> Result<(), Fail> {
    let (program, trace) = (bump(&rt)?, bump_trace(&rt, &[1, 1, 4])?);
    let mut own = Replay::new(&program, &trace)?;
    let mut other = Replay::new(&program, &trace)?;
    assert_eq!(rt; step(&mut other, 1), Ok(1));
    assert_eq!(rt;
        exchange(&mut own, 3, &mut other, 3)?,
        (Fault::WrongPermit, Fault::WrongPermit)
    );
    assert_eq!(rt; (own.steps(), other.steps()), (0, 1));
    assert_eq!(rt; own.run(100, &mut Turn::new(1)), complete(6));
    assert_eq!(rt; other.run(100, &mut Turn::new(1)), complete(6));
    Ok(())
}
