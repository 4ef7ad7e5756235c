// How many steps a run may make.
use crate::build::{bump, bump_trace, complete, program, spent, trace};
use replay::Replay;
use replay::faults::Fault;
use schedule::Turn;
use std::test::Fail;
use worked::build::op;

// A replay that needs 6 steps.
#[test]
fn about_as_many_as_needed(rt: HostRuntime) -> Result<(), Fail> {
    let (program, trace) = (bump(&rt)?, bump_trace(&rt, &[1, 1, 4])?);
    for (budget, answer) in [
        (0, spent(0)),
        (1, spent(1)),
        (5, spent(5)),
        (6, complete(6)),
        (7, complete(6)),
        (u32::MAX, complete(6)),
    ] {
        let mut replay = Replay::new(&program, &trace)?;
        assert_eq!(rt; replay.run(budget, &mut Turn::new(1)), answer);
    }
    Ok(())
}

// Runs of one replay, each with the steps of all.
#[test]
fn one_after_the_other(rt: HostRuntime) -> Result<(), Fail> {
    let (program, trace) = (bump(&rt)?, bump_trace(&rt, &[1, 1, 4])?);
    let mut replay = Replay::new(&program, &trace)?;
    for (budget, answer) in [
        (2, spent(2)),
        (0, spent(2)),
        (3, spent(5)),
        (1, complete(6)),
        (0, complete(6)),
        (9, complete(6)),
    ] {
        assert_eq!(rt; replay.run(budget, &mut Turn::new(1)), answer);
    }
    Ok(())
}

// Where no thread is permitted a run of no steps answers the end: complete, or stuck.
#[test]
fn none_at_the_end(rt: HostRuntime) -> Result<(), Fail> {
    let waits = program(&rt, 0, 1, &[&[op(8, 0, 0)]])?;
    for (count, answer) in [
        (0, complete(0)),
        (
            1,
            Err(Fault::Stuck {
                thread: 1,
                place: 0,
                object: Some(refusal::Object::Semaphore(0)),
                steps: 0,
            }),
        ),
    ] {
        let trace = trace(&rt, &[], &[count])?;
        let mut replay = Replay::new(&waits, &trace)?;
        assert_eq!(rt; replay.run(0, &mut Turn::new(1)), answer);
    }
    Ok(())
}

// The longest replay that there is: eight threads with the greatest count.
#[test]
fn the_most_steps(rt: HostRuntime) -> Result<(), Fail> {
    let circle = [op(5, 0, 0)];
    let circles = program(&rt, 0, 1, &[circle.as_slice(); 8])?;
    let trace = trace(&rt, &[], &[65535; 8])?;
    let mut replay = Replay::new(&circles, &trace)?;
    assert_eq!(rt; replay.run(524_279, &mut Turn::new(1)), spent(524_279));
    assert_eq!(rt; replay.run(u32::MAX, &mut Turn::new(1)), complete(524_280));
    Ok(())
}
