// Runs that are recorded in one order, and replayed in others.
use crate::build::{complete, program, recorded};
use crate::replays::{always, contents};
use program::Program;
use std::process::Abort;
use std::test::Fail;
use worked::build::op;

// Threads 1 and 2 add 1 to variable 0 under lock 0, and then V; thread 3 waits for a V and copies variable 0 to 1.
fn shared(rt: &(impl Abort + AllocGlobal)) -> Result<Program, Fail> {
    let adds = [
        op(10, 0, 0),
        op(6, 0, 0),
        op(1, 1, 1),
        op(2, 0, 1),
        op(7, 0, 0),
        op(11, 0, 0),
        op(9, 0, 0),
    ];
    let copies = [op(8, 0, 0), op(6, 0, 0), op(7, 0, 1)];
    program(rt, 0, 2, &[&adds, &adds, &copies])
}

// The run of these threads replays with its own number of steps and its own machine; what variable 1 ends at.
fn replayed(rt: &(impl Abort + AllocGlobal), order: &[u8]) -> Result<u32, Fail> {
    let shared = shared(rt)?;
    let (machine, trace) = recorded(rt, &shared, order)?;
    let steps = u32::try_from(order.len())?;
    let end = always(rt, &shared, &trace, complete(steps))?;
    assert_eq!(rt; end, contents(&machine));
    Ok(end.values[1])
}

// Whole runs, in which thread 3 copies 1 or 2.
#[test]
fn whole_runs(rt: HostRuntime) -> Result<(), Fail> {
    let first = [1, 1, 1, 1, 1, 1, 1, 3, 3, 3, 2, 2, 2, 2, 2, 2, 2];
    let last = [2, 2, 2, 2, 2, 2, 2, 1, 1, 1, 1, 1, 1, 1, 3, 3, 3];
    let mixed = [2, 2, 2, 2, 2, 2, 1, 2, 3, 1, 3, 1, 1, 3, 1, 1, 1];
    assert_eq!(rt; replayed(&rt, &first)?, 1);
    assert_eq!(rt; replayed(&rt, &last)?, 2);
    assert_eq!(rt; replayed(&rt, &mixed)?, 1);
    Ok(())
}

// Runs that stop half way, and the run of no steps.
#[test]
fn parts_of_runs(rt: HostRuntime) -> Result<(), Fail> {
    assert_eq!(rt; replayed(&rt, &[])?, 0);
    assert_eq!(rt; replayed(&rt, &[2])?, 0);
    assert_eq!(rt; replayed(&rt, &[1, 1, 1, 1, 1, 1, 2, 2, 1, 3])?, 0);
    Ok(())
}
