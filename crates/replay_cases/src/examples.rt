// The worked program, and what becomes of its traces.
use crate::build::{self, bump, bump_trace, early_trace};
use crate::replays::always;
use refusal::Object;
use replay::faults::Fault;
use std::test::Fail;

// The trace of the run 3, 1, 3, 3, 3, 2: variable 0 ends at 1, and thread 2 reads 1.
#[test]
fn complete(rt: HostRuntime) -> Result<(), Fail> {
    let end = always(
        &rt,
        &bump(&rt)?,
        &bump_trace(&rt, &[1, 1, 4])?,
        build::complete(6),
    )?;
    assert_eq!(rt; end.values[0], 1);
    assert_eq!(rt; end.registers, [0, 1, 1, 0, 0, 0, 0, 0]);
    Ok(())
}

// Thread 3 with the count 5: it has ended, at place 4.
#[test]
fn one_step_too_many(rt: HostRuntime) -> Result<(), Fail> {
    let fault = Fault::Stuck {
        thread: 3,
        place: 4,
        object: None,
        steps: 6,
    };
    let end = always(&rt, &bump(&rt)?, &bump_trace(&rt, &[1, 1, 5])?, Err(fault))?;
    assert_eq!(rt; end.values[0], 1);
    Ok(())
}

// Thread 2 with the count 0: its read is unused.
#[test]
fn one_step_too_few(rt: HostRuntime) -> Result<(), Fail> {
    let fault = Fault::Unused {
        object: Object::Variable(0),
        steps: 5,
    };
    let end = always(&rt, &bump(&rt)?, &bump_trace(&rt, &[1, 0, 4])?, Err(fault))?;
    assert_eq!(rt; end.registers, [0, 0, 1, 0, 0, 0, 0, 0]);
    Ok(())
}

// Thread 2 reads before the write: it reads 0.
#[test]
fn an_early_read(rt: HostRuntime) -> Result<(), Fail> {
    let end = always(&rt, &bump(&rt)?, &early_trace(&rt)?, build::complete(6))?;
    assert_eq!(rt; end.values[0], 1);
    assert_eq!(rt; end.registers, [0, 0, 1, 0, 0, 0, 0, 0]);
    Ok(())
}
