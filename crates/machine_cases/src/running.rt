// Programs, the order in which their threads step, and what comes of it.
use machine::Machine;
use program::{Instruction, Program, Room};
use std::process::Abort;
use std::test::Fail;
use worked::build::{bytes, op};

// A program of these threads, every semaphore with this start and limit. The replays' cases have the same four lines:
// they assert, which no library can.
fn program(
    rt: &(impl Abort + AllocGlobal),
    start: u8,
    limit: u8,
    texts: &[&[Instruction]],
) -> Result<Program, Fail> {
    let bytes = bytes(rt.alloc(), start, limit, texts)?;
    let (program, taken) = Program::read(Room::reserve(rt.alloc())?, bytes.as_slice())?;
    assert_eq!(rt; taken, bytes.len());
    Ok(program)
}

// Steps the threads in order; each is able or not as the table says.
fn steps(rt: &impl Abort, machine: &mut Machine, program: &Program, turns: &[(u8, bool)]) {
    for (thread, able) in turns {
        assert_eq!(rt; machine.able(program, *thread), *able);
        assert_eq!(rt; machine.step(program, *thread), *able);
    }
}

fn register(rt: &impl Abort, machine: &Machine, thread: u8, a: usize) -> Result<u32, Fail> {
    let thread = machine.thread(thread).ok_or("no such thread")?;
    assert!(rt; a < thread.registers.len());
    Ok(thread.registers[a])
}

fn count(machine: &Machine, thread: u8) -> Result<u16, Fail> {
    Ok(machine.thread(thread).ok_or("no such thread")?.count)
}

// The value, version and reads made of a variable.
fn variable(machine: &Machine, v: u8) -> Result<(u32, u16, u16), Fail> {
    let item = machine.variable(v).ok_or("no such variable")?;
    Ok((item.value, item.version, item.made))
}

#[test]
fn the_worked_run(rt: HostRuntime) -> Result<(), Fail> {
    // the worked program by its instructions: read from its bytes it would not show what they stand for
    let read = [op(6, 0, 0)];
    let bump = [op(6, 0, 0), op(1, 1, 1), op(2, 0, 1), op(7, 0, 0)];
    let p = program(&rt, 0, 1, &[&read, &read, &bump])?;
    let mut m = Machine::start(&p);
    steps(
        &rt,
        &mut m,
        &p,
        &[(3, true), (1, true), (3, true), (3, true)],
    );
    assert_eq!(rt; variable(&m, 0)?, (0, 0, 2));
    steps(
        &rt,
        &mut m,
        &p,
        &[(3, true), (2, true), (1, false), (2, false), (3, false)],
    );
    assert_eq!(rt; variable(&m, 0)?, (1, 1, 1));
    assert_eq!(rt; (count(&m, 1)?, count(&m, 2)?, count(&m, 3)?), (1, 1, 4));
    assert_eq!(rt;
        (
            register(&rt, &m, 1, 0)?,
            register(&rt, &m, 2, 0)?,
            register(&rt, &m, 3, 0)?,
        ),
        (0, 1, 1)
    );
    Ok(())
}

#[test]
fn no_such_thread(rt: HostRuntime) -> Result<(), Fail> {
    let set = [op(1, 0, 7)];
    let p = program(&rt, 0, 1, &[&set, &set])?;
    let mut m = Machine::start(&p);
    steps(
        &rt,
        &mut m,
        &p,
        &[
            (0, false),
            (3, false),
            (8, false),
            (9, false),
            (255, false),
            (2, true),
            (2, false),
        ],
    );
    assert!(rt; m.thread(0).is_none() && m.thread(9).is_none() && m.thread(8).is_some());
    assert!(rt; m.variable(16).is_none() && m.semaphore(8).is_none() && m.holder(8).is_none());
    assert_eq!(rt;
        (
            p.threads(),
            p.text(0).len(),
            p.text(1).len(),
            p.text(3).len(),
        ),
        (2, 0, 1, 0)
    );
    assert_eq!(rt; (*p.starts(), *p.limits()), ([0; 8], [1; 8]));
    Ok(())
}

#[test]
fn arithmetic_wraps(rt: HostRuntime) -> Result<(), Fail> {
    let text = [
        op(1, 1, 1),
        op(3, 0, 1),
        op(2, 0, 1),
        op(1, 2, 65535),
        op(3, 2, 1),
        op(2, 2, 2),
    ];
    let p = program(&rt, 0, 1, &[&text])?;
    let mut m = Machine::start(&p);
    for (a, value) in [
        (0, 0),
        (0, 4294967295),
        (0, 0),
        (2, 65535),
        (2, 65534),
        (2, 131068),
    ] {
        assert!(rt; m.step(&p, 1));
        assert_eq!(rt; register(&rt, &m, 1, a)?, value);
    }
    assert!(rt; !m.able(&p, 1), "it has ended");
    Ok(())
}

#[test]
fn jumps(rt: HostRuntime) -> Result<(), Fail> {
    let text = [
        op(4, 0, 2),
        op(5, 0, 5),
        op(1, 0, 1),
        op(4, 0, 0),
        op(5, 0, 1),
    ];
    let p = program(&rt, 0, 1, &[&text])?;
    let mut m = Machine::start(&p);
    for place in [2, 3, 4, 1, 5] {
        assert!(rt; m.step(&p, 1));
        assert_eq!(rt; m.thread(1).ok_or("no such thread")?.place, place);
    }
    assert!(rt; !m.step(&p, 1), "place n is the end");
    Ok(())
}

// P waits at 0 and V at the limit.
#[test]
fn semaphores(rt: HostRuntime) -> Result<(), Fail> {
    let takes = [op(8, 0, 7), op(8, 0, 7), op(8, 0, 7)];
    let gives = [op(9, 0, 7), op(9, 0, 7)];
    let p = program(&rt, 1, 2, &[&takes, &gives])?;
    let mut m = Machine::start(&p);
    steps(
        &rt,
        &mut m,
        &p,
        &[
            (1, true),
            (1, false),
            (2, true),
            (2, true),
            (1, true),
            (1, true),
            (1, false),
        ],
    );
    assert_eq!(rt; (m.semaphore(7), m.semaphore(6)), (Some(0), Some(1)));
    let mut full = Machine::start(&p);
    steps(&rt, &mut full, &p, &[(2, true), (2, false)]);
    assert_eq!(rt; full.semaphore(7), Some(2));
    assert_eq!(rt; count(&full, 2)?, 1, "a refused step is not counted");
    Ok(())
}

// A held lock waits for its holder, even for the holder itself.
#[test]
fn locks(rt: HostRuntime) -> Result<(), Fail> {
    let twice = [op(10, 0, 3), op(10, 0, 3)];
    let other = [op(11, 0, 3), op(10, 0, 3)];
    let pair = [op(10, 0, 3), op(11, 0, 3)];
    let p = program(&rt, 0, 1, &[&twice, &other, &pair])?;
    let mut m = Machine::start(&p);
    steps(
        &rt,
        &mut m,
        &p,
        &[(2, false), (1, true), (1, false), (2, false), (3, false)],
    );
    assert_eq!(rt; (m.holder(3), m.holder(2)), (Some(1), Some(0)));
    let mut free = Machine::start(&p);
    steps(
        &rt,
        &mut free,
        &p,
        &[(3, true), (2, false), (3, true), (2, false), (1, true)],
    );
    assert_eq!(rt; free.holder(3), Some(1));
    Ok(())
}

// Two threads that take two locks crosswise stop each other.
#[test]
fn deadlock(rt: HostRuntime) -> Result<(), Fail> {
    let p = program(
        &rt,
        0,
        1,
        &[&[op(10, 0, 0), op(10, 0, 1)], &[op(10, 0, 1), op(10, 0, 0)]],
    )?;
    let mut m = Machine::start(&p);
    steps(
        &rt,
        &mut m,
        &p,
        &[(1, true), (2, true), (1, false), (2, false)],
    );
    Ok(())
}

#[test]
fn a_count_at_its_limit(rt: HostRuntime) -> Result<(), Fail> {
    let p = program(&rt, 0, 1, &[&[op(5, 0, 0)]])?;
    let mut m = Machine::start(&p);
    for _ in 0..65535 {
        assert!(rt; m.step(&p, 1));
    }
    assert_eq!(rt; count(&m, 1)?, 65535);
    assert!(rt; m.able(&p, 1) && !m.step(&p, 1));
    assert_eq!(rt; count(&m, 1)?, 65535);
    Ok(())
}

// Three threads read one variable until its reads are at their limit; a write lets them go on.
#[test]
fn reads_at_their_limit(rt: HostRuntime) -> Result<(), Fail> {
    let reads = [op(6, 0, 15), op(5, 0, 0)];
    let p = program(&rt, 0, 1, &[&reads, &reads, &reads, &[op(7, 0, 15)]])?;
    let mut m = Machine::start(&p);
    for (thread, made) in [(1, 32767), (2, 65534), (3, 65535)] {
        for _ in 0..32767 {
            let _ = m.step(&p, thread) && m.step(&p, thread);
        }
        assert_eq!(rt; variable(&m, 15)?, (0, 0, made));
    }
    assert!(rt; m.able(&p, 3) && !m.step(&p, 3));
    assert!(rt; m.step(&p, 4) && m.step(&p, 3));
    assert_eq!(rt; variable(&m, 15)?, (0, 1, 1));
    Ok(())
}
