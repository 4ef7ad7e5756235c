// The bytes are a program, its threads can step in the order, and its run makes the trace.
use crate::build::{bytes, op};
use crate::{ORDER, WORKED, trace};
use machine::Machine;
use program::Program;
use std::test::Fail;
use trace::Room;
use trace::access::place_of;
use trace::draft::Draft;
use trace::next::Access;

// What each step does to a shared object, and the steps of each thread, are those of the trace. The replays' cases record
// any program so; they stand above and lend nothing.
#[test]
fn trace_of_the_run(rt: HostRuntime) -> Result<(), Fail> {
    let (program, taken) = Program::read(program::Room::reserve(rt.alloc())?, &WORKED)?;
    assert_eq!(rt; taken, WORKED.len());
    let mut machine = Machine::start(&program);
    let mut draft = Draft::new(Room::reserve(rt.alloc())?, 3).ok_or("no draft")?;
    for thread in ORDER {
        if let Some(access) = Access::next(&machine, &program, thread) {
            assert!(rt; draft.add(place_of(access.object), access.event));
        }
        assert!(rt; machine.step(&program, thread));
    }
    for thread in 1..=3 {
        assert!(rt; draft.set_count(thread, machine.count(thread)));
    }
    let made = draft.finish()?;
    let given = trace(Room::reserve(rt.alloc())?, [1, 1, 4]).ok_or("no trace")?;
    assert_eq!(rt; *made.counts(), *given.counts());
    for place in 0..32 {
        assert!(rt; made.sequence_at(place) == given.sequence_at(place));
    }
    Ok(())
}

#[test]
fn bytes_of_the_program(rt: HostRuntime) -> Result<(), Fail> {
    let read = [op(6, 0, 0)];
    let bump = [op(6, 0, 0), op(1, 1, 1), op(2, 0, 1), op(7, 0, 0)];
    let bytes = bytes(rt.alloc(), 0, 1, &[&read, &read, &bump])?;
    assert_eq!(rt; bytes.as_slice(), WORKED.as_slice());
    Ok(())
}

// Starts and limits stand in their places, and a number of two bytes with its low byte first.
#[test]
fn bytes_are_read(rt: HostRuntime) -> Result<(), Fail> {
    let text = [op(1, 2, 515), op(11, 0, 7)];
    let bytes = bytes(rt.alloc(), 3, 4, &[&[], &text])?;
    let (program, taken) = Program::read(program::Room::reserve(rt.alloc())?, bytes.as_slice())?;
    assert_eq!(rt; taken, bytes.len());
    assert_eq!(rt; (*program.starts(), *program.limits()), ([3; 8], [4; 8]));
    assert_eq!(rt; program.threads(), 2);
    assert!(rt; program.text(1).is_empty());
    assert_eq!(rt; program.text(2), text.as_slice());
    Ok(())
}

// More than a byte can count is written as 255, which no program has.
#[test]
fn too_many_for_a_byte(rt: HostRuntime) -> Result<(), Fail> {
    let text = [op(1, 0, 0); 256];
    let long = bytes(rt.alloc(), 0, 1, &[&text])?;
    assert_eq!(rt; long.len(), 18 + 4 * 256);
    assert_eq!(rt; long[17], 255);
    assert!(rt; Program::read(program::Room::reserve(rt.alloc())?, long.as_slice()).is_err());
    Ok(())
}
