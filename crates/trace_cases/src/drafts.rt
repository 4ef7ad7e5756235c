// Events, and what becomes of a trace that is filled with them.
use machine::Operation;
use refusal::Object;
use std::process::Abort;
use std::test::Fail;
use trace::access::place_of;
use trace::draft::Draft;
use trace::faults::Fault;
use trace::{Event, Room, Trace};
use worked::build::{read, sync, write};

// One line, as in the replays' cases: a test's own, since it ends in a test's error.
fn draft(rt: &impl AllocGlobal, threads: u8) -> Result<Draft, Fail> {
    Ok(Draft::new(Room::reserve(rt.alloc())?, threads).ok_or("no draft")?)
}

// A trace of three threads with these events of variable 3.
fn of_variable(
    rt: &(impl Abort + AllocGlobal),
    events: &[Event],
) -> Result<Result<Trace, Fault>, Fail> {
    let mut draft = draft(rt, 3)?;
    for event in events {
        assert!(rt; draft.add(3, *event));
    }
    Ok(draft.finish())
}

fn accepted(rt: &(impl Abort + AllocGlobal), events: &[Event]) -> Result<(), Fail> {
    let trace = of_variable(rt, events)??;
    assert!(rt; trace.sequence(Object::Variable(3)) == events);
    Ok(())
}

// The number of the first wrong event.
fn wrong(rt: &(impl Abort + AllocGlobal), events: &[Event], first: usize) -> Result<(), Fail> {
    let fault = of_variable(rt, events)?.err();
    assert_eq!(rt; fault, Some(Fault::Unsound(Object::Variable(3), first)));
    Ok(())
}

#[test]
fn sound_sequences(rt: HostRuntime) -> Result<(), Fail> {
    accepted(&rt, &[])?;
    accepted(&rt, &[read(3, 0), read(1, 0), write(3, 0, 2), read(2, 1)])?;
    accepted(&rt, &[write(1, 0, 0), write(2, 1, 0), write(3, 2, 0)])?;
    accepted(
        &rt,
        &[read(1, 0), write(1, 0, 1), read(2, 1), write(2, 1, 1)],
    )
}

#[test]
fn wrong_versions(rt: HostRuntime) -> Result<(), Fail> {
    wrong(&rt, &[read(1, 1)], 0)?;
    wrong(&rt, &[write(1, 1, 0)], 0)?;
    wrong(&rt, &[write(1, 0, 0), write(1, 0, 0)], 1)?;
    // a late read counts for the total
    wrong(&rt, &[write(1, 0, 0), read(1, 0)], 0)?;
    wrong(&rt, &[write(1, 0, 1), read(1, 0)], 1)?;
    wrong(&rt, &[read(2, 0), write(1, 0, 2), read(3, 0)], 2)
}

#[test]
fn wrong_totals(rt: HostRuntime) -> Result<(), Fail> {
    wrong(&rt, &[write(1, 0, 1)], 0)?;
    wrong(&rt, &[read(1, 0), write(1, 0, 0)], 1)?;
    wrong(&rt, &[read(1, 0), read(1, 0), write(1, 0, 1)], 2)?;
    // reads of other versions do not count
    wrong(
        &rt,
        &[read(1, 0), write(1, 0, 1), read(2, 1), write(2, 1, 2)],
        3,
    )
}

// The first wrong object is named, and too many events come before a wrong one.
#[test]
fn the_first_fault(rt: HostRuntime) -> Result<(), Fail> {
    let mut two = draft(&rt, 1)?;
    assert!(rt; two.add(15, read(1, 9)) && two.add(2, read(1, 0)) && two.add(2, read(1, 5)));
    let fault = two.finish().err();
    assert_eq!(rt; fault, Some(Fault::Unsound(Object::Variable(2), 1)));
    let mut many = draft(&rt, 1)?;
    assert!(rt; many.add(0, read(1, 7)));
    for _ in 0..1024 {
        assert!(rt; many.add(16, sync(1, Operation::P)));
    }
    assert_eq!(rt; many.finish().err(), Some(Fault::TooMany));
    Ok(())
}

#[test]
fn numbers_of_events(rt: HostRuntime) -> Result<(), Fail> {
    for (n, outcome) in [
        (0, Ok(0)),
        (1023, Ok(1023)),
        (1024, Ok(1024)),
        (1025, Err(Fault::TooMany)),
        (2000, Err(Fault::TooMany)),
    ] {
        let mut draft = draft(&rt, 1)?;
        for _ in 0..n {
            assert!(rt; draft.add(31, sync(1, Operation::Lock)));
        }
        let made = draft.finish();
        assert_eq!(rt;
            made.map(|trace| trace.sequence(Object::Lock(7)).len()),
            outcome
        );
    }
    Ok(())
}

// Each kind of event in a place that is not its own, and threads that there are not.
#[test]
fn events_that_do_not_fit(rt: HostRuntime) -> Result<(), Fail> {
    let mut draft = draft(&rt, 2)?;
    for place in [16, 23, 24, 31, 32, 1000] {
        assert!(rt; !draft.add(place, read(1, 0)) && !draft.add(place, write(1, 0, 0)));
    }
    for place in [0, 15, 24, 31, 32] {
        assert!(rt;
            !draft.add(place, sync(1, Operation::P)) && !draft.add(place, sync(1, Operation::V))
        );
    }
    for place in [0, 15, 16, 23, 32] {
        assert!(rt;
            !draft.add(place, sync(1, Operation::Lock))
                && !draft.add(place, sync(1, Operation::Unlock))
        );
    }
    for thread in [0, 3, 255] {
        assert!(rt; !draft.add(0, read(thread, 0)) && !draft.add(20, sync(thread, Operation::V)));
        assert!(rt; !draft.set_count(thread, 1));
    }
    assert!(rt;
        draft.add(15, read(2, 0))
            && draft.add(23, sync(1, Operation::V))
            && draft.add(24, sync(2, Operation::Unlock))
    );
    assert!(rt; draft.set_count(1, 65535) && draft.set_count(2, 7));
    let trace = draft.finish()?;
    assert_eq!(rt;
        (
            trace.threads(),
            trace.count(0),
            trace.count(1),
            trace.count(2),
            trace.count(3),
        ),
        (2, 0, 65535, 7, 0)
    );
    assert_eq!(rt;
        (trace.count(9), *trace.counts()),
        (0, [65535, 7, 0, 0, 0, 0, 0, 0])
    );
    assert!(rt;
        trace.sequence(Object::Semaphore(7)).len() == 1
            && trace.sequence(Object::Lock(0)).len() == 1
    );
    assert!(rt;
        trace.sequence(Object::Variable(16)).is_empty() && trace.sequence_at(32).is_empty()
    );
    Ok(())
}

#[test]
fn numbers_of_threads(rt: HostRuntime) -> Result<(), Fail> {
    for threads in 0..=255u8 {
        let made = Draft::new(Room::reserve(rt.alloc())?, threads).is_some();
        assert_eq!(rt; made, 1 <= threads && threads <= 8);
    }
    Ok(())
}

// Nine boundary values, each written out: a loop over a table of nine pairs would be no shorter.
#[test]
fn places_of_objects(rt: HostRuntime) -> Result<(), Fail> {
    assert_eq!(rt;
        (
            place_of(Object::Variable(0)),
            place_of(Object::Variable(15)),
            place_of(Object::Variable(16)),
        ),
        (0, 15, 32)
    );
    assert_eq!(rt;
        (
            place_of(Object::Semaphore(0)),
            place_of(Object::Semaphore(7)),
            place_of(Object::Semaphore(8)),
        ),
        (16, 23, 32)
    );
    assert_eq!(rt;
        (
            place_of(Object::Lock(0)),
            place_of(Object::Lock(7)),
            place_of(Object::Lock(8)),
        ),
        (24, 31, 32)
    );
    Ok(())
}
