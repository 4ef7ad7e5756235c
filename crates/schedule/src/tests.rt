// Worked sequences, and the ends of a set.
use crate::{Scheduler, Seeded, ThreadSet, Turn};

// The set of all threads.
fn all() -> ThreadSet {
    ThreadSet::of([true; 8])
}

// The empty set.
fn none() -> ThreadSet {
    ThreadSet::of([false; 8])
}

// The set of threads 2, 5 and 8.
fn three() -> ThreadSet {
    ThreadSet::of([false, true, false, false, true, false, false, true])
}

// The first eight threads that a scheduler names from a set, told of each.
fn eight<S: Scheduler>(s: &mut S, set: ThreadSet) -> [u8; 8] {
    let mut named = [0; 8];
    for place in named.iter_mut() {
        let thread = s.name(set);
        s.told(set, thread);
        *place = thread;
    }
    named
}

#[test]
fn sets(rt: HostRuntime) {
    assert!(rt; !all().has(0) && all().has(1) && all().has(8) && !all().has(9));
    assert!(rt; three().has(5) && !three().has(4));
    assert!(rt; none().is_empty() && !three().is_empty());
    assert!(rt; none().len() == 0 && three().len() == 3);
    assert!(rt; three().nth(0) == Some(2) && three().nth(2) == Some(8) && three().nth(3).is_none());
    assert!(rt; three().first_above(2) == Some(5) && three().first_above(8).is_none());
}

#[test]
fn turns_of_one(rt: HostRuntime) {
    assert_eq!(rt; eight(&mut Turn::new(0), all()), [1, 2, 3, 4, 5, 6, 7, 8]);
    assert_eq!(rt; eight(&mut Turn::new(1), three()), [2, 5, 8, 2, 5, 8, 2, 5]);
}

#[test]
fn turns_of_two(rt: HostRuntime) {
    assert_eq!(rt; eight(&mut Turn::new(2), all()), [1, 1, 2, 2, 3, 3, 4, 4]);
    assert_eq!(rt; eight(&mut Turn::new(2), three()), [2, 2, 5, 5, 8, 8, 2, 2]);
}

// A turn ends where its thread is not offered, and goes on where nothing else is told.
#[test]
fn turns_of_changing_sets(rt: HostRuntime) {
    let mut s = Turn::new(2);
    s.told(all(), 5);
    assert!(rt; s.name(three()) == 5);
    s.told(three(), 4);
    s.told(none(), 5);
    assert!(rt; s.name(three()) == 5 && s.name(none()) == 0);
    s.told(three(), 5);
    assert!(rt; s.name(three()) == 8);
    s.told(three(), 8);
    s.told(all(), 1);
    assert!(rt; s.name(three()) == 2);
}

#[test]
fn seeds(rt: HostRuntime) {
    assert_eq!(rt; eight(&mut Seeded::new(0), all()), [2, 2, 2, 6, 8, 2, 1, 3]);
    assert_eq!(rt; eight(&mut Seeded::new(1), all()), [2, 2, 2, 6, 8, 2, 1, 3]);
    assert_eq!(rt;
        eight(&mut Seeded::new(12345), three()),
        [2, 8, 2, 5, 8, 8, 2, 2]
    );
}

#[test]
fn seeds_outside(rt: HostRuntime) {
    let mut s = Seeded::new(12345);
    s.told(three(), 4);
    s.told(none(), 2);
    assert!(rt; s.name(three()) == 2 && s.name(none()) == 0);
    s.told(three(), 8);
    assert!(rt; s.name(three()) == 8);
}
