// Which threads a set has.
ghost use Rattle.std.specs.Prelude.{◌≡◌, if◌then◌else◌, length, nat_eq, slice_get};
ghost use Rattle.std.specs.Option.{unwrap_or};
ghost use Rattle.schedule.specs.Threads.{empty, first_above, found_above, has, threads, with};

use crate::ThreadSet;

impl ThreadSet {
    // The set of the threads at which the array is true.
    pub fn of(offered: [bool; 8]) -> ThreadSet
        ensures { result ≡ record { offered = offered } }
    {
        ThreadSet { offered }
    }

    // Whether the thread is in the set.
    pub fn has(&self, thread: u8) -> bool
        ensures { result ≡ has self.now thread }
    {
        (1..=8).contains(&thread) && self.offered[usize::from(thread) - 1]
    }

    // Whether the thread is in the set once the other one is in it or not, as is said.
    fn has_with(&self, thread: u8, other: u8, is: bool) -> bool
        ensures { result ≡ (if nat_eq thread other then is else has self.now thread) }
    {
        if thread == other {
            is
        } else {
            self.has(thread)
        }
    }

    // The set with the thread, or without it. No element is written, since a load that follows would have to wait for it.
    // Each turn asks it, so that the eight are spelled out: by `map` it took 1.4 times as long where the threads come in no
    // order, and by `from_fn` 2.4 times where they come in turn.
    pub fn with(self, thread: u8, is: bool) -> ThreadSet
        ensures { result ≡ with self thread is }
    {
        ThreadSet::of([
            self.has_with(1, thread, is),
            self.has_with(2, thread, is),
            self.has_with(3, thread, is),
            self.has_with(4, thread, is),
            self.has_with(5, thread, is),
            self.has_with(6, thread, is),
            self.has_with(7, thread, is),
            self.has_with(8, thread, is),
        ])
    }

    // Whether no thread is in the set.
    pub fn is_empty(&self) -> bool
        ensures { result ≡ empty self.now }
    {
        self.len() == 0
    }

    // How many threads are in the set. A sum: `filter` and `count` took twice a loop's time, and each step of a run asks.
    pub fn len(&self) -> u32
        ensures { result ≡ length (threads self.now) }
    {
        self.offered.iter().map(|is| u32::from(*is)).sum()
    }

    // Thread number n of the set, from 0, in rising order. A `for`: each turn under a seed asks it, and a chain with
    // `filter` and `nth` took two to four times as long.
    pub fn nth(&self, n: u32) -> Option<u8>
        ensures { result ≡ slice_get (threads self.now) n }
    {
        let mut left = n;
        for (place, is) in self.offered.iter().enumerate() {
            if *is {
                if left == 0 {
                    return Some(place as u8 + 1);
                }
                left -= 1;
            }
        }
        None
    }

    // The lowest thread of the set that is above the number. A `for`: each turn asks it, and a chain with `find` took 1.8
    // times as long.
    pub fn first_above(&self, number: u8) -> Option<u8>
        ensures found { result ≡ found_above number (threads self.now) }
        ensures number { unwrap_or result 0 ≡ first_above number (threads self.now) }
    {
        for (place, is) in self.offered.iter().enumerate() {
            let thread = place as u8 + 1;
            if *is && thread > number {
                return Some(thread);
            }
        }
        None
    }
}
