// What a scheduler is: it names one of the threads offered, and is told of each step made.
ghost use Rattle.std.specs.Prelude.{◌≡◌, ℕ, true, false};
ghost use Rattle.schedule.specs.declared.ThreadSet.{ThreadSet};
ghost use Rattle.schedule.specs.Threads.{has};

use crate::ThreadSet;

pub trait Scheduler {
    // The thread that it names from a set.
    ghost rule: { Self → ThreadSet → ℕ };

    // What it is once it was told of a step: the set offered, and the thread that was stepped.
    ghost next: { Self → ThreadSet → ℕ → Self };

    // The thread to step next, of those offered.
    fn name(&self, set: ThreadSet) -> u8
        ensures { result ≡ rule self.now set };

    // Tells it that the thread was stepped while the set was offered.
    fn told(&mut self, set: ThreadSet, thread: u8)
        ensures { self.new ≡ next self.old set thread };

    // Where a thread is offered, the thread named is one of those offered.
    ghost chosen: { (s : Self) (set : ThreadSet) (t : ℕ) → has set t ≡ true → has set (rule s set) ≡ true };

    // Where none is offered, 0 is named.
    ghost empty: { (s : Self) (set : ThreadSet) → has set (rule s set) ≡ false → rule s set ≡ 0 };

    // Told of a thread that was not offered, it stays as it is.
    ghost outside: { (s : Self) (set : ThreadSet) (t : ℕ) → has set t ≡ false → next s set t ≡ s };
}
