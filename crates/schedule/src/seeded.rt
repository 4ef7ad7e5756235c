// A choice by numbers that look random, all of them given by a seed.
ghost use Rattle.std.specs.Prelude.{◌≡◌, length};
ghost use Rattle.schedule.specs.Seeds.{scrambled, seed_next, seed_rule, seed_start};
ghost use Rattle.std.proofs.Common.{mod-lt, ⊎_elim, arith, rules};
ghost use Rattle.schedule.specs.Members.{thread_has, some_thread};
ghost use Rattle.std.proofs.lemmas.List.{get_or_past};
ghost use Rattle.std.proofs.lemmas.Bool.{both_ways, cases_lt};
ghost use Rattle.schedule.specs.Threads.{threads};

use crate::ThreadSet;
use crate::scheduler::Scheduler;

// A generator of 32-bit numbers.
#[derive(Clone, Copy)]
pub struct Seeded {
    state: u32,
}

impl Seeded {
    // A seed of 0 counts as 1, since 0 would never change.
    pub fn new(seed: u32) -> Seeded
        ensures { result ≡ seed_start seed }
    {
        Seeded { state: seed.max(1) }
    }
}

// The number after this one.
fn scramble(state: u32) -> u32
    ensures { result ≡ scrambled state }
{
    let a = state ^ (state << 13);
    let b = a ^ (a >> 17);
    b ^ (b << 5)
}

impl Scheduler for Seeded {
    ghost rule = { seed_rule };

    ghost next = { seed_next };

    ghost chosen = { λ s set t e. thread_has set _ (mod-lt s.state (some_thread set t e)) };

    ghost empty = { λ s set f. ⊎_elim (λ h. absurd (both_ways _ f (thread_has set _ (mod-lt s.state h)))) (λ h. get_or_past (threads set) _ 0 (omega arith)) (cases_lt 0 (length (threads set))) };

    ghost outside = { Prim.search rules };

    fn name(&self, set: ThreadSet) -> u8 {
        // 0 where there is none to choose from, by the trait's law `empty`.
        self.state
            .checked_rem(set.len())
            .and_then(|n| set.nth(n))
            .unwrap_or(0)
    }

    fn told(&mut self, set: ThreadSet, thread: u8) {
        if set.has(thread) {
            self.state = scramble(self.state);
        }
    }
}
