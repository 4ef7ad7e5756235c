// What is used of a trace.
ghost use Rattle.std.specs.Prelude.{◌≡◌, ◌+◌, ◌<◌, length, drop};
ghost use Rattle.following.specs.Cursors.{firsts};
ghost use Rattle.following.specs.Following.{first};
ghost use Rattle.following.specs.View.{Due, before_end, fresh, lifted, marked, next_at, row, spent};

use crate::seek::{first_places, seek};
use crate::spot::Spot;
use std::array;
use trace::access::place_of;
use trace::next::Access;
use trace::{Event, Trace};

// how many variables there are: their sequences stand before all others
const VARIABLES: usize = 16;

// For each variable and thread the place of the thread's first unused event, its cursor; for each semaphore and lock
// how many events are used. The trace is lent to each call: kept here too, a follower would hold it twice.
#[derive(Clone, Copy)]
pub(crate) struct Used {
    cursors: [[u16; 8]; 16],
    fronts: [u16; 16],
}

#[tactic(auto, using(crate::proofs::Lengths::short))]
impl Used {
    // No event is used: each cursor stands at its thread's first event.
    pub(crate) fn none(trace: &Trace) -> Used
        ensures { result ≡ fresh trace.now }
    {
        Used {
            // the closure has a clause, since without one the proof of 16 turns didn't close
            cursors: array::from_fn(
                |place|
                    ensures { result ≡ firsts (row trace.entry.now place) }
                { first_places(trace.sequence_at(place)) },
            ),
            fronts: [0; 16],
        }
    }

    // Where the thread's next event stands in the sequence at the place.
    fn next(&self, spot: Spot) -> u16
        ensures { result ≡ next_at self.now spot.place spot.thread }
    {
        if spot.place < VARIABLES {
            return self.cursors[spot.place][spot.thread as usize - 1];
        }
        self.fronts[spot.place - VARIABLES]
    }

    // The unused event that a step of the thread could use, of the sequence at the place.
    pub(crate) fn due(&self, trace: &Trace, spot: Spot) -> Option<Event>
        ensures { lifted result ≡ first (drop (next_at self.now spot.place spot.thread) (row trace.now spot.place)) }
    {
        trace
            .sequence_at(spot.place)
            .get(self.next(spot) as usize)
            .copied()
    }

    // Marks the event of the thread's access, if it has one, as used.
    pub(crate) fn spend(&mut self, trace: &Trace, thread: u8, access: Option<Access>)
        requires { Due trace.now self.old thread access }
        ensures { self.new ≡ spent trace.now thread access self.old }
    {
        if let Some(access) = access {
            let spot = Spot {
                thread,
                place: place_of(access.object),
            };
            self.mark(trace, spot);
        }
    }

    // Marks the thread's next event in the sequence at the place as used.
    fn mark(&mut self, trace: &Trace, spot: Spot)
        requires { next_at self.old spot.place spot.thread < length (row trace.now spot.place) }
        ensures { self.new ≡ marked self.old spot.place spot.thread (row trace.now spot.place) }
    {
        let next = self.next(spot) + 1;
        if spot.place < VARIABLES {
            let cursor = seek(trace.sequence_at(spot.place), spot.thread, next);
            self.cursors[spot.place][spot.thread as usize - 1] = cursor;
        } else {
            self.fronts[spot.place - VARIABLES] = next;
        }
    }

    // Whether an event of the sequence at the place, a number as the follower's search counts it, is unused.
    pub(crate) fn some_left(&self, trace: &Trace, place: usize) -> bool
        requires { place < 32 }
        ensures { result ≡ before_end self.now place (row trace.now place) }
    {
        let end = trace.sequence_at(place).len();
        if place < VARIABLES {
            return self.cursors[place]
                .iter()
                .any(|cursor| (*cursor as usize) < end);
        }
        (self.fronts[place - VARIABLES] as usize) < end
    }
}
