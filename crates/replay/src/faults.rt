// Why a call of a replay is refused, or does not end complete.
ghost use Rattle.std.specs.Prelude.{◌≡◌};
ghost use Rattle.replay.specs.Refusals.{refusal};

use refusal::{Layer, Object, Refusal};

#[derive(Clone, Copy, PartialEq, Eq, Debug)]
pub enum Fault {
    // trace and program have not the same number of threads
    Threads,
    // a permit is out
    PermitOut,
    // the thread is not permitted
    NotPermitted,
    // the permit is not the one that is out
    WrongPermit,
    // the lowest thread below its count, its place and, at an event, its object; and the steps of the whole replay
    Stuck {
        thread: u8,
        place: u16,
        object: Option<Object>,
        steps: u32,
    },
    // all counts are reached, and this is the first object with an unused event; and the steps of the whole replay
    Unused {
        object: Object,
        steps: u32,
    },
}

// The number and the parts of the fault.
impl From<Fault> for Refusal {
    ghost from_gives = { λ fault r. r ≡ refusal fault };

    fn from(fault: Fault) -> Refusal {
        let (number, thread, place, object) = match fault {
            Fault::Threads => (11, None, None, None),
            Fault::PermitOut => (12, None, None, None),
            Fault::NotPermitted => (13, None, None, None),
            Fault::WrongPermit => (14, None, None, None),
            Fault::Stuck {
                thread,
                place,
                object,
                ..
            } => (15, Some(thread), Some(place as usize), object),
            Fault::Unused { object, .. } => (16, None, None, Some(object)),
        };
        Refusal {
            number,
            layer: Layer::Replay,
            thread,
            place,
            object,
        }
    }
}
