// Why bytes are no program.
ghost use Rattle.std.specs.Prelude.{◌≡◌};
ghost use Rattle.program.specs.Refusals.{refusal};

use refusal::{Layer, Refusal};

#[derive(Clone, Copy, PartialEq, Eq, Debug)]
pub enum Fault {
    // the first wrong or missing field starts at this place
    Malformed(usize),
}

// The number and the parts of the fault.
impl From<Fault> for Refusal {
    ghost from_gives = { λ f r. r ≡ refusal f };

    fn from(fault: Fault) -> Refusal {
        match fault {
            Fault::Malformed(place) => Refusal {
                number: 1,
                layer: Layer::Machine,
                thread: None,
                place: Some(place),
                object: None,
            },
        }
    }
}
