// A trace of a program that is being followed.
ghost use Rattle.following.specs.View.{Kept};

use crate::stage::Stage;
use program::Program;
use trace::Trace;

mod ends;
mod steps;

#[derive(Drop)]
pub struct Follower<'a> {
    program: &'a Program,
    trace: &'a Trace,
    stage: Stage,
    ghost kept: { ∥ Kept trace.now stage ∥₁ },
}
