// Steps by permit. A permit cannot be let go: each function here performs it or hands it back. Each takes a replay and a
// thread, which are what it is about.
ghost use Rattle.std.specs.Prelude.{◌≡◌, true};
ghost use Rattle.replay.specs.Calls.{holds};
ghost use Rattle.replay.specs.Replays.{shown};

use replay::faults::Fault;
use replay::{Ending, Permit, Replay, Returned};
use schedule::Turn;
use std::test::Fail;

// Hands back the permit that is out.
fn give_back(replay: &mut Replay<'_>, permit: Permit)
    requires { holds (shown replay.old) permit ≡ true }
{
    replay.hand_back(permit).unwrap();
}

// A step of the thread by permit, and the thread's count.
pub fn step(replay: &mut Replay<'_>, thread: u8) -> Result<u16, Fault> {
    let permit = replay.request(thread)?;
    Ok(replay.perform(permit).unwrap())
}

// A permit for the thread, handed back.
pub fn hold(replay: &mut Replay<'_>, thread: u8) -> Result<(), Fault> {
    let permit = replay.request(thread)?;
    give_back(replay, permit);
    Ok(())
}

// What a request for another thread and a run answer while the thread's permit is out.
pub fn while_out(
    replay: &mut Replay<'_>,
    thread: u8,
    other: u8,
) -> Result<(Fault, Result<Ending, Fault>), Fault> {
    let permit = replay.request(thread)?;
    let second = replay.request(other).unwrap_err();
    let run = replay.run(100, &mut Turn::new(1));
    give_back(replay, permit);
    Ok((second, run))
}

// What becomes of a permit in a replay that it is not from.
#[derive(Clone, Copy, PartialEq, Eq, Debug)]
pub enum Fate {
    Performed(u16),
    Taken,
    // why it is not performed, and why it is not taken back
    Refused(Fault, Fault),
}

// What `other`, of which no permit is out, makes of a permit of `own`.
pub fn misplace(own: &mut Replay<'_>, other: &mut Replay<'_>, thread: u8) -> Result<Fate, Fault> {
    let permit = own.request(thread)?;
    // a match, since it is the Ok that ends here, and with its count: neither `?` nor `let .. else` says that
    let Returned {
        permit,
        fault: performed,
    } = match other.perform(permit) {
        Ok(count) => return Ok(Fate::Performed(count)),
        Err(returned) => returned,
    };
    let Err(
        Returned {
            permit,
            fault: handed,
        },
    ) = other.hand_back(permit)
    else {
        return Ok(Fate::Taken);
    };
    give_back(own, permit);
    Ok(Fate::Refused(performed, handed))
}

// What `other`, of which a permit is out, makes of a permit of `own` for another thread or at another step.
pub fn exchange(
    own: &mut Replay<'_>,
    thread: u8,
    other: &mut Replay<'_>,
    others: u8,
) -> Result<(Fault, Fault), Fail> {
    if thread == others && own.steps() == other.steps() {
        return Err(Fail::new("the permits are alike"));
    }
    let permit = own.request(thread)?;
    // a match, since `?` would let the permit go
    let out = match other.request(others) {
        Ok(out) => out,
        Err(fault) => {
            give_back(own, permit);
            return Err(fault.into());
        }
    };
    let Returned {
        permit,
        fault: performed,
    } = other.perform(permit).unwrap_err();
    let Returned {
        permit,
        fault: handed,
    } = other.hand_back(permit).unwrap_err();
    give_back(own, permit);
    give_back(other, out);
    Ok((performed, handed))
}
