// The tour's trace replayed, under schedulers and by permits. The program and its trace, which all of it is about, go from
// call to call as they are.
use anyhow::anyhow;
use machine::Machine;
use program::{Program, Room};
use refusal::Refusal;
use replay::faults::Fault;
use replay::{Ending, Replay};
use schedule::{Scheduler, Seeded, Turn};
use trace::{Room as TraceRoom, Trace};
use worked::{ORDER, WORKED};

// Replays the worked trace in four ways, and one whose counts are wrong.
pub(crate) fn replays(rt: &HostRuntime) -> anyhow::Result<()> {
    let Ok((program, _)) = Program::read(Room::reserve(rt.alloc())?, &WORKED) else {
        return Err(anyhow!("the worked program is refused"));
    };
    let Some(trace) = worked::trace(TraceRoom::reserve(rt.alloc())?, [1, 1, 4]) else {
        return Err(anyhow!("the worked trace is not sound"));
    };
    scheduled(
        rt,
        "each thread in turn",
        &program,
        &trace,
        &mut Turn::new(1),
    )?;
    scheduled(
        rt,
        "the threads chosen by seed 1",
        &program,
        &trace,
        &mut Seeded::new(1),
    )?;
    scheduled(
        rt,
        "the threads chosen by seed 2024",
        &program,
        &trace,
        &mut Seeded::new(2024),
    )?;
    permits(rt, &program, &trace)?;
    let Some(longer) = worked::trace(TraceRoom::reserve(rt.alloc())?, [1, 1, 5]) else {
        return Err(anyhow!("the longer trace is not sound"));
    };
    println!(rt; "A trace that says thread 3 made 5 steps is replayed.")?;
    let mut replay = start(&program, &longer)?;
    ending(rt, &mut replay, &mut Turn::new(1))
}

fn start<'a>(program: &'a Program, trace: &'a Trace) -> anyhow::Result<Replay<'a>> {
    Replay::new(program, trace).map_err(|_| anyhow!("program and trace differ in their threads"))
}

// A whole replay under the scheduler.
fn scheduled<'a, S: Scheduler>(
    rt: &HostRuntime,
    way: &str,
    program: &'a Program,
    trace: &'a Trace,
    scheduler: &mut S,
) -> anyhow::Result<()> {
    println!(rt; "The trace is replayed, {way}.")?;
    let mut replay = start(program, trace)?;
    order(rt, &mut replay, scheduler)?;
    ending(rt, &mut replay, scheduler)?;
    compare(rt, program, replay.machine())
}

// Six runs of one step each, and the threads that stepped.
fn order<S: Scheduler>(
    rt: &HostRuntime,
    replay: &mut Replay,
    scheduler: &mut S,
) -> anyhow::Result<()> {
    print!(rt; "  The threads step in the order")?;
    for _ in ORDER {
        let before = *replay.machine();
        let _ = replay.run(1, scheduler);
        print!(rt; " {}", stepped(&before, replay.machine()))?;
    }
    println!(rt; ".")?;
    Ok(())
}

// The first thread whose count differs; 0 where there is none: it is only printed, as a number, so that an Option would be
// no plainer.
fn stepped(before: &Machine, after: &Machine) -> u8 {
    (1..=8)
        .find(|thread| before.count(*thread) != after.count(*thread))
        .unwrap_or(0)
}

// Runs the rest, and says how the replay ends.
fn ending<S: Scheduler>(
    rt: &HostRuntime,
    replay: &mut Replay,
    scheduler: &mut S,
) -> anyhow::Result<()> {
    match replay.run(u32::MAX, scheduler) {
        Ok(Ending::Complete { steps }) => println!(rt;
            "  The replay is complete after {steps} steps."
        )?,
        Ok(Ending::Spent { steps }) => println!(rt;
            "  The replay is not complete after {steps} steps."
        )?,
        Err(fault) => println!(rt; "  The replay ends: {}.", Refusal::from(fault))?,
    }
    Ok(())
}

// What the threads hold and the variables, and whether the machine is as the run left it.
fn compare(rt: &HostRuntime, program: &Program, machine: &Machine) -> anyhow::Result<()> {
    for thread in 1..=program.threads() {
        if let Some(state) = machine.thread(thread) {
            println!(rt; "  Thread {thread}: r0 is {}", state.registers[0])?;
        }
    }
    variables(rt, machine)?;
    let mut ran = Machine::start(program);
    for thread in ORDER {
        let _ = ran.step(program, thread);
    }
    println!(rt;
        "The machine is the same as after the run: {}.",
        ran == *machine
    )?;
    Ok(())
}

// As in the tour: a function for both would be a library's, with a contract and an edit, for these lines.
fn variables(rt: &HostRuntime, machine: &Machine) -> anyhow::Result<()> {
    println!(rt; "The variables that are not 0:")?;
    for (v, item) in machine.variables().iter().enumerate() {
        if item.value != 0 {
            println!(rt; "  v{v} {}", item.value)?;
        }
    }
    Ok(())
}

// A replay whose first steps are made by permits. Thread 1 reads before thread 3 here: in the run it read after.
fn permits<'a>(rt: &HostRuntime, program: &'a Program, trace: &'a Trace) -> anyhow::Result<()> {
    println!(rt; "The trace is replayed, the first steps by permits.")?;
    let mut replay = start(program, trace)?;
    for thread in [2, 1, 3] {
        match perform(&mut replay, thread) {
            Ok(count) => println!(rt;
                "  A permit for thread {thread} is given and performed: steps made {count}"
            )?,
            Err(fault) => println!(rt;
                "  A permit for thread {thread} is asked for: {}.",
                Refusal::from(fault)
            )?,
        }
    }
    match hold(&mut replay, 3) {
        Ok(_) => println!(rt; "  A run is made while a permit is out.")?,
        Err(fault) => println!(rt;
            "  A permit for thread 3 is given, and a run tried while it is out: {}.",
            Refusal::from(fault)
        )?,
    }
    println!(rt; "  The permit is handed back, and the rest is run, each thread in turn.")?;
    ending(rt, &mut replay, &mut Turn::new(1))?;
    compare(rt, program, replay.machine())
}

// Asks for a permit and performs it. The permit is the one that is out, so that it is proved to be taken. Two lines, as in
// the replays' cases, which are tests and lend nothing.
fn perform(replay: &mut Replay, thread: u8) -> Result<u16, Fault> {
    let permit = replay.request(thread)?;
    Ok(replay.perform(permit).unwrap())
}

// Asks for a permit, tries a run while it is out, and hands it back. The run is refused and alters nothing, so that the
// permit is proved to be taken.
fn hold(replay: &mut Replay, thread: u8) -> Result<Ending, Fault> {
    let permit = replay.request(thread)?;
    let answer = replay.run(1, &mut Turn::new(1));
    replay.hand_back(permit).unwrap();
    answer
}
