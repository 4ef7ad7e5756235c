// The second part of the tour: the run as a trace, and the trace as a file.
use anyhow::anyhow;
use refusal::{Object, Refusal};
use trace::{Event, Room, Trace};
use trace_file::read::read;
use trace_file::write::write;

// Makes the trace of the run, writes it, reads it back, and shows two files refused.
pub(crate) fn keep(rt: &HostRuntime) -> anyhow::Result<()> {
    println!(rt; "The run's trace is made.")?;
    let Some(trace) = worked::trace(Room::reserve(rt.alloc())?, [1, 1, 4]) else {
        return Err(anyhow!("the worked trace is not sound"));
    };
    say(rt, &trace)?;
    let mut buffer = [0; 160];
    match write(&trace, &mut buffer) {
        Err(fault) => println!(rt; "  {}", Refusal::from(fault))?,
        Ok(length) => {
            println!(rt; "It is written as a file of {length} bytes.")?;
            print!(rt; "  The section of v0:")?;
            for event in [
                &buffer[136..140],
                &buffer[140..144],
                &buffer[144..150],
                &buffer[150..154],
            ] {
                hexadecimal(rt, event)?;
            }
            println!(rt; "")?;
            open(rt, "The file", &buffer)?;
            damage(rt, &buffer)?;
        }
    }
    Ok(())
}

// What a trace has of variable 0, and its counts.
fn say(rt: &HostRuntime, trace: &Trace) -> anyhow::Result<()> {
    for event in trace.sequence(Object::Variable(0)) {
        match event {
            Event::Read { thread, version } => println!(rt;
                "  v0: thread {thread} read version {version}"
            )?,
            Event::Write {
                thread,
                version,
                reads,
            } => {
                println!(rt;
                    "  v0: thread {thread} wrote over version {version}, after {reads} reads"
                )?;
            }
            Event::Sync { .. } => {}
        }
    }
    for thread in 1..=trace.threads() {
        println!(rt; "  thread {thread}: steps made {}", trace.count(thread))?;
    }
    Ok(())
}

fn hexadecimal(rt: &HostRuntime, bytes: &[u8]) -> anyhow::Result<()> {
    print!(rt; " ")?;
    for byte in bytes {
        print!(rt; "{byte:02x}")?;
    }
    Ok(())
}

// Reads a file, and writes what was read once more.
fn open(rt: &HostRuntime, name: &str, bytes: &[u8; 160]) -> anyhow::Result<()> {
    match read(Room::reserve(rt.alloc())?, bytes) {
        Err(fault) => println!(rt; "{name} is read: {}.", Refusal::from(fault))?,
        Ok(trace) => {
            println!(rt; "{name} is read.")?;
            say(rt, &trace)?;
            let mut buffer = [0; 160];
            let same = write(&trace, &mut buffer).is_ok() && buffer == *bytes;
            println!(rt; "  Written again it is the same bytes: {same}.")?;
        }
    }
    Ok(())
}

// A file of another version, and one in which a thread is 9.
fn damage(rt: &HostRuntime, bytes: &[u8; 160]) -> anyhow::Result<()> {
    let mut older = *bytes;
    older[0] = 3;
    open(rt, "A file of version 3", &older)?;
    let mut damaged = *bytes;
    damaged[140] = 9;
    open(rt, "A damaged file", &damaged)
}
