// Trace files, whole and damaged, and what the reader and the writer make of each.
use refusal::{Object, Refusal};
use std::process::Abort;
use std::test::Fail;
use trace::{Room, Trace};
use trace_file::read::read;
use trace_file::write::write;

// Number, place and object of a refusal; none where the bytes are a trace.
type Outcome = Option<(u8, Option<usize>, Option<Object>)>;

fn outcome(rt: &HostRuntime, bytes: &[u8]) -> Result<Outcome, Fail> {
    let refusal = read(Room::reserve(rt.alloc())?, bytes)
        .err()
        .map(Refusal::from);
    Ok(refusal.map(|r| (r.number, r.place, r.object)))
}

fn at(number: u8, place: usize) -> Outcome {
    Some((number, Some(place), None))
}

// The worked trace: variable 0 was read by 3 and 1, written by 3, and read by 2. One line, with a test's own error.
fn worked(rt: &impl AllocGlobal) -> Result<Trace, Fail> {
    Ok(worked::trace(Room::reserve(rt.alloc())?, [1, 1, 4]).ok_or("no trace")?)
}

fn worked_file(rt: &(impl Abort + AllocGlobal)) -> Result<[u8; 160], Fail> {
    let mut buffer = [0; 160];
    assert_eq!(rt; write(&worked(rt)?, &mut buffer)?, 160);
    Ok(buffer)
}

// A file of T threads in which only the section at a place has bytes, and all counts are 0.
fn file(rt: &HostRuntime, threads: u8, place: usize, section: &[u8]) -> Result<Vec<u8>, Fail> {
    let mut bytes = [4, 0, threads, 0].to_vec(rt.alloc())?;
    let mut sizes = [0; 33];
    sizes[32] = 2 * u16::from(threads);
    *sizes.get_mut(place).ok_or("no such section")? = u16::try_from(section.len())?;
    let mut offset = 136u16;
    for size in sizes {
        bytes.extend_from_slice(&offset.to_le_bytes())?;
        bytes.extend_from_slice(&size.to_le_bytes())?;
        offset = offset
            .checked_add(size)
            .ok_or("a longer file than there is")?;
    }
    bytes.extend_from_slice(section)?;
    bytes.resize(bytes.len() + 2 * usize::from(threads), 0)?;
    Ok(bytes)
}

fn of_section(rt: &HostRuntime, place: usize, section: &[u8]) -> Result<Outcome, Fail> {
    outcome(rt, file(rt, 3, place, section)?.as_slice())
}

#[test]
fn the_worked_file(rt: HostRuntime) -> Result<(), Fail> {
    let bytes = worked_file(&rt)?;
    assert_eq!(rt; &bytes[0..8], [4, 0, 3, 0, 136, 0, 18, 0].as_slice());
    assert_eq!(rt;
        &bytes[136..154],
        [3, 0, 0, 0, 1, 0, 0, 0, 3, 1, 0, 0, 2, 0, 2, 0, 1, 0].as_slice()
    );
    assert_eq!(rt; &bytes[154..160], [1, 0, 1, 0, 4, 0].as_slice());
    let again = read(Room::reserve(rt.alloc())?, &bytes)?;
    assert_eq!(rt;
        (again.threads(), *again.counts()),
        (3, [1, 1, 4, 0, 0, 0, 0, 0])
    );
    let mut buffer = [170; 170];
    assert_eq!(rt; write(&again, &mut buffer)?, 160);
    assert_eq!(rt; &buffer[0..160], bytes.as_slice());
    assert_eq!(rt; &buffer[160..170], [170; 10].as_slice());
    Ok(())
}

#[test]
fn a_buffer_too_short(rt: HostRuntime) -> Result<(), Fail> {
    let trace = worked(&rt)?;
    let mut buffer = [170; 159];
    let refusal = write(&trace, &mut buffer).err().map(Refusal::from);
    assert_eq!(rt; refusal.map(|r| (r.number, r.place)), Some((17, None)));
    assert_eq!(rt; buffer, [170; 159]);
    let mut none = [];
    assert!(rt; write(&trace, &mut none).is_err());
    Ok(())
}

#[test]
fn lengths_of_the_file(rt: HostRuntime) -> Result<(), Fail> {
    let bytes = worked_file(&rt)?;
    for length in 0..160usize {
        assert_eq!(rt; outcome(&rt, &bytes[0..length])?, at(6, length));
    }
    assert_eq!(rt; outcome(&rt, &longer(&bytes))?, at(6, 160));
    Ok(())
}

fn longer(bytes: &[u8; 160]) -> [u8; 161] {
    let mut more = [0; 161];
    more[0..160].copy_from_slice(bytes);
    more
}

// A byte of the worked file, another value for it, and the refusal.
#[test]
fn header_fields(rt: HostRuntime) -> Result<(), Fail> {
    let bytes = worked_file(&rt)?;
    for (place, value, refusal) in [
        (0, 3, at(5, 0)),
        (0, 5, at(5, 0)),
        (1, 4, at(5, 0)),
        (2, 0, at(6, 2)),
        (2, 9, at(6, 2)),
        (2, 2, at(6, 134)),
        (2, 4, at(6, 134)),
        (3, 1, at(6, 3)),
        (134, 5, at(6, 134)),
        (134, 8, at(6, 134)),
        (135, 1, at(6, 134)),
    ] {
        assert_eq!(rt; outcome(&rt, &changed(&bytes, place, value))?, refusal);
    }
    Ok(())
}

// Each offset wrong, and each length, which makes the next offset wrong.
#[test]
fn pairs(rt: HostRuntime) -> Result<(), Fail> {
    let bytes = worked_file(&rt)?;
    for k in 0..33usize {
        let offset = 4 + 4 * k;
        assert_eq!(rt; outcome(&rt, &changed(&bytes, offset, 1))?, at(6, offset));
        let next = if k == 32 { 134 } else { offset + 4 };
        assert_eq!(rt; outcome(&rt, &changed(&bytes, offset + 2, 1))?, at(6, next));
    }
    Ok(())
}

fn changed(bytes: &[u8; 160], place: usize, value: u8) -> [u8; 160] {
    let mut other = *bytes;
    if place < 160 {
        other[place] = value;
    }
    other
}

// Events of a variable, whole and cut at each byte.
#[test]
fn events_of_variables(rt: HostRuntime) -> Result<(), Fail> {
    let whole = [1, 0, 0, 0, 2, 1, 0, 0, 1, 0];
    assert_eq!(rt; of_section(&rt, 5, &whole)?, None);
    for (length, place) in [
        (1, 137),
        (2, 138),
        (3, 138),
        (5, 141),
        (6, 142),
        (7, 142),
        (8, 144),
        (9, 144),
    ] {
        assert!(rt; length <= whole.len());
        assert_eq!(rt; of_section(&rt, 5, &whole[0..length])?, at(7, place));
    }
    assert_eq!(rt; of_section(&rt, 5, &[0, 0, 0, 0])?, at(7, 136));
    assert_eq!(rt; of_section(&rt, 5, &[4, 0, 0, 0])?, at(7, 136));
    assert_eq!(rt; of_section(&rt, 5, &[1, 0, 0, 0, 4])?, at(7, 140));
    Ok(())
}

// Each kind of event in each kind of section.
#[test]
fn kinds(rt: HostRuntime) -> Result<(), Fail> {
    for (place, low, high) in [
        (0, 0, 1),
        (15, 0, 1),
        (16, 2, 3),
        (23, 2, 3),
        (24, 4, 5),
        (31, 4, 5),
    ] {
        for kind in 0..=6u8 {
            let bytes = [1, kind, 0, 0, 0, 0];
            let size = match kind {
                0 => 4,
                1 => 6,
                _ => 2,
            };
            let expected = if low <= kind && kind <= high {
                None
            } else {
                at(7, 137)
            };
            assert_eq!(rt; of_section(&rt, place, &bytes[0..size])?, expected);
        }
    }
    Ok(())
}

// Event, of variable 3, that bears a wrong number.
fn wrong(event: usize) -> Outcome {
    Some((8, Some(event), Some(Object::Variable(3))))
}

#[test]
fn versions_and_totals(rt: HostRuntime) -> Result<(), Fail> {
    assert_eq!(rt; of_section(&rt, 3, &[1, 0, 1, 0])?, wrong(0));
    assert_eq!(rt; of_section(&rt, 3, &[1, 1, 0, 0, 1, 0])?, wrong(0));
    assert_eq!(rt;
        of_section(&rt, 3, &[1, 0, 0, 0, 1, 1, 0, 0, 1, 0, 1, 0, 0, 0])?,
        wrong(1)
    );
    assert_eq!(rt;
        of_section(&rt, 3, &[1, 0, 0, 0, 1, 1, 0, 0, 2, 0, 1, 0, 0, 0])?,
        wrong(2)
    );
    assert_eq!(rt;
        of_section(&rt, 3, &[1, 0, 0, 0, 1, 1, 0, 0, 1, 0, 1, 0, 1, 0])?,
        None
    );
    Ok(())
}

// So many P of thread 1, in the section of semaphore 0, and then some bytes more.
fn many(rt: &HostRuntime, n: usize, more: &[u8]) -> Result<Outcome, Fail> {
    let mut section = Vec::new(rt.alloc());
    for _ in 0..n {
        section.extend_from_slice(&[1, 2])?;
    }
    section.extend_from_slice(more)?;
    of_section(rt, 16, section.as_slice())
}

// Too many events are refused behind a malformed one.
#[test]
fn numbers_of_events(rt: HostRuntime) -> Result<(), Fail> {
    assert_eq!(rt; many(&rt, 1024, &[])?, None);
    assert_eq!(rt; many(&rt, 1025, &[])?, Some((10, None, None)));
    assert_eq!(rt; many(&rt, 20000, &[])?, Some((10, None, None)));
    assert_eq!(rt; many(&rt, 1025, &[1])?, at(7, 136 + 2051));
    Ok(())
}

#[test]
fn numbers_of_threads(rt: HostRuntime) -> Result<(), Fail> {
    for threads in 1..=8u8 {
        let bytes = file(&rt, threads, 31, &[threads, 4])?;
        assert_eq!(rt; outcome(&rt, bytes.as_slice())?, None);
        let trace = read(Room::reserve(rt.alloc())?, bytes.as_slice())?;
        assert!(rt; trace.threads() == threads && trace.sequence(Object::Lock(7)).len() == 1);
        let other = file(&rt, threads, 31, &[threads + 1, 4])?;
        assert_eq!(rt; outcome(&rt, other.as_slice())?, at(7, 136));
    }
    Ok(())
}
