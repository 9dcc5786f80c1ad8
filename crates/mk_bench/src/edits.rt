//! Edits of a makefile: opens it as a session, and prints the processor time of single edits and of
//! many, in microseconds, with how many lines were read for them.
use mk_class::{Class, Flavor};
use mk_session::{Edit, Place, RuleSeparator, Session};
use std::time::{CpuClock, Duration};

/// How many edits of one kind are made where many are.
const MANY: u32 = 1_000;

/// Prints what a step cost: its time, and how many lines it read.
pub(crate) fn told(
    rt: &HostRuntime,
    step: &str,
    start: Duration,
    before: u64,
    after: u64,
) -> anyhow::Result<()> {
    let now = rt.process_cpu_time()?;
    let micros = now.saturating_sub(start).as_micros();
    println!(rt; "{step} {micros} {}", after.saturating_sub(before))?;
    Ok(())
}

// Makes an edit so many times, and says what all of them cost.
fn applied(
    rt: &HostRuntime,
    session: &mut Session,
    step: &str,
    edits: &[Edit],
    times: u32,
) -> anyhow::Result<()> {
    let before = session.rereads();
    let start = rt.process_cpu_time()?;
    for _ in 0..times {
        for edit in edits {
            session.apply(edit)?;
        }
    }
    told(rt, step, start, before, session.rereads())
}

// How many lines are assignments, by one walk.
fn assignments(session: &Session) -> u64 {
    let mut count = 0u64;
    for line in session.doc().iter() {
        if matches!(line.class(), Class::Assign(_, _)) {
            count = count.saturating_add(1);
        }
    }
    count
}

// Opens a text.
fn opened(rt: &HostRuntime, text: &[u8]) -> anyhow::Result<Session> {
    let start = rt.process_cpu_time()?;
    let session = Session::open(rt.alloc(), text, 10_000)?;
    told(rt, "open", start, 0, session.doc().len() as u64)?;
    Ok(session)
}

// Walks over all lines once.
fn walked(rt: &HostRuntime, session: &Session) -> anyhow::Result<()> {
    let start = rt.process_cpu_time()?;
    let count = assignments(session);
    told(rt, "walk", start, 0, count)
}

// Puts in the lines that are edited later, which is not measured.
fn prepared(session: &mut Session) -> anyhow::Result<()> {
    session.assign(Place::Bottom, b"LAST_OF_ALL", Flavor::Recursive, b"1")?;
    session.rule(Place::Bottom, b"build", RuleSeparator::Single, b"")?;
    Ok(())
}

// Sets the last variable once, and many times to two values in turn.
fn sets(rt: &HostRuntime, session: &mut Session) -> anyhow::Result<()> {
    let values = [
        Edit::set(rt.alloc(), b"LAST_OF_ALL", b"22")?,
        Edit::set(rt.alloc(), b"LAST_OF_ALL", b"3")?,
    ];
    applied(rt, session, "set", &values[..1], 1)?;
    applied(rt, session, "sets", &values, MANY / 2)
}

// Puts many assignments at the end.
fn assigns(rt: &HostRuntime, session: &mut Session) -> anyhow::Result<()> {
    let line = Place::Bottom.assign(rt.alloc(), b"NEW_ONE", Flavor::Recursive, b"value")?;
    applied(rt, session, "assigns", &[line], MANY)
}

// Renames the last target.
fn renames(rt: &HostRuntime, session: &mut Session) -> anyhow::Result<()> {
    let names = Edit::rename(rt.alloc(), b"build", b"output")?;
    applied(rt, session, "rename", &[names], 1)
}

// Undoes all that was done.
fn undos(rt: &HostRuntime, session: &mut Session) -> anyhow::Result<()> {
    let start = rt.process_cpu_time()?;
    let mut undone = 0u64;
    for _ in 0..u64::MAX {
        if session.undo().is_err() {
            break;
        }
        undone = undone.saturating_add(1);
    }
    told(rt, "undos", start, 0, undone)
}

// Edits a makefile, and undoes all.
fn edited(rt: &HostRuntime, session: &mut Session) -> anyhow::Result<()> {
    walked(rt, session)?;
    prepared(session)?;
    sets(rt, session)?;
    assigns(rt, session)?;
    renames(rt, session)?;
    undos(rt, session)
}

/// Measures edits of a makefile.
// The steps are functions of their own, which borrow the session: each way out of a function that owns it
// would drop it, and its proof would take most of the time of this crate's.
pub(crate) fn measure(rt: &HostRuntime, text: &[u8]) -> anyhow::Result<()> {
    let mut session = opened(rt, text)?;
    edited(rt, &mut session)
}
