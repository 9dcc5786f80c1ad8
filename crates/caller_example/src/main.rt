//! An example: a makefile is looked through and edited, by functions with promises of their own.
#![tactic(auto)]

ghost use Rattle.std.specs.Prelude.{◌≡◌, List, true, None, IfOk, Ok, OnErr, OnOk, Some};
ghost use Rattle.mk_class.specs.ClassedLines.{ClassedLine, classed_lines};
ghost use Rattle.mk_edit_language.specs.Edits.{ChangeValue, One, Set};
ghost use Rattle.mk_history.specs.Machine.{Apply};
ghost use Rattle.mk_session.specs.Sessions.{answer};
ghost use Rattle.caller_example.specs.Migrated.{AreMigrated};

use anyhow::{Context, Result};
use mk::laws::{edits_leave_the_rest, groups_are_taken_back, undo_takes_back_an_edit};
use mk::{
    Edit, Refusal, Session, StdSink, StdSource, assignments, assignments_of, get, read_all,
    rule_lines_for, text_of,
};
use mk_edit_language::laws::outside::edited_lines_stand;
use std::alloc::Global;
use std::env;
use std::fs::File;

/// Makes an edit and takes it back.
fn try_edit(session: &mut Session, edit: &Edit) -> Result<(), Refusal>
    requires no_group { session.old.shown.begun ≡ None }
    ensures same_text { OnOk result (session.new.shown.text ≡ session.old.shown.text) }
{
    undo_takes_back_an_edit();
    session.apply(edit)?;
    session.undo()
}

/// Makes two edits as one and takes them back.
fn try_both(session: &mut Session, both: &[Edit; 2]) -> Result<(), Refusal>
    ensures same_text { OnOk result (session.new.shown.text ≡ session.old.shown.text) }
{
    groups_are_taken_back();
    session.group(both).map_err(|(_, refusal)| refusal)?;
    session.undo()
}

/// Tells whether edits can be made as one, and leaves the text as it was.
fn try_all(session: &mut Session, edits: &[Edit]) -> Result<(), (usize, Refusal)>
    ensures same_text { session.new.shown.text ≡ session.old.shown.text }
{
    session.dry_run(edits)
}

/// Whether a try of some edits leaves the bytes as they were: it always does.
fn is_kept(rt: &HostRuntime, session: &mut Session, edits: &[Edit]) -> Result<bool>
    ensures { IfOk result (λ kept. kept ≡ true) }
{
    let before = text_of(rt.alloc(), session.doc())?;
    let _ = try_all(session, edits);
    let after = text_of(rt.alloc(), session.doc())?;
    Ok(before.as_slice() == after.as_slice())
}

// Sets the value of the assignment of a number.
fn set_nth(
    alloc: Global,
    session: &mut Session,
    nth: u32,
    name: &[u8],
    value: &[u8],
) -> Result<(), Refusal>
    ensures done { OnOk result (answer (Apply (ChangeValue (One (Some nth)) name.now (Set value.now)))
        session.old.shown ≡ Ok session.new.shown) }
    ensures same { OnErr result (session.new.shown ≡ session.old.shown) }
{
    match Edit::set(alloc, name, value) {
        Ok(set) => session.apply(&set.nth(nth)),
        Err(_) => Err(Refusal::NoMemory),
    }
}

// Gives the assignment of a number the new value, if it has the old one: what was migrated still is.
fn migrate_nth(
    alloc: Global,
    session: &mut Session,
    nth: u32,
    name: &[u8],
    old: &[u8],
    new: &[u8],
) -> Result<(), Refusal>
    ensures { (first : List ClassedLine)
        → AreMigrated name.now old.now first (classed_lines session.old.shown.text)
        → AreMigrated name.now old.now first (classed_lines session.new.shown.text) }
{
    edits_leave_the_rest();
    edited_lines_stand();
    if get(session.doc(), Some(nth), name)? == old {
        set_nth(alloc, session, nth, name, new)?;
    }
    Ok(())
}

/// Gives each assignment of a variable that has the old value the new one. If one is refused, those
/// above it are made.
#[tactic(auto, using(crate::proofs::MigrationLemmas::migrated_same))]
fn migrate(
    alloc: Global,
    session: &mut Session,
    name: &[u8],
    old: &[u8],
    new: &[u8],
) -> Result<(), Refusal>
    ensures { AreMigrated name.now old.now (classed_lines session.old.shown.text)
        (classed_lines session.new.shown.text) }
{
    let last = assignments_of(session.doc(), name).last();
    'numbers: for nth in 1..=last.map_or(0, |it| it.nth) {
        migrate_nth(alloc, session, nth, name, old, new)?;
    }
    Ok(())
}

// Tells why an edit is refused, if it is.
fn tell(rt: &HostRuntime, what: &str, made: Result<(), Refusal>) -> Result<()> {
    if let Err(refusal) = made {
        println!(rt; "{what}: refused {} {}", refusal.number(), refusal.name())?;
    }
    Ok(())
}

fn show(rt: &HostRuntime, step: &str, session: &Session) -> Result<()> {
    println!(rt; "== {step}")?;
    Ok(session.doc().write_to(&mut StdSink::new(rt.stdout()))?)
}

// Prints each variable that is assigned more than once, with the numbers of its lines.
fn list(rt: &HostRuntime, session: &Session) -> Result<()> {
    for found in assignments(session.doc()) {
        let name = found.assignment.name();
        let same = assignments_of(session.doc(), name);
        let lines: Vec<usize> = same.map(|it| it.position.number).collect(rt.alloc())?;
        if lines.len() > 1 && lines[0] == found.position.number {
            println!(rt; "{}: {lines:?}", String::from_utf8_lossy(rt.alloc(), name)?)?;
        }
    }
    Ok(())
}

// Puts a recipe line below each rule for a target.
fn clean(rt: &HostRuntime, session: &mut Session) -> Result<()> {
    let last = rule_lines_for(session.doc(), b"clean").last();
    for nth in 1..=last.map_or(0, |rule| rule.nth) {
        let recipe = Edit::recipe(rt.alloc(), b"clean", b"rm -rf build")?.nth(nth);
        tell(rt, "clean", session.apply(&recipe))?;
    }
    Ok(())
}

// Makes two edits as one, and takes them back.
fn edit(rt: &HostRuntime, session: &mut Session) -> Result<()> {
    session.begin()?;
    tell(rt, "set", session.set(b"CC", b"clang"))?;
    tell(rt, "append", session.append(b"CFLAGS", b"-g"))?;
    session.end()?;
    show(rt, "edited", session)?;
    session.undo()?;
    show(rt, "undone", session)
}

// The session is lent to each step: who owns it drops it on each way out.
fn steps(rt: &HostRuntime, session: &mut Session) -> Result<()> {
    list(rt, session)?;
    clean(rt, session)?;
    show(rt, "cleaned", session)?;
    edit(rt, session)?;
    migrate(rt.alloc(), session, b"CC", b"gcc", b"clang")?;
    show(rt, "migrated", session)
}

fn main(rt: HostRuntime) -> Result<()> {
    let path = env::args(&rt)?.nth(1).context("usage: MAKEFILE")?;
    let file = File::open(&rt, path.as_str())?;
    let text = read_all(rt.alloc(), &mut StdSource::new(file))?;
    let mut session = Session::open_vec(rt.alloc(), text, 100)?;
    steps(&rt, &mut session)
}
