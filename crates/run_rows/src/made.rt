//! Edits by the calls that make them, beside the lines of scripts that say the same, and how they are shown;
//! and by the calls of a session.

use crate::sessions::{edit_of, said, with_text};
use mk_lines::Fault;
use mk_session::{
    Edit, Flavor, Place, Refusal, RuleSeparator, Session, Site, clone_edit, clone_place,
    is_same_edit, is_same_place,
};
use std::alloc::{AllocError, Allocator};
use test_support::text::number;
use test_support::{Case, Heap};

/// Whether the copy of the edit that the call of a number makes is the edit of a line.
pub fn made(case: &Case<'_>, call: &[u8], line: &[u8]) -> Result<Vec<u8>, Fault> {
    said(case, is_made(case.heap, number(call), line)?)
}

// These are of any allocator, which is cheaper to prove than of one.

fn is_made<A: Allocator + Copy>(alloc: A, number: u64, line: &[u8]) -> Result<bool, Fault> {
    let read = edit_of(alloc, line)?;
    is_made_by(alloc, number, &read)
}

fn is_made_by<A: Allocator + Copy>(alloc: A, number: u64, read: &Edit<A>) -> Result<bool, Fault> {
    let edit = edit_at(alloc, number)?;
    is_copied(&edit, read)
}

fn is_copied<A: Allocator + Copy>(edit: &Edit<A>, read: &Edit<A>) -> Result<bool, Fault> {
    let copy = clone_edit(edit)?;
    Ok(is_same_edit(&copy, read) && copy == *read)
}

/// How the edit of a line is shown: as a derive shows it.
pub fn edit_shown(case: &Case<'_>, line: &[u8]) -> Result<Vec<u8>, Fault> {
    let edit = edit_of(case.alloc, line)?;
    format_edit(case, &edit)
}

fn format_edit(case: &Case<'_>, edit: &Edit) -> Result<Vec<u8>, Fault> {
    Ok(format!(in case.alloc; "{edit:?}")?.into_bytes())
}

/// The edit of a number.
fn edit_at<A: Allocator + Copy>(alloc: A, number: u64) -> Result<Edit<A>, AllocError> {
    match number {
        0 => Edit::set(alloc, b"A", b"b"),
        1 => Edit::append(alloc, b"A", b"b"),
        2 => Edit::add_word(alloc, b"A", b"b"),
        3 => Edit::drop_word(alloc, b"A", b"b"),
        4 => Edit::all_set(alloc, b"A", b"b"),
        5 => Edit::all_append(alloc, b"A", b"b"),
        6 => Edit::all_add_word(alloc, b"A", b"b"),
        7 => Edit::all_drop_word(alloc, b"A", b"b"),
        8 => Edit::unset(alloc, b"A"),
        9 => Edit::unrule(alloc, b"A"),
        10 => Edit::rename(alloc, b"A", b"b"),
        11 => Edit::depend(alloc, b"A", b"b"),
        12 => Edit::depend_order(alloc, b"A", b"b"),
        13 => Edit::undepend(alloc, b"A", b"b"),
        14 => Edit::recipe(alloc, b"A", b"b"),
        15 => Edit::recipe_insert(alloc, b"A", 1, b"b"),
        16 => Edit::recipe_set(alloc, b"A", 1, b"b"),
        17 => Edit::recipe_del(alloc, b"A", 1),
        18 => Edit::recipe_replace(alloc, b"A", b"b", b"c"),
        19 => Edit::recipe_remove(alloc, b"A", b"b"),
        20 => Ok(Edit::set(alloc, b"A", b"b")?.nth(2)),
        21 => place_at(alloc, 0)?.rule(alloc, b"A", RuleSeparator::Single, b"b"),
        22 => place_at(alloc, 0)?.rule(alloc, b"A", RuleSeparator::Double, b"b"),
        28 => Edit::prepend(alloc, b"A", b"b"),
        29 => Edit::replace_word(alloc, b"A", b"b", b"c"),
        30 => Edit::substitute(alloc, b"A", b"b", b"c"),
        31 => Edit::operator(alloc, b"A", Flavor::Simple),
        32 => Edit::add_before(alloc, b"A", b"b", b"c"),
        33 => Edit::add_after(alloc, b"A", b"b", b"c"),
        34 => Site::AtPlace(Place::Top).insert(alloc, b"b"),
        35 => Edit::line_replace(alloc, b"A", b"b"),
        36 => Edit::line_remove(alloc, b"A"),
        37 => Site::AtPlace(place_at(alloc, 24)?).insert(alloc, b"b"),
        38 => Ok(lines_before(alloc)?.insert(alloc, b"b")?.nth(2)),
        39..=46 => each_line_at(alloc, number),
        47 => Site::AtPlace(Place::Top).insert(alloc, b"b\nc"),
        48..=54 => further_at(alloc, number),
        place => place_at(alloc, place)?.assign(alloc, b"A", Flavor::Simple, b"b"),
    }
}

/// The edit of several lines of a number.
fn each_line_at<A: Allocator + Copy>(alloc: A, number: u64) -> Result<Edit<A>, AllocError> {
    match number {
        39 => Edit::all_prepend(alloc, b"A", b"b"),
        40 => Edit::all_replace_word(alloc, b"A", b"b", b"c"),
        41 => Edit::all_substitute(alloc, b"A", b"b", b"c"),
        42 => Edit::all_operator(alloc, b"A", Flavor::Simple),
        43 => Edit::values_substitute(alloc, b"A", b"b"),
        44 => Edit::recipe_substitute(alloc, b"A", b"b", b"c"),
        45 => Edit::recipes_substitute(alloc, b"A", b"b"),
        _ => Ok(Edit::recipe_substitute(alloc, b"A", b"b", b"c")?.nth(2)),
    }
}

/// The edit of one of the further commands of a number.
fn further_at<A: Allocator + Copy>(alloc: A, number: u64) -> Result<Edit<A>, AllocError> {
    match number {
        48 => Edit::set_if(alloc, b"A", b"b", b"c"),
        49 => Edit::all_set_if(alloc, b"A", b"b", b"c"),
        50 => Edit::comment_out(alloc, b"A"),
        51 => Edit::uncomment(alloc, b"A"),
        52 => Edit::depend_replace(alloc, b"A", b"b", b"c"),
        53 => Edit::rule_replace(alloc, b"A", b"b"),
        _ => Edit::rule_remove(alloc, b"A"),
    }
}

/// Before the lines that say a block.
fn lines_before<A: Allocator + Copy>(alloc: A) -> Result<Site<A>, AllocError> {
    let old = Vec::from_slice(alloc, b"A")?;
    Ok(Site::BeforeLines { nth: None, old })
}

/// The copy of the place of a number, which has to be the same.
fn place_at<A: Allocator + Copy>(alloc: A, number: u64) -> Result<Place<A>, AllocError> {
    same_copy(&place_of(alloc, number)?)
}

fn place_of<A: Allocator + Copy>(alloc: A, number: u64) -> Result<Place<A>, AllocError> {
    match number {
        23 => Place::before_var(alloc, b"A"),
        24 => Place::after_var(alloc, b"A"),
        25 => Place::before_rule(alloc, b"A"),
        26 => Ok(Place::before_rule(alloc, b"A")?.nth(2)),
        55 => Place::after_last_var(alloc, b"A"),
        56 => Place::after_rule(alloc, b"A"),
        57 => Ok(Place::Top),
        _ => Ok(Place::Bottom),
    }
}

fn same_copy<A: Allocator + Copy>(place: &Place<A>) -> Result<Place<A>, AllocError> {
    let copy = clone_place(place)?;
    if is_same_place(&copy, place) {
        Ok(copy)
    } else {
        Err(AllocError)
    }
}

/// The text of a session after its call of a number.
pub fn applied<'h>(
    case: &Case<'h>,
    session: &mut Session<&'h Heap>,
    call: &[u8],
) -> Result<Vec<u8>, Fault> {
    match apply_at(session, number(call)) {
        Ok(()) => with_text(case, "", session),
        Err(Refusal::NoMemory) => Err(Fault::NoMemory),
        Err(_) => Err(Fault::Read),
    }
}

/// Makes the call of a number.
// Three calls stand in a function, since where many ways join, all that each of them tells is carried
// through the proof of the others: with all calls in one function that proof took half an hour.
fn apply_at(session: &mut Session<&Heap>, number: u64) -> Result<(), Refusal> {
    match number {
        0 | 1 | 22 => change_value(session, number),
        2 | 3 | 23 => change_word(session, number),
        24 | 26 | 27 => change_beside(session, number),
        4 | 5 | 31 => change_values(session, number),
        6 | 7 | 32 => change_words(session, number),
        33..=35 => change_texts(session, number),
        8 | 20 | 25 => change_assignment(session, number),
        9 | 10 | 21 => change_rule(session, number),
        11..=13 => change_prerequisite(session, number),
        14..=16 => write_recipe(session, number),
        17..=19 => change_recipe(session, number),
        28..=30 => change_lines(session, number),
        36 | 37 => change_recipes(session, number),
        38..=40 => change_named(session, number),
        41 | 42 => switch_line(session, number),
        _ => change_whole_rule(session, number),
    }
}

fn change_value(session: &mut Session<&Heap>, number: u64) -> Result<(), Refusal> {
    match number {
        0 => session.set(b"A", b"b"),
        1 => session.append(b"A", b"b"),
        _ => session.prepend(b"A", b"b"),
    }
}

fn change_word(session: &mut Session<&Heap>, number: u64) -> Result<(), Refusal> {
    match number {
        2 => session.add_word(b"A", b"b"),
        3 => session.drop_word(b"A", b"b"),
        _ => session.replace_word(b"A", b"b", b"c"),
    }
}

fn change_beside(session: &mut Session<&Heap>, number: u64) -> Result<(), Refusal> {
    match number {
        24 => session.substitute(b"A", b"b", b"c"),
        26 => session.add_before(b"A", b"b", b"c"),
        _ => session.add_after(b"A", b"b", b"c"),
    }
}

fn change_values(session: &mut Session<&Heap>, number: u64) -> Result<(), Refusal> {
    match number {
        4 => session.all_set(b"A", b"b"),
        5 => session.all_append(b"A", b"b"),
        _ => session.all_prepend(b"A", b"b"),
    }
}

fn change_words(session: &mut Session<&Heap>, number: u64) -> Result<(), Refusal> {
    match number {
        6 => session.all_add_word(b"A", b"b"),
        7 => session.all_drop_word(b"A", b"b"),
        _ => session.all_replace_word(b"A", b"b", b"c"),
    }
}

fn change_texts(session: &mut Session<&Heap>, number: u64) -> Result<(), Refusal> {
    match number {
        33 => session.all_substitute(b"A", b"b", b"c"),
        34 => session.all_operator(b"A", Flavor::Simple),
        _ => session.values_substitute(b"A", b"b"),
    }
}

fn change_assignment(session: &mut Session<&Heap>, number: u64) -> Result<(), Refusal> {
    match number {
        8 => session.unset(b"A"),
        20 => session.assign(Place::Bottom, b"A", Flavor::Simple, b"b"),
        _ => session.operator(b"A", Flavor::Simple),
    }
}

fn change_rule(session: &mut Session<&Heap>, number: u64) -> Result<(), Refusal> {
    match number {
        9 => session.unrule(b"A"),
        10 => session.rename(b"A", b"b"),
        _ => session.rule(Place::Bottom, b"A", RuleSeparator::Single, b"b"),
    }
}

fn change_prerequisite(session: &mut Session<&Heap>, number: u64) -> Result<(), Refusal> {
    match number {
        11 => session.depend(b"A", b"b"),
        12 => session.depend_order(b"A", b"b"),
        _ => session.undepend(b"A", b"b"),
    }
}

fn write_recipe(session: &mut Session<&Heap>, number: u64) -> Result<(), Refusal> {
    match number {
        14 => session.recipe(b"A", b"b"),
        15 => session.recipe_insert(b"A", 1, b"b"),
        _ => session.recipe_set(b"A", 1, b"b"),
    }
}

fn change_recipe(session: &mut Session<&Heap>, number: u64) -> Result<(), Refusal> {
    match number {
        17 => session.recipe_del(b"A", 1),
        18 => session.recipe_replace(b"A", b"b", b"c"),
        _ => session.recipe_remove(b"A", b"b"),
    }
}

fn change_lines(session: &mut Session<&Heap>, number: u64) -> Result<(), Refusal> {
    match number {
        28 => session.insert(Site::AtPlace(Place::Top), b"A"),
        29 => session.line_replace(b"ifdef B", b"ifndef B"),
        _ => session.line_remove(b"A=b"),
    }
}

fn change_recipes(session: &mut Session<&Heap>, number: u64) -> Result<(), Refusal> {
    match number {
        36 => session.recipe_substitute(b"A", b"b", b"c"),
        _ => session.recipes_substitute(b"A", b"b"),
    }
}

fn change_named(session: &mut Session<&Heap>, number: u64) -> Result<(), Refusal> {
    match number {
        38 => session.set_if(b"A", b"b", b"c"),
        39 => session.all_set_if(b"A", b"b", b"c"),
        _ => session.depend_replace(b"A", b"b", b"c"),
    }
}

fn switch_line(session: &mut Session<&Heap>, number: u64) -> Result<(), Refusal> {
    match number {
        41 => session.comment_out(b"A"),
        _ => session.uncomment(b"A"),
    }
}

fn change_whole_rule(session: &mut Session<&Heap>, number: u64) -> Result<(), Refusal> {
    match number {
        43 => session.rule_replace(b"A", b"b:"),
        _ => session.rule_remove(b"A"),
    }
}
