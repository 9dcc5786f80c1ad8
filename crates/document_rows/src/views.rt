//! The parts of lines by name, and lists of lines with their places.

use crate::documents::copied;
use mk_lines::Fault;
use mk_queries::listing::{
    RuleLine, assignment_number, assignments, assignments_of, line_at, numbered, rule_lines,
    rule_lines_for, rule_number, with_conditionals,
};
use mk_tree::{AssignmentRef, Doc, Line, RuleRef, WordTexts, text_of};
use std::alloc::{AllocError, Global};
use std::fmt::{Debug, Write as _};
use test_support::Case;

/// The text of a document.
pub fn text_again(case: &Case<'_>, doc: &Doc) -> Result<Vec<u8>, Fault> {
    copied(case, text_of(case.heap, doc))
}

/// The parts of each line.
pub fn parts(case: &Case<'_>, doc: &Doc) -> Result<Vec<u8>, Fault> {
    let mut shown = Vec::new(case.alloc);
    for line in doc.iter() {
        push_parts(case.alloc, &mut shown, line)?;
        shown.push(b'\n')?;
    }
    Ok(shown)
}

fn push_parts(alloc: Global, shown: &mut Vec<u8>, line: &Line) -> Result<(), AllocError> {
    if let Some(assignment) = line.assignment() {
        return push_assignment(shown, &assignment);
    }
    if let Some(found) = line.target_assignment() {
        push_words(shown, found.targets())?;
        shown.extend_from_slice(found.separator().text().as_bytes())?;
        return push_assignment(shown, &found.assignment());
    }
    if let Some(rule) = line.rule() {
        return push_rule_parts(shown, &rule);
    }
    push_part(shown, line.recipe().unwrap_or(b"-"))?;
    push_part(shown, line.define().unwrap_or(b"-"))?;
    let conditional = format!(in alloc; "{:?}", line.conditional())?;
    shown.extend_from_slice(conditional.as_bytes())
}

/// Pushes a part, and a bar behind it.
fn push_part(shown: &mut Vec<u8>, part: &[u8]) -> Result<(), AllocError> {
    shown.extend_from_slice(part)?;
    shown.extend_from_slice(b"|")
}

fn push_assignment(shown: &mut Vec<u8>, assignment: &AssignmentRef<'_>) -> Result<(), AllocError> {
    push_words(shown, assignment.modifiers())?;
    push_part(shown, assignment.name())?;
    push_part(shown, assignment.flavor().text().as_bytes())?;
    shown.extend_from_slice(assignment.value())
}

fn push_rule_parts(shown: &mut Vec<u8>, rule: &RuleRef<'_>) -> Result<(), AllocError> {
    push_words(shown, rule.targets())?;
    shown.extend_from_slice(rule.separator().text().as_bytes())?;
    push_part(shown, rule.pattern().unwrap_or(b"-"))?;
    push_words(shown, rule.prereqs())?;
    push_words(shown, rule.order_only())?;
    shown.extend_from_slice(rule.inline_recipe().unwrap_or(b"-"))
}

/// Pushes words, with a bar behind each, and one more.
fn push_words(shown: &mut Vec<u8>, words: WordTexts<'_>) -> Result<(), AllocError> {
    for word in words {
        push_part(shown, word)?;
    }
    shown.push(b'|')?;
    Ok(())
}

/// Pushes a value and a text.
fn push<D: Debug>(shown: &mut String, value: &D, text: &[u8]) -> Result<(), AllocError> {
    let text = std::str::from_utf8(text).unwrap_or_default();
    write!(shown, "{value:?} {text} ")
}

/// The positions of the lines of a document, with the bytes at their indices.
pub fn positions(case: &Case<'_>, doc: &Doc) -> Result<Vec<u8>, Fault> {
    let mut shown = String::new(case.alloc);
    for (position, _) in numbered(doc) {
        let place = (position.index, position.number, position.conditionals);
        let text = line_at(doc, position.index).map_or(b"".as_slice(), Line::bytes);
        push(&mut shown, &place, text)?;
    }
    Ok(shown.into_bytes())
}

/// The lines of a document, each with the branches round it: their lines, the first lines of their
/// conditionals, how many conditionals are round these, and the lines of the branches round them.
pub fn branches(case: &Case<'_>, doc: &Doc) -> Result<Vec<u8>, Fault> {
    let mut shown = String::new(case.alloc);
    let mut lines = with_conditionals(case.heap, doc);
    for _ in 0..doc.len() {
        let Some((position, _)) = lines.next_line()? else {
            break;
        };
        push(&mut shown, &position.number, b":")?;
        for it in lines.branches() {
            push(
                &mut shown,
                &(it.line, it.first, it.depth, it.outer),
                it.text,
            )?;
        }
    }
    Ok(shown.into_bytes())
}

/// The lines of a document, each with its numbers as an assignment and as a rule for a target; and those
/// of the index behind the last.
pub fn numbers(case: &Case<'_>, doc: &Doc, target: &[u8]) -> Result<Vec<u8>, Fault> {
    let mut shown = String::new(case.alloc);
    for index in 0..=doc.len() {
        let assignment = assignment_number(doc, index);
        let numbers = (assignment, rule_number(doc, index, target));
        let text = line_at(doc, index).map_or(b"-".as_slice(), Line::text);
        push(&mut shown, &numbers, text)?;
    }
    Ok(shown.into_bytes())
}

/// The assignments of a document, each with the number of its line and its own; then those of a name.
pub fn assignments_in(case: &Case<'_>, doc: &Doc, name: &[u8]) -> Result<Vec<u8>, Fault> {
    let mut shown = String::new(case.alloc);
    for found in assignments(doc) {
        let place = (found.position.number, found.nth);
        push(&mut shown, &place, found.assignment.value())?;
    }
    for found in assignments_of(doc, name) {
        let place = (found.position.number, found.nth);
        push(&mut shown, &place, found.assignment.value())?;
    }
    Ok(shown.into_bytes())
}

/// The rules of a document with their recipe lines, each with the number of its line and its own; then those
/// for a target.
pub fn rules_in(case: &Case<'_>, doc: &Doc, target: &[u8]) -> Result<Vec<u8>, Fault> {
    let mut shown = String::new(case.alloc);
    for rule in rule_lines(doc) {
        push_rule(&mut shown, &rule)?;
    }
    for rule in rule_lines_for(doc, target) {
        push_rule(&mut shown, &rule)?;
    }
    Ok(shown.into_bytes())
}

fn push_rule(shown: &mut String, rule: &RuleLine<'_>) -> Result<(), AllocError> {
    push(shown, &(rule.position.number, rule.nth), b"rule")?;
    for line in rule.recipe_lines() {
        push(shown, &(line.position.number, line.number), line.text)?;
    }
    Ok(())
}
