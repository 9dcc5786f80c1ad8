//! The queries: what a makefile has, a line of JSON for each thing. In them folds are spaces and
//! comments are left out, and a text that is not UTF-8 stands as an object that has it in base64.
//!
//! A line in a conditional names the branch in which it stands, which has an object above:
//!
//! ```text
//! {"file":"config.mk","line":3,"depth":0,"kind":"branch","first":1,"text":"else"}
//! {"file":"config.mk","line":4,"depth":1,"branch":3,"kind":"opaque","text":"X"}
//! ```
ghost use Rattle.mk_tree.specs.Documents.{IsFaithful};

use crate::json_format::line_objects::LineObjects;
use crate::json_format::object::Object;
use crate::listing::{Position, RecipeLine, RuleLine, Rules, is_of, numbered};
use crate::{Caveat, line_caveats};
use mk_class::{Class, Context, Separator};
use mk_tree::{AssignmentRef, Doc, Line, WordTexts};
use std::alloc::{AllocError, Allocator};

/// A line of JSON on each assignment of a makefile in order, for targets or not; of the variable of
/// one name, if one is asked for.
///
/// The file is named as the caller names it:
///
/// ```text
/// {"file":"config.mk","line":5,"depth":0,"modifiers":["export"],"name":"CC","operator":"?=","value":"gcc"}
/// ```
///
/// An assignment for targets has the members `targets` and `separator` before these parts.
///
/// # Errors
///
/// [`AllocError`] if a growth was refused.
pub fn vars_json<A: Allocator, B: Allocator + Copy>(
    alloc: B,
    file: &[u8],
    doc: &Doc<A>,
    name: Option<&[u8]>,
) -> Result<Vec<u8, B>, AllocError> {
    let mut text = Vec::new(alloc);
    let mut objects = LineObjects::new(&alloc, file, doc);
    for (position, line) in numbered(doc) {
        text = put_variable(&mut objects, text, position, name, line)?;
    }
    Ok(text)
}

// Puts the object on a line behind a text, if it is an assignment, of the variable of a name if one is asked
// for.
fn put_variable<A: Allocator, B: Allocator + Copy>(
    objects: &mut LineObjects<'_, A, B>,
    text: Vec<u8, B>,
    position: Position,
    name: Option<&[u8]>,
    line: &Line<A>,
) -> Result<Vec<u8, B>, AllocError> {
    match (line.assignment(), line.target_assignment()) {
        (Some(it), _) if is_of(&it, name) => {
            let object = objects.begin(text, position)?;
            end_assignment(object, &it)
        }
        (_, Some(it)) if is_of(&it.assignment(), name) => {
            let mut object = objects.begin(text, position)?;
            put_targets(&mut object, it.targets(), it.separator())?;
            end_assignment(object, &it.assignment())
        }
        _ => Ok(text),
    }
}

// Puts the parts of an assignment, and ends its object.
fn end_assignment<B: Allocator + Copy>(
    mut object: Object<B>,
    assignment: &AssignmentRef<'_>,
) -> Result<Vec<u8, B>, AllocError> {
    object.texts("modifiers", assignment.modifiers())?;
    object.text("name", assignment.name())?;
    object.string("operator", assignment.flavor().text())?;
    object.text("value", assignment.value())?;
    object.end()
}

// Puts the targets of an assignment or a rule, and what stands after them.
fn put_targets<B: Allocator + Copy>(
    object: &mut Object<B>,
    targets: WordTexts<'_>,
    separator: Separator,
) -> Result<(), AllocError> {
    object.texts("targets", targets)?;
    object.string("separator", separator.text())
}

/// A line of JSON on the line of each rule of a makefile in order; of the rules for one target, if one
/// is asked for. A rule is one whose line is read inside ([`Class::Header`]):
///
/// ```text
/// {"file":"Makefile","line":1,"depth":0,"targets":["a.o"],"separator":":","pattern":"%.o","prerequisites":["%.c"],"order_only":["out"]}
/// ```
///
/// The member `pattern` is that of a static pattern rule alone, and `inline_recipe` that of a rule with
/// a recipe after a `;` alone.
///
/// # Errors
///
/// [`AllocError`] if a growth was refused.
pub fn rules_json<'a, A: Allocator, B: Allocator + Copy>(
    alloc: B,
    file: &[u8],
    doc: &'a Doc<A>,
    target: Option<&'a [u8]>,
) -> Result<Vec<u8, B>, AllocError> {
    let mut text = Vec::new(alloc);
    let mut objects = LineObjects::new(&alloc, file, doc);
    for line in wanted_rules(doc, target) {
        text = put_rule(&mut objects, text, &line)?;
    }
    Ok(text)
}

// Puts the object on the line of a rule behind a text.
fn put_rule<A: Allocator, B: Allocator + Copy>(
    objects: &mut LineObjects<'_, A, B>,
    text: Vec<u8, B>,
    line: &RuleLine<'_, A>,
) -> Result<Vec<u8, B>, AllocError> {
    let rule = &line.rule;
    let mut object = objects.begin(text, line.position)?;
    put_targets(&mut object, rule.targets(), rule.separator())?;
    if let Some(pattern) = rule.pattern() {
        object.text("pattern", pattern)?;
    }
    object.texts("prerequisites", rule.prereqs())?;
    object.texts("order_only", rule.order_only())?;
    if let Some(recipe) = rule.inline_recipe() {
        object.text("inline_recipe", recipe)?;
    }
    object.end()
}

// The rules of a document, for one target if one is asked for.
fn wanted_rules<'a, A: Allocator>(doc: &'a Doc<A>, target: Option<&'a [u8]>) -> Rules<'a, A> {
    match target {
        Some(target) => crate::listing::rule_lines_for(doc, target),
        None => crate::listing::rule_lines(doc),
    }
}

/// A line of JSON on each recipe line of each rule of a makefile in order; of the rules for one target,
/// if one is asked for. Before those of a rule stands the line of [`rules_json`] on it, whose number they have as
/// `rule`.
///
/// Its number among the recipe lines of its rule is the one that edits of recipe lines take:
///
/// ```text
/// {"file":"Makefile","line":1,"depth":0,"targets":["all"],"separator":":","prerequisites":[],"order_only":[]}
/// {"file":"Makefile","line":2,"depth":0,"rule":1,"number":1,"text":"@echo done"}
/// ```
///
/// A recipe after a `;` is none of them: the object on its rule has it.
///
/// # Errors
///
/// [`AllocError`] if a growth was refused.
pub fn recipes_json<'a, A: Allocator, B: Allocator + Copy>(
    alloc: B,
    file: &[u8],
    doc: &'a Doc<A>,
    target: Option<&'a [u8]>,
) -> Result<Vec<u8, B>, AllocError> {
    let mut text = Vec::new(alloc);
    let mut objects = LineObjects::new(&alloc, file, doc);
    for rule in wanted_rules(doc, target) {
        for line in rule.recipe_lines() {
            if line.number == 1 {
                text = put_rule(&mut objects, text, &rule)?;
            }
            text = put_recipe(&mut objects, text, rule.position.number, &line)?;
        }
    }
    Ok(text)
}

// Puts the object on a recipe line of the rule of this number behind a text.
fn put_recipe<A: Allocator, B: Allocator + Copy>(
    objects: &mut LineObjects<'_, A, B>,
    text: Vec<u8, B>,
    rule: usize,
    line: &RecipeLine<'_>,
) -> Result<Vec<u8, B>, AllocError> {
    let mut object = objects.begin(text, line.position)?;
    object.number("rule", rule)?;
    object.number("number", line.number as usize)?;
    object.text("text", line.text)?;
    object.end()
}

/// A line of JSON on each line of a makefile that is kept and not read inside, in order; and then one
/// on what is open at the end, if anything is.
///
/// Such a line is *rough* if it is the line of a rule, and *opaque* otherwise:
///
/// ```text
/// {"file":"config.mk","line":3,"depth":0,"kind":"opaque","text":"$(eval $(call rules,all))"}
/// {"file":"config.mk","kind":"end","conditionals":2,"defines":0}
/// ```
///
/// It asks for a faithful document.
///
/// # Errors
///
/// [`AllocError`] if a growth was refused.
pub fn check_json<A: Allocator, B: Allocator + Copy>(
    alloc: B,
    file: &[u8],
    doc: &Doc<A>,
) -> Result<Vec<u8, B>, AllocError>
    requires faithful { IsFaithful doc.now }
{
    let mut text = Vec::new(alloc);
    let mut objects = LineObjects::new(&alloc, file, doc);
    for (position, line) in numbered(doc) {
        let kind = match line.class() {
            Class::Rough => "rough",
            Class::Opaque => "opaque",
            _ => continue,
        };
        text = put_unread(&mut objects, text, position, kind, line.text())?;
    }
    put_end(alloc, text, file, doc.end_context())
}

// Puts the object on a line of this kind, which is not read inside, behind a text.
fn put_unread<A: Allocator, B: Allocator + Copy>(
    objects: &mut LineObjects<'_, A, B>,
    text: Vec<u8, B>,
    position: Position,
    kind: &str,
    line: &[u8],
) -> Result<Vec<u8, B>, AllocError> {
    let mut object = objects.begin(text, position)?;
    object.string("kind", kind)?;
    object.text("text", line)?;
    object.end()
}

// Puts the object on what is open at the end behind a text, if anything is.
fn put_end<B: Allocator + Copy>(
    alloc: B,
    text: Vec<u8, B>,
    file: &[u8],
    end: Context,
) -> Result<Vec<u8, B>, AllocError> {
    if end.conds() == 0 && end.defines() == 0 {
        return Ok(text);
    }
    let mut object = Object::begin(alloc, text)?;
    object.text("file", file)?;
    object.string("kind", "end")?;
    object.number("conditionals", usize::from(end.conds()))?;
    object.number("defines", end.defines() as usize)?;
    object.end()
}

/// A line of JSON on each line of a makefile that make may read otherwise than it is read here, in
/// order. They are the lines of which [`crate::caveats`] tells, with the same sentences.
///
/// The member `kind` has a word for each sentence:
///
/// ```text
/// {"file":"Makefile","line":5,"depth":0,"kind":"after_conditional","sentence":"make may take this for a recipe line: it may skip the conditional above"}
/// ```
///
/// It asks for a faithful document.
///
/// # Errors
///
/// [`AllocError`] if a growth was refused.
pub fn caveats_json<A: Allocator, B: Allocator + Copy>(
    alloc: B,
    file: &[u8],
    doc: &Doc<A>,
) -> Result<Vec<u8, B>, AllocError>
    requires faithful { IsFaithful doc.now }
{
    let mut text = Vec::new(alloc);
    let mut objects = LineObjects::new(&alloc, file, doc);
    for ((position, _), caveat) in numbered(doc).zip(line_caveats(doc)) {
        if let Some(caveat) = caveat {
            text = put_caveat(&mut objects, text, position, caveat)?;
        }
    }
    Ok(text)
}

// Puts the object on a line with a caveat behind a text.
fn put_caveat<A: Allocator, B: Allocator + Copy>(
    objects: &mut LineObjects<'_, A, B>,
    text: Vec<u8, B>,
    position: Position,
    caveat: Caveat,
) -> Result<Vec<u8, B>, AllocError> {
    let mut object = objects.begin(text, position)?;
    object.string("kind", kind_of(caveat))?;
    object.string("sentence", caveat.sentence())?;
    object.end()
}

/// The line of JSON on the value of the variable of this name:
///
/// ```text
/// {"file":"config.mk","name":"CC","value":"gcc"}
/// ```
///
/// # Errors
///
/// [`AllocError`] if an allocation failed.
pub fn value_json<B: Allocator + Copy>(
    alloc: B,
    file: &[u8],
    name: &[u8],
    value: &[u8],
) -> Result<Vec<u8, B>, AllocError> {
    let mut object = Object::begin(alloc, Vec::new(alloc))?;
    object.text("file", file)?;
    object.text("name", name)?;
    object.text("value", value)?;
    object.end()
}

// The kind of a caveat: a word for its sentence.
fn kind_of(caveat: Caveat) -> &'static str {
    match caveat {
        Caveat::AfterEmpty => "after_empty",
        Caveat::AfterConditional => "after_conditional",
        Caveat::Conditional => "conditional",
        Caveat::Define => "define",
        Caveat::Assignment => "assignment",
        Caveat::Prefix => "prefix",
        Caveat::BareRule => "bare_rule",
    }
}
