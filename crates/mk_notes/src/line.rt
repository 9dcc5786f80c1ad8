//! What notes ask of one line.

use mk_class::{Class, Flavor};
use mk_edit_parts::address::Address;
use mk_edit_parts::comment::says_name;
use mk_edit_parts::text::is_prefix_name;
use mk_script::spelling::are_alike;
use mk_tree::Line;
use std::alloc::Allocator;

/// The byte order mark of UTF-8, which some editors put at the front of a file.
const BYTE_ORDER_MARK: &[u8] = b"\xef\xbb\xbf";

/// What follows the blanks at the front of a text.
pub(crate) fn after_blanks(text: &[u8]) -> &[u8] {
    for (at, byte) in text.iter().enumerate() {
        if !matches!(*byte, b' ' | b'\t') {
            return &text[at..];
        }
    }
    &[]
}

/// What is said of a line besides its text, if anything is: why it is no assignment or rule for an edit.
pub(crate) fn kind<A: Allocator>(line: &Line<A>) -> Option<&'static str> {
    if line.text().starts_with(BYTE_ORDER_MARK) {
        return Some("behind a byte order mark");
    }
    match line.class() {
        Class::Body(_) => Some("in a define"),
        Class::DefineHead(_) => Some("a define"),
        Class::Recipe => Some("in a recipe"),
        Class::Opaque => Some("opaque"),
        Class::Rough => Some("rough"),
        Class::TargetAssign(_) => Some("for a target"),
        _ => None,
    }
}

/// Whether a line is one that an address means by its name, whatever its number.
pub(crate) fn is_named<A: Allocator>(line: &Line<A>, address: Address<'_>) -> bool {
    match address {
        Address::Variable(_, name) | Address::LastVariable(name) => {
            line.assignment().is_some_and(|it| it.name() == name)
        }
        Address::Valued(_, name, value) => line
            .assignment()
            .is_some_and(|it| it.name() == name && it.value() == value),
        Address::Commented(_, name) => says_name(line, name),
        Address::Rule(_, target) => line
            .rule()
            .is_some_and(|rule| rule.targets().any(|word| word == target)),
    }
}

/// Whether a line assigns the variable of this name, or defines it.
pub(crate) fn gives<A: Allocator>(line: &Line<A>, name: &[u8]) -> bool {
    line.define() == Some(name) || is_named(line, Address::Variable(None, name))
}

/// Whether a line gives the variable of this name another value, whatever value it has: `?=` and `+=` do
/// not, nor does a value with a reference to it.
pub(crate) fn gives_anew<A: Allocator>(line: &Line<A>, name: &[u8]) -> bool {
    gives(line, name)
        && !line.assignment().is_some_and(|it| {
            matches!(it.flavor(), Flavor::Conditional | Flavor::Append)
                || refers_to(it.value(), name)
        })
}

// Whether a value has a reference to the variable of this name, as `$(X) -g` and `$(X:.c=.o)` have.
fn refers_to(value: &[u8], name: &[u8]) -> bool {
    value.iter().enumerate().any(|(at, byte)| {
        let behind = value.get(at.saturating_add(1)..);
        *byte == b'$' && behind.is_some_and(|text| is_reference(text, name))
    })
}

// Whether a text behind a `$` begins as a reference to the variable of this name.
fn is_reference(text: &[u8], name: &[u8]) -> bool {
    match text {
        [b'(' | b'{', rest @ ..] => rest
            .strip_prefix(name)
            .is_some_and(|end| matches!(end, [b')' | b'}' | b':', ..])),
        _ => name.len() == 1 && text.starts_with(name),
    }
}

/// Whether a line seems to assign the variable of this name where no edit finds it: the line is opaque, or
/// has a byte order mark before the name.
pub(crate) fn may_give<A: Allocator>(line: &Line<A>, name: &[u8]) -> bool {
    !matches!(line.class(), Class::Body(_) | Class::Recipe)
        && is_unread(line, Address::Variable(None, name))
}

/// Whether a line says that make may read another text than the lines that edits find: it begins a
/// conditional, is opaque, or has a byte order mark at its front.
pub(crate) fn is_doubtful<A: Allocator>(line: &Line<A>) -> bool {
    matches!(line.class(), Class::If | Class::Opaque) || line.text().starts_with(BYTE_ORDER_MARK)
}

/// Whether a line sets the recipe prefix in a way that is not read.
pub(crate) fn hides_prefix<A: Allocator>(line: &Line<A>) -> bool {
    match line.class() {
        Class::Assign(_, None) => line
            .assignment()
            .is_some_and(|it| is_prefix_name(it.name())),
        Class::DefineHead(is_prefix) => is_prefix,
        _ => false,
    }
}

/// Whether a line is that of a rule for this target, or an assignment for it.
pub(crate) fn has_target<A: Allocator>(line: &Line<A>, target: &[u8]) -> bool {
    is_for_target(line, target) || is_named(line, Address::Rule(None, target))
}

/// Whether a line assigns a variable, or is that of a rule for a target, whose name is another one than
/// that of an address, but spelled alike.
pub(crate) fn is_near<A: Allocator>(line: &Line<A>, address: Address<'_>) -> bool {
    match address {
        Address::Variable(_, name) | Address::LastVariable(name) | Address::Valued(_, name, _) => {
            line.assignment()
                .is_some_and(|it| is_near_word(it.name(), name))
        }
        Address::Commented(..) => false,
        Address::Rule(_, target) => line.rule().is_some_and(|rule| rule
            .targets()
            .any(|word| is_near_word(word, target))),
    }
}

/// Whether the name of an address stands in a line where no edit looks.
pub(crate) fn is_hidden<A: Allocator>(line: &Line<A>, address: Address<'_>) -> bool {
    match address {
        Address::Variable(_, name) | Address::LastVariable(name) | Address::Valued(_, name, _) => {
            line.define() == Some(name) || is_for_targets(line, name) || is_unread(line, address)
        }
        Address::Commented(..) => false,
        Address::Rule(_, target) => is_for_target(line, target) || is_unread(line, address),
    }
}

// Whether a word is another one that is spelled alike.
fn is_near_word(word: &[u8], other: &[u8]) -> bool {
    are_alike(other, word) && other != word
}

// Whether a line is an assignment for this target.
fn is_for_target<A: Allocator>(line: &Line<A>, target: &[u8]) -> bool {
    line.target_assignment()
        .is_some_and(|it| it.targets().any(|word| word == target))
}

// Whether a line assigns a variable of this name for targets.
fn is_for_targets<A: Allocator>(line: &Line<A>, name: &[u8]) -> bool {
    line.target_assignment()
        .is_some_and(|it| it.assignment().name() == name)
}

// Whether a line is not read inside and begins as one of an address does, maybe behind a byte order mark.
fn is_unread<A: Allocator>(line: &Line<A>, address: Address<'_>) -> bool {
    let text = line.text();
    let is_kept = matches!(
        line.class(),
        Class::Body(_) | Class::Recipe | Class::Opaque | Class::Rough
    );
    (is_kept && leads(address, text))
        || text
            .strip_prefix(BYTE_ORDER_MARK)
            .is_some_and(|rest| leads(address, rest))
}

// Whether a text begins with the name of an address and an operator or a separator, with blanks round the
// name. `export` or `override` may stand before a variable.
fn leads(address: Address<'_>, text: &[u8]) -> bool {
    let text = after_blanks(text);
    match address {
        Address::Variable(_, name)
        | Address::LastVariable(name)
        | Address::Valued(_, name, _)
        | Address::Commented(_, name) => {
            let text = text.strip_prefix(b"override ").unwrap_or(text);
            let text = text.strip_prefix(b"export ").unwrap_or(text);
            text.strip_prefix(name)
                .is_some_and(|rest| is_assigning(rest))
        }
        Address::Rule(_, target) => text.strip_prefix(target).is_some_and(|rest| matches!(
            after_blanks(rest),
            [b':', ..] | [b'&', b':', ..]
        )),
    }
}

/// Whether a text begins with the operator of an assignment, maybe behind blanks.
pub(crate) fn is_assigning(text: &[u8]) -> bool {
    matches!(
        after_blanks(text),
        [b'=', ..]
            | [b':' | b'+' | b'?' | b'!', b'=', ..]
            | [b':', b':', b'=', ..]
            | [b':', b':', b':', b'=', ..]
    )
}
