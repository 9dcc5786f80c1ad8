//! The class of a line as a document stores it: with small numbers for its offsets.
//!
//! A document stores a class for each of its lines, and the whole document is read to be printed.
//! So what stores a class has seven bytes, and fits beside the bytes of the line. It does not hold
//! every class: a class that is not short is stored whole, in a box.
ghost use Rattle.std.specs.Prelude.{◌≡◌, ◌^◌, ◌≤◌, MatchOption};
ghost use Rattle.mk_tree.specs.ShortClasses.{IsLong, IsLongHeader, largest_offset, whole_assignment, whole_class, whole_header};

use mk_class::{Assignment, Class, Flavor, Header, Nesting, Separator};
use mk_lines::split::Span;
use std::mem::size_of;

/// A [`Class`] whose offsets fit in 8 bits. Some classes that few lines have are never short: an
/// assignment for targets, an assignment of the recipe prefix, and a header with a pattern or with
/// an inline recipe.
#[derive(Clone, Copy, Debug, PartialEq, Eq)]
pub(crate) enum ShortClass {
    Endef,
    Body(Nesting),
    Recipe,
    Opaque,
    Blank,
    Comment,
    Assign(Flavor, ShortAssignment),
    DefineHead(bool),
    If,
    Else,
    Endif,
    Directive,
    Rough,
    Header(ShortHeader),
}

const _: () = prove!(size_of::<ShortClass>() == 7);

/// The offsets of an [`Assignment`], with 8 bits each.
#[derive(Clone, Copy, Debug, PartialEq, Eq)]
pub(crate) struct ShortAssignment {
    name_start: u8,
    name_end: u8,
    value_start: u8,
    value_end: u8,
    end: u8,
}

/// A [`Header`] without a pattern and without an inline recipe, with offsets of 8 bits.
#[derive(Clone, Copy, Debug, PartialEq, Eq)]
pub(crate) struct ShortHeader {
    separator: Separator,
    has_order_only: bool,
    targets_end: u8,
    normal_start: u8,
    normal_end: u8,
    head_end: u8,
}

// An offset as a small number; `None` if it does not fit.
fn small(offset: usize) -> Option<u8>
    ensures { MatchOption result (2 ^ 8 ≤ offset) (λ p. p ≡ offset) }
{
    u8::try_from(offset).ok()
}

impl ShortAssignment {
    fn of(assignment: &Assignment) -> Option<ShortAssignment>
        ensures { MatchOption result (2 ^ 8 ≤ largest_offset assignment.now)
            (λ short. whole_assignment assignment.now.flavor short ≡ assignment.now) }
    {
        Some(ShortAssignment {
            name_start: small(assignment.name.start)?,
            name_end: small(assignment.name.end)?,
            value_start: small(assignment.value.start)?,
            value_end: small(assignment.value.end)?,
            end: small(assignment.end)?,
        })
    }

    #[inline(always)]
    fn whole(&self, flavor: Flavor) -> Assignment
        ensures { result ≡ whole_assignment flavor self.now }
    {
        Assignment {
            flavor,
            name: Span {
                start: self.name_start as usize,
                end: self.name_end as usize,
            },
            value: Span {
                start: self.value_start as usize,
                end: self.value_end as usize,
            },
            end: self.end as usize,
        }
    }
}

impl ShortHeader {
    fn of(header: &Header) -> Option<ShortHeader>
        ensures { MatchOption result (IsLongHeader header.now) (λ short.
            whole_header short ≡ header.now) }
    {
        if header.has_pattern || header.has_recipe {
            return None;
        }
        Some(ShortHeader {
            separator: header.separator,
            has_order_only: header.has_order_only,
            targets_end: small(header.targets_end)?,
            normal_start: small(header.normal_start)?,
            normal_end: small(header.normal_end)?,
            head_end: small(header.head_end)?,
        })
    }

    #[inline(always)]
    fn whole(&self) -> Header
        ensures { result ≡ whole_header self.now }
    {
        Header {
            separator: self.separator,
            has_pattern: false,
            has_order_only: self.has_order_only,
            has_recipe: false,
            targets_end: self.targets_end as usize,
            normal_start: self.normal_start as usize,
            normal_end: self.normal_end as usize,
            head_end: self.head_end as usize,
        }
    }
}

impl ShortClass {
    /// A class as it is stored beside the bytes of a line; `None` if it is not short.
    pub(crate) fn of(class: &Class) -> Option<ShortClass>
        ensures { MatchOption result (IsLong class.now) (λ short. whole_class short ≡ class.now) }
    {
        let short = match class {
            Class::Endef => ShortClass::Endef,
            Class::Body(nesting) => ShortClass::Body(*nesting),
            Class::Recipe => ShortClass::Recipe,
            Class::Opaque => ShortClass::Opaque,
            Class::Blank => ShortClass::Blank,
            Class::Comment => ShortClass::Comment,
            Class::Assign(assignment, None) => {
                ShortClass::Assign(assignment.flavor, ShortAssignment::of(assignment)?)
            }
            Class::DefineHead(sets_prefix) => ShortClass::DefineHead(*sets_prefix),
            Class::If => ShortClass::If,
            Class::Else => ShortClass::Else,
            Class::Endif => ShortClass::Endif,
            Class::Directive => ShortClass::Directive,
            Class::Rough => ShortClass::Rough,
            Class::Header(header) => ShortClass::Header(ShortHeader::of(header)?),
            Class::Assign(_, Some(_)) | Class::TargetAssign(_) => return None,
        };
        Some(short)
    }

    /// The class, with its whole offsets.
    #[inline(always)]
    pub(crate) fn whole(&self) -> Class
        ensures { result ≡ whole_class self.now }
    {
        match self {
            ShortClass::Endef => Class::Endef,
            ShortClass::Body(nesting) => Class::Body(*nesting),
            ShortClass::Recipe => Class::Recipe,
            ShortClass::Opaque => Class::Opaque,
            ShortClass::Blank => Class::Blank,
            ShortClass::Comment => Class::Comment,
            ShortClass::Assign(flavor, short) => Class::Assign(short.whole(*flavor), None),
            ShortClass::DefineHead(sets_prefix) => Class::DefineHead(*sets_prefix),
            ShortClass::If => Class::If,
            ShortClass::Else => Class::Else,
            ShortClass::Endif => Class::Endif,
            ShortClass::Directive => Class::Directive,
            ShortClass::Rough => Class::Rough,
            ShortClass::Header(short) => Class::Header(short.whole()),
        }
    }
}
