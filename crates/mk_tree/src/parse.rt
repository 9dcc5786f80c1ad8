//! A document made of a text.
ghost use Rattle.std.specs.Prelude.{◌≡◌, ◌≢◌, ◌+◌, ◌^◌, ◌<◌, ◌≤◌, [], IfErr, IfOk, IsErrAnd, OnOk, length};
ghost use Rattle.mk_lines.specs.Limits.{max_text};
ghost use Rattle.mk_lines.specs.LogicalLines.{logical_lines};
ghost use Rattle.mk_tree.specs.Counting.{AreCounted};
ghost use Rattle.mk_tree.specs.Faults.{IsParsingFault, IsReadingFault};
ghost use Rattle.mk_tree.specs.Documents.{IsFaithful, IsFaithfulTo, IsTooDeep};
ghost use Rattle.mk_tree.specs.LocatedLines.{size_of};
ghost use Rattle.mk_tree.specs.Unread.{AreReadFrom, AreTooDeep, shown_lines};
ghost use Rattle.mk_tree.specs.UnreadPrefixes.{IsEndOf};

use crate::document::Doc;
use crate::end::DocEnd;
use crate::origin::Origin;
use crate::tree::Tree;
use crate::unread::Unread;
use mk_class::Meter;
use mk_lines::Fault;
use mk_lines::source::MAX_TEXT;
use std::alloc::Allocator;
use std::rc::RcSlice;

impl<A: Allocator + Copy> Doc<A> {
    /// The document of a text, as [`Doc::parse`] gives it, for callers who do not edit it and count no lines.
    ///
    /// # Errors
    ///
    /// The errors of [`Doc::parse`].
    pub fn open(alloc: A, text: &[u8]) -> Result<Doc<A>, Fault>
        ensures long { max_text < length text.now
            → IsErrAnd result (λ fault. fault ≡ Fault.TooLong) }
        ensures faithful { IfOk result (λ doc. IsFaithfulTo doc text.now) }
        ensures own { IfOk result (λ doc. IsFaithful doc) }
        ensures short { IfOk result (λ _. length text.now ≤ max_text) }
        ensures shallow { IfOk result (λ _. IsTooDeep text.now → ⊥) }
        ensures fault { IfErr result (λ fault.
            IsParsingFault (max_text < length text.now) (IsTooDeep text.now) fault) }
    {
        Doc::parse(alloc, text, &mut Meter::new())
    }

    /// The document of a text: its lines, each with its class in the context of the lines before
    /// it. The call adds one to the meter for each line; if it answers a fault, it adds at most one
    /// for each line. The time is linear in the bytes of the text.
    ///
    /// The text is copied once; [`Doc::parse_vec`] copies nothing.
    ///
    /// # Errors
    ///
    /// - [`Fault::TooLong`] if the text has more than 16,777,216 bytes.
    /// - [`Fault::TooDeep`] if more than 256 conditionals are open at once.
    /// - [`Fault::NoMemory`] if a growth was refused.
    pub fn parse(alloc: A, text: &[u8], meter: &mut Meter) -> Result<Doc<A>, Fault>
        ensures long { max_text < length text.now
            → IsErrAnd result (λ fault. fault ≡ Fault.TooLong) }
        ensures faithful { IfOk result (λ doc. IsFaithfulTo doc text.now) }
        ensures own { IfOk result (λ doc. IsFaithful doc) }
        ensures short { IfOk result (λ _. length text.now ≤ max_text) }
        ensures shallow { IfOk result (λ _. IsTooDeep text.now → ⊥) }
        ensures fault { IfErr result (λ fault.
            IsParsingFault (max_text < length text.now) (IsTooDeep text.now) fault) }
        ensures counted { IfOk result (λ doc. AreCounted meter.old (length doc) meter.new) }
        ensures forward { meter.old ≤ meter.new }
        ensures few_read { meter.new ≤ meter.old + length (logical_lines text.now) }
    {
        if MAX_TEXT < text.len() {
            return Err(Fault::TooLong); // before it is copied
        }
        Doc::parse_vec(alloc, Vec::from_slice(alloc, text)?, meter)
    }

    /// The document of a text, as [`Doc::parse`] gives it. The document keeps the text that it is
    /// given, and no line is copied.
    ///
    /// # Errors
    ///
    /// The errors of [`Doc::parse`].
    pub fn parse_vec(alloc: A, text: Vec<u8, A>, meter: &mut Meter) -> Result<Doc<A>, Fault>
        ensures long { max_text < length text.items
            → IsErrAnd result (λ fault. fault ≡ Fault.TooLong) }
        ensures faithful { IfOk result (λ doc. IsFaithfulTo doc text.items) }
        ensures own { IfOk result (λ doc. IsFaithful doc) }
        ensures short { IfOk result (λ _. length text.items ≤ max_text) }
        ensures shallow { IfOk result (λ _. IsTooDeep text.items → ⊥) }
        ensures fault { IfErr result (λ fault.
            IsParsingFault (max_text < length text.items) (IsTooDeep text.items) fault) }
        ensures counted { IfOk result (λ doc. AreCounted meter.old (length doc) meter.new) }
        ensures forward { meter.old ≤ meter.new }
        ensures few_read { meter.new ≤ meter.old + length (logical_lines text.items) }
    {
        let (doc, _) = Doc::parse_with_end(alloc, text, meter)?;
        Ok(doc)
    }

    /// The document of a text, as [`Doc::parse_vec`] gives it, and where its lines end. The end
    /// costs no walk: it is noted while the lines are read.
    ///
    /// # Errors
    ///
    /// The errors of [`Doc::parse`].
    pub fn parse_with_end(
        alloc: A,
        text: Vec<u8, A>,
        meter: &mut Meter,
    ) -> Result<(Doc<A>, DocEnd), Fault>
        ensures long { max_text < length text.items
            → IsErrAnd result (λ fault. fault ≡ Fault.TooLong) }
        ensures faithful { IfOk result (λ r. IsFaithfulTo r.0 text.items) }
        ensures own { IfOk result (λ r. IsFaithful r.0) }
        ensures end { IfOk result (λ r. IsEndOf r.0 r.1) }
        ensures short { IfOk result (λ _. length text.items ≤ max_text) }
        ensures shallow { IfOk result (λ _. IsTooDeep text.items → ⊥) }
        ensures fault { IfErr result (λ fault.
            IsParsingFault (max_text < length text.items) (IsTooDeep text.items) fault) }
        ensures counted { IfOk result (λ r. AreCounted meter.old (length r.0) meter.new) }
        ensures forward { meter.old ≤ meter.new }
        ensures few_read { meter.new ≤ meter.old + length (logical_lines text.items) }
    {
        if text.len() > MAX_TEXT {
            return Err(Fault::TooLong);
        }
        let size = text.len();
        let text = RcSlice::from_vec(text)?;
        let mut lines = Unread::new(alloc, &text);
        let tree = read_tree(&mut lines, BOUND_OF_HEIGHT, meter)?;
        let end = lines.end();
        let origin = Origin::new(text, tree.len());
        Ok((Doc { tree, size, origin }, end))
    }
}

/// A full tree of this height has more lines than a text within the limit has bytes.
const BOUND_OF_HEIGHT: u8 = 25;

/// Reads lines into a tree that is no higher than `height`: as many as fill it, or all that are
/// left. First the lines of its left side are read, then its top, then the lines of its right side.
/// Each line is put into its place as soon as it is read. The two lowest levels, on which three of
/// four lines stand, are read by functions of their own.
fn read_tree<A: Allocator + Copy>(
    lines: &mut Unread<'_, A>,
    height: u8,
    meter: &mut Meter,
) -> Result<Tree<A>, Fault>
    requires high { 2 ≤ height }
    requires fits { size_of (shown_lines lines.old) ≤ max_text }
    ensures read { IfOk result (λ tree. AreReadFrom lines.old tree.0 lines.new) }
    ensures low { IfOk result (λ tree. tree.1 ≤ height) }
    ensures full { IfOk result (λ tree.
        lines.new.lines ≢ [] → (tree.1 ≡ height) × (2 ^ height ≤ length tree.0 + 1)) }
    ensures fault { IfErr result (λ fault. IsReadingFault (AreTooDeep lines.old) fault) }
    ensures counted { IfOk result (λ tree. AreCounted meter.old (length tree.0) meter.new) }
    ensures forward { meter.old ≤ meter.new }
    ensures few_read { meter.new + length lines.new.lines ≤ meter.old + length lines.old.lines }
{
    if height == 2 {
        return read_low(lines, meter);
    }
    let left = read_tree(lines, height - 1, meter)?;
    let Some(line) = lines.read_next(meter)? else {
        return Ok(left);
    };
    let right = read_tree(lines, height - 1, meter)?;
    Ok(Tree::append(left, line, right))
}

/// Reads the first three lines, or all that are left, into a tree that is no higher than two.
fn read_low<A: Allocator + Copy>(
    lines: &mut Unread<'_, A>,
    meter: &mut Meter,
) -> Result<Tree<A>, Fault>
    requires fits { size_of (shown_lines lines.old) ≤ max_text }
    ensures read { IfOk result (λ tree. AreReadFrom lines.old tree.0 lines.new) }
    ensures low { IfOk result (λ tree. tree.1 ≤ 2) }
    ensures full { IfOk result (λ tree.
        lines.new.lines ≢ [] → (tree.1 ≡ 2) × (length tree.0 ≡ 3)) }
    ensures fault { IfErr result (λ fault. IsReadingFault (AreTooDeep lines.old) fault) }
    ensures counted { IfOk result (λ tree. AreCounted meter.old (length tree.0) meter.new) }
    ensures forward { meter.old ≤ meter.new }
    ensures few_read { meter.new + length lines.new.lines ≤ meter.old + length lines.old.lines }
{
    let left = read_leaf(lines, meter)?;
    let Some(line) = lines.read_next(meter)? else {
        return Ok(left);
    };
    let right = read_leaf(lines, meter)?;
    Ok(Tree::join(left, line, right))
}

/// Reads the first line, if one is left, into a tree of its own, which has no sides.
fn read_leaf<A: Allocator + Copy>(
    lines: &mut Unread<'_, A>,
    meter: &mut Meter,
) -> Result<Tree<A>, Fault>
    requires fits { size_of (shown_lines lines.old) ≤ max_text }
    ensures read { IfOk result (λ tree. AreReadFrom lines.old tree.0 lines.new) }
    ensures low { IfOk result (λ tree. tree.1 ≤ 1) }
    ensures full { IfOk result (λ tree.
        lines.new.lines ≢ [] → (tree.1 ≡ 1) × (length tree.0 ≡ 1)) }
    ensures fault { IfErr result (λ fault. IsReadingFault (AreTooDeep lines.old) fault) }
    ensures counted { IfOk result (λ tree. AreCounted meter.old (length tree.0) meter.new) }
    ensures forward { meter.old ≤ meter.new }
    ensures few_read { meter.new + length lines.new.lines ≤ meter.old + length lines.old.lines }
{
    let Some(line) = lines.read_next(meter)? else {
        return Ok(Tree::new());
    };
    Ok(Tree::join(Tree::new(), line, Tree::new()))
}
