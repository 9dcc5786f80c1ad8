//! The edits and groups that can be undone and redone, and those that stand.
//!
//! The session keeps no text of what it was told, and no edit that it cannot undo any more. So the edits are
//! kept beside it, by the same rules: docs/EDITS.md, "Undo and groups".
ghost use Rattle.std.specs.Prelude.{◌≡◌, ◌-◌, ◌||◌, ◌++◌, [], ◌∷◌, IfOk, OnOk, false, is_err, length, map, true};
ghost use Rattle.mk_edit_language.specs.CommandViews.{command_of};
ghost use Rattle.mk_edit_language.specs.EditViews.{edit_of};
ghost use Rattle.mk_history.specs.Machine.{Apply, End, Redo, Undo};
ghost use Rattle.mk_repl.specs.CommandLogs.{AddsLines, Carries, Closes, Follows, HasLines, IsNew, IsOfLog, KeepsUp, KeepsUpUndone};
ghost use Rattle.mk_repl.specs.CommandLogs.{edits_of, newest_first};

use bstr::ByteSlice;
use mk_script::line_of_edit;
use mk_session::{Command, Edit};
use std::alloc::{AllocError, Global};

// An edit, or the edits of a group; the line of its command, or of the group; and the lines of the blocks,
// each with a line feed before it.
#[derive(Drop)]
struct Member {
    edits: Vec<Edit>,
    line: Vec<u8>,
    below: Vec<u8>,
}

impl Member {
    fn new(alloc: Global) -> Member
        ensures { edits_of result ≡ [] }
    {
        Member {
            edits: Vec::new(alloc),
            line: Vec::new(alloc),
            below: Vec::new(alloc),
        }
    }

    // Puts an edit behind those that are there, and its command.
    fn push(&mut self, command: &[u8], edit: Edit) -> Result<(), AllocError>
        ensures { OnOk result (edits_of self.new ≡ edits_of self.old ++ edit_of edit ∷ []) }
    {
        match self.edits.push(edit) {
            Ok(()) => {
                push_command(&mut self.line, &mut self.below, command)?;
                Ok(())
            }
            Err(_) => Err(AllocError),
        }
    }

    // The group is ended.
    fn end(&mut self, alloc: Global) -> Result<(), AllocError>
        ensures { edits_of self.new ≡ edits_of self.old }
    {
        let mut line = Vec::from_slice(alloc, b"begin")?;
        line.extend_from_slice(self.line.as_slice())?;
        line.extend_from_slice(b"; end")?;
        self.line = line;
        Ok(())
    }

    // Puts the member behind a text, behind this word.
    fn put(&self, word: &[u8], text: &mut Vec<u8>) -> Result<(), AllocError> {
        text.extend_from_slice(word)?;
        text.extend_from_slice(self.line.as_slice())?;
        text.extend_from_slice(self.below.as_slice())?;
        text.extend_from_slice(b"\n")
    }
}

// Puts a command behind the lines that are there.
fn push_command(line: &mut Vec<u8>, below: &mut Vec<u8>, command: &[u8]) -> Result<(), AllocError> {
    let mut lines = command.lines();
    if let Some(first) = lines.next() {
        line.extend_from_slice(first.trim_ascii())?;
    }
    for other in lines {
        below.extend_from_slice(b"\n")?;
        below.extend_from_slice(other)?;
    }
    Ok(())
}

// The last of some members goes to others, if there is one.
fn carry(from: &mut Vec<Member>, to: &mut Vec<Member>) -> Result<(), AllocError>
    ensures carries { OnOk result (Carries (newest_first from.old.items) (newest_first to.old.items)
        (newest_first from.new.items) (newest_first to.new.items)) }
    ensures fewer { length from.new.items ≡ length from.old.items - 1 }
{
    match from.pop() {
        Some(member) => match to.push(member) {
            Ok(()) => Ok(()),
            Err(_) => Err(AllocError),
        },
        None => Ok(()),
    }
}

// Puts what can be undone or redone behind a text, the last first, each behind this word.
fn push_members(text: &mut Vec<u8>, word: &[u8], members: &[Member]) -> Result<(), AllocError> {
    for member in members.iter().rev() {
        member.put(word, text)?;
    }
    Ok(())
}

// Puts edits behind a script.
fn push_edits(alloc: Global, script: &mut Vec<u8>, edits: &[Edit]) -> Result<(), AllocError>
    ensures { OnOk result (AddsLines script.old.items (map edit_of edits.now) script.new.items) }
{
    for edit in edits {
        push_edit(alloc, script, edit)?;
    }
    Ok(())
}

// Puts an edit behind a script.
fn push_edit(alloc: Global, script: &mut Vec<u8>, edit: &Edit) -> Result<(), AllocError>
    ensures { OnOk result (AddsLines script.old.items (edit_of edit.now ∷ []) script.new.items) }
{
    let Ok(lines) = line_of_edit(alloc, edit) else {
        return Err(AllocError);
    };
    script.extend_from_slice(lines.as_slice())
}

/// The edits that stand, and those that can be redone.
#[derive(Drop)]
pub struct CommandLog {
    alloc: Global,
    // How many edits or groups can be undone.
    depth: usize,
    // What stands, the last at the end. So many of the first cannot be undone any more.
    done: Vec<Member>,
    floor: usize,
    // What can be redone, the next at the end.
    undone: Vec<Member>,
    // The edits of the open group.
    group: Option<Member>,
    // Whether memory was short, or an edit was made that was not told: nothing is known.
    is_lost: bool,
}

impl CommandLog {
    /// Nothing can be undone or redone yet. The depth is that of the session.
    pub fn new(alloc: Global, depth: usize) -> CommandLog
        ensures { IsNew depth result }
    {
        CommandLog {
            alloc,
            depth,
            done: Vec::new(alloc),
            floor: 0,
            undone: Vec::new(alloc),
            group: None,
            is_lost: false,
        }
    }

    // One edit or group more was made.
    fn push(&mut self, member: Member) -> Result<(), AllocError>
        ensures closes { OnOk result (Closes (edits_of member) self.old self.new) }
        ensures same { IsOfLog self.old self.new }
    {
        match self.done.push(member) {
            Ok(()) => {
                let beyond = self.done.len().saturating_sub(self.depth);
                self.floor = self.floor.max(beyond);
                Ok(())
            }
            Err(_) => Err(AllocError),
        }
    }

    // An edit was made by this command. What was undone cannot be redone any more.
    fn edited(&mut self, command: &[u8], edit: Edit) -> Result<(), AllocError>
        ensures follows { OnOk result (Follows (Apply (edit_of edit)) self.old self.new) }
        ensures same { IsOfLog self.old self.new }
    {
        self.undone.clear();
        if let Some(group) = &mut self.group {
            group.line.extend_from_slice(b"; ")?;
            return group.push(command, edit);
        }
        let mut member = Member::new(self.alloc);
        member.push(command, edit)?;
        self.push(member)
    }

    // The open group was ended. Without edits it leaves nothing.
    fn ended(&mut self) -> Result<(), AllocError>
        ensures follows { OnOk result (Follows End self.old self.new) }
        ensures same { IsOfLog self.old self.new }
    {
        match self.group.take() {
            Some(mut group) if !group.edits.is_empty() => {
                group.end(self.alloc)?;
                self.push(group)
            }
            _ => Ok(()),
        }
    }

    // The last was undone.
    fn undone(&mut self) -> Result<(), AllocError>
        ensures follows { OnOk result (Follows Undo self.old self.new) }
        ensures same { IsOfLog self.old self.new }
        ensures fewer { length self.new.done.items ≡ length self.old.done.items - 1 }
    {
        carry(&mut self.done, &mut self.undone)
    }

    // The next was redone.
    fn redone(&mut self) -> Result<(), AllocError>
        ensures follows { OnOk result (Follows Redo self.old self.new) }
        ensures same { IsOfLog self.old self.new }
    {
        carry(&mut self.undone, &mut self.done)
    }

    // A command was done.
    fn done(&mut self, text: &[u8], command: Command) -> Result<(), AllocError>
        ensures follows { OnOk result (Follows (command_of command) self.old self.new) }
        ensures same { IsOfLog self.old self.new }
    {
        match command {
            Command::Apply(edit) => return self.edited(text, edit),
            Command::Undo => return self.undone(),
            Command::Redo => return self.redone(),
            Command::End => return self.ended(),
            Command::Begin => self.group = Some(Member::new(self.alloc)),
            Command::Cancel => self.group = None,
        }
        Ok(())
    }

    /// A command was done. Its text is a line, or a line and below it those of its blocks.
    pub fn note(&mut self, text: &[u8], command: Command)
        ensures { KeepsUp (command_of command) self.old self.new }
    {
        let noted = self.done(text, command);
        self.keep(noted);
    }

    // Where memory was short nothing is known any more.
    fn keep(&mut self, noted: Result<(), AllocError>)
        ensures { self.new ≡ record self.old { is_lost = self.old.is_lost || is_err noted } }
    {
        if noted.is_err() {
            self.is_lost = true;
        }
    }

    /// Edits were made that are not told.
    pub fn lose(&mut self)
        ensures { self.new.is_lost ≡ true }
    {
        self.is_lost = true;
    }

    /// All was undone that can be.
    pub fn note_reverted(&mut self)
        ensures { KeepsUpUndone self.old self.new }
    {
        while self.done.len() > self.floor {
            let noted = self.undone();
            self.keep(noted);
        }
    }

    /// What can be undone and redone, the last first: a line each, and below it those of its blocks.
    ///
    /// # Errors
    ///
    /// Want of memory, also of a former line.
    pub fn text(&self) -> Result<Vec<u8>, AllocError> {
        if self.is_lost {
            return Err(AllocError);
        }
        let mut text = Vec::new(self.alloc);
        if let Some(group) = &self.group {
            group.put(b"open begin", &mut text)?;
        }
        let done = self.done.as_slice().get(self.floor..).unwrap_or_default();
        push_members(&mut text, b"undo ", done)?;
        push_members(&mut text, b"redo ", self.undone.as_slice())?;
        Ok(text)
    }

    /// The edits that stand, the first of them first, as a script.
    ///
    /// # Errors
    ///
    /// Want of memory, also of a former edit.
    pub fn script(&self) -> Result<Vec<u8>, AllocError>
        ensures known { OnOk result (self.now.is_lost ≡ false) }
        ensures lines { IfOk result (λ script. HasLines self.now script.items) }
    {
        if self.is_lost {
            return Err(AllocError);
        }
        let mut script = Vec::new(self.alloc);
        for member in &self.done {
            push_edits(self.alloc, &mut script, member.edits.as_slice())?;
        }
        if let Some(group) = &self.group {
            push_edits(self.alloc, &mut script, group.edits.as_slice())?;
        }
        Ok(script)
    }
}
