//! An object of JSON, member by member.
//!
//! What a line does not have, its object does not have: `select(.targets)` of `jq` takes an empty
//! list for true. JSON has no strings of bytes. So a text that is not UTF-8 is written in base64:
//! with replacement characters two texts would look the same.
ghost use Rattle.std.specs.Prelude.{◌≡◌, [], ◌∷◌, ◌++◌, IfOk, OnOk, codes, true};
ghost use Rattle.json.specs.Lex.{tokens};
ghost use Rattle.json.specs.Print.{print};
ghost use Rattle.json.specs.Token.{begin_object, end_object, boolean, key};
ghost use Rattle.mk_queries.specs.TextLines.{base64_tokens, text_tokens};

use base64::engine::general_purpose::STANDARD;
use json::Writer;
use mk_tree::WordTexts;
use std::alloc::{AllocError, Allocator};
use std::str::from_utf8;

/// An object that is written behind a text, and ends with its line.
///
/// # Errors
///
/// Each call answers [`AllocError`] if an allocation failed, and the object is given up then.
#[derive(Drop)]
pub struct Object<A: Allocator> {
    alloc: A,
    writer: Writer<A>,
}

impl<A: Allocator + Copy> Object<A> {
    /// Begins an object behind a text.
    pub fn begin(alloc: A, text: Vec<u8, A>) -> Result<Object<A>, AllocError>
        ensures before { IfOk result (λ object. object.writer.before ≡ text.items) }
        ensures tokens { IfOk result (λ object. object.writer.tokens ≡ begin_object ∷ []) }
    {
        let mut writer = Writer::new(text);
        writer.begin_object()?;
        Ok(Object { alloc, writer })
    }

    /// Ends the object and its line, and gives the text back.
    pub fn end(self) -> Result<Vec<u8, A>, AllocError>
        ensures text { let object = self.writer.tokens ++ end_object ∷ [] in
            IfOk result (λ text. text.items ≡ self.writer.before ++ print object ++ codes "\n") }
        ensures reads_back { let object = self.writer.tokens ++ end_object ∷ [] in
            OnOk result (tokens (print object) ≡ object) }
    {
        let Object { mut writer, .. } = self;
        writer.end_object()?;
        let mut text = writer.into_inner();
        text.push(b'\n')?;
        Ok(text)
    }

    // Puts a text: a string if it is UTF-8, and otherwise an object that has it in base64.
    fn value(&mut self, text: &[u8]) -> Result<(), AllocError>
        ensures before { self.new.writer.before ≡ self.old.writer.before }
        ensures tokens { OnOk result
            (self.new.writer.tokens ≡ self.old.writer.tokens ++ text_tokens text.now) }
    {
        match from_utf8(text) {
            Ok(text) => self.writer.string(text),
            Err(_) => self.base64(text),
        }
    }

    // Puts an object that has a text in base64.
    fn base64(&mut self, text: &[u8]) -> Result<(), AllocError>
        ensures before { self.new.writer.before ≡ self.old.writer.before }
        ensures tokens { OnOk result
            (self.new.writer.tokens ≡ self.old.writer.tokens ++ base64_tokens text.now) }
    {
        let encoded = STANDARD.encode(self.alloc, text)?;
        self.writer.begin_object()?;
        self.writer.key("base64")?;
        self.writer.string(&encoded)?;
        self.writer.end_object()
    }

    /// Puts a member that is a text.
    pub fn text(&mut self, name: &str, text: &[u8]) -> Result<(), AllocError>
        ensures before { self.new.writer.before ≡ self.old.writer.before }
        ensures tokens { OnOk result (self.new.writer.tokens
            ≡ self.old.writer.tokens ++ key name.now ∷ text_tokens text.now) }
    {
        self.writer.key(name)?;
        self.value(text)
    }

    /// Puts a member that is an array of texts.
    pub fn texts(&mut self, name: &str, words: WordTexts<'_>) -> Result<(), AllocError> {
        self.writer.key(name)?;
        self.writer.begin_array()?;
        self.values(words)?;
        self.writer.end_array()
    }

    // Puts texts, one after the other.
    fn values(&mut self, words: WordTexts<'_>) -> Result<(), AllocError> {
        for word in words {
            self.value(word)?;
        }
        Ok(())
    }

    /// Puts a member that is a string.
    pub fn string(&mut self, name: &str, text: &str) -> Result<(), AllocError> {
        self.writer.key(name)?;
        self.writer.string(text)
    }

    /// Puts a member that is a number.
    pub fn number(&mut self, name: &str, number: usize) -> Result<(), AllocError> {
        self.writer.key(name)?;
        self.writer.u64(number as u64)
    }

    /// Puts a member that is true.
    pub fn flag(&mut self, name: &str) -> Result<(), AllocError>
        ensures before { self.new.writer.before ≡ self.old.writer.before }
        ensures tokens { OnOk result (self.new.writer.tokens
            ≡ self.old.writer.tokens ++ key name.now ∷ boolean true ∷ []) }
    {
        self.writer.key(name)?;
        self.writer.boolean(true)
    }
}
