//! A text in memory.
ghost use Rattle.std.specs.Prelude.{◌≡◌, [], false, Some};

use mk_lines::{ByteSink, Fault};
use std::alloc::Allocator;

/// A text in memory, as a sink. Where it cannot grow, the sink fails.
#[derive(Drop)]
pub struct TextSink<A: Allocator> {
    /// What was written.
    pub text: Vec<u8, A>,
    /// Whether it could not grow.
    pub is_failed: bool,
}

impl<A: Allocator> TextSink<A> {
    /// An empty text.
    pub fn new(alloc: A) -> TextSink<A>
        ensures empty { result.text.items ≡ [] }
        ensures works { result.is_failed ≡ false }
    {
        TextSink {
            text: Vec::new(alloc),
            is_failed: false,
        }
    }
}

impl<A: Allocator> ByteSink for TextSink<A> {
    ghost contents = { λ sink. Some sink.text.items };

    ghost failed = { λ sink. sink.is_failed };

    fn write(&mut self, text: &[u8]) -> Result<usize, Fault> {
        match self.text.extend_from_slice(text) {
            Ok(()) => Ok(text.len()),
            Err(_) => {
                self.is_failed = true;
                Err(Fault::Write)
            }
        }
    }

    fn flush(&mut self) -> Result<(), Fault> {
        Ok(())
    }

    fn failed(&self) -> bool {
        self.is_failed
    }
}
