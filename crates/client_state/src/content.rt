//! The file of a hint, as what a file is to hold.

use hint_file::{HintFile, HintWriteFault};
use safe_files::{Content, ContentFault};
use std::alloc::Global;
use std::io::Write;

/// The file of a hint.
#[derive(Drop)]
pub struct HintContent<'a>(pub HintFile<'a>);

impl Content for HintContent<'_> {
    ghost use Rattle.std.specs.Prelude.{◌++◌};
    ghost use Rattle.frame_codec.specs.Numbers.{word_bytes};

    ghost bytes = { λ content. content.0.head.items ++ word_bytes content.0.words.now };

    fn write_to<W: Write>(&self, alloc: Global, writer: &mut W) -> Result<(), ContentFault> {
        match self.0.write_to(alloc, writer) {
            Ok(()) => Ok(()),
            Err(HintWriteFault::Write) => Err(ContentFault::Write),
            Err(HintWriteFault::Memory) => Err(ContentFault::Memory),
        }
    }
}
