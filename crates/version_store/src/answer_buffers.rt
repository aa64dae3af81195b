//! The memory that answers are made in.

ghost use Rattle.std.specs.Prelude.{◌≡◌, ◌≤◌, IfOk};
ghost use Rattle.version_store.specs.Buffers.{scheme_answered, IsAnswerBuffers};

use digit_pack::Layout;
use pir_schemes::Scheme;
use std::alloc::{AllocError, Global};

/// The memory that an answer of a scheme is made in, taken by sizes alone: if it is refused, no
/// word of a query was looked at.
#[derive(Drop)]
pub enum AnswerBuffers {
    /// For a SimplePIR answer: a word for each row of digits.
    Simple(Vec<u32>),
    /// For a DoublePIR answer.
    Double(double_scheme::AnswerBuffers),
}

impl AnswerBuffers {
    /// Memory for an answer on a layout, under public matrices of `dimension` columns.
    pub(crate) fn new(
        alloc: Global,
        scheme: Scheme,
        layout: &Layout,
        dimension: usize,
    ) -> Result<AnswerBuffers, AllocError>
        requires { dimension ≤ 1024 }
        ensures scheme { IfOk result (λ room. scheme_answered room ≡ scheme) }
        ensures sizes { IfOk result (λ room. IsAnswerBuffers layout.now dimension room) }
    {
        match scheme {
            Scheme::Simple => {
                let words = vec![in alloc; 0; layout.rows()]?;
                Ok(AnswerBuffers::Simple(words))
            }
            Scheme::Double => {
                let room = double_scheme::AnswerBuffers::new(alloc, layout, dimension)?;
                Ok(AnswerBuffers::Double(room))
            }
        }
    }
}
