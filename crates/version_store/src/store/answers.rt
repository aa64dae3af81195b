//! Answers that are made in steps, several of them together. Contracts see nothing of them but the
//! answer that is taken.

ghost use Rattle.std.specs.Prelude.{◌≡◌, IfSome, length};
ghost use Rattle.pir_schemes.specs.Retrievals.{query_count, answer_words};
ghost use Rattle.version_store.specs.Editions.{version_shape};

use crate::store::Store;
use matrix_u32::Kernel;
use pir_schemes::Scheme;
use std::alloc::AllocError;

impl<K: Kernel> Store<K> {
    /// Begins the answer to the words of a query on the current version, which
    /// [`Store::step_answers`] makes step by step, and gives up all that were begun. Only refused
    /// memory gives an `Err`, and then none is begun.
    pub fn begin_answer(&mut self, scheme: Scheme, words: Vec<u32>) -> Result<(), AllocError>
        requires { length words.items ≡ query_count scheme (version_shape self.old.edition) }
        ensures { self.new ≡ self.old }
    {
        self.edition.begin_answer(self.alloc, scheme, words)
    }

    /// Begins the answer to the words of one more query beside those that were begun, unless there
    /// are four. Two of SimplePIR that were begun together are made in one pass over the digits.
    /// Only refused memory gives an `Err`, and then this one is not begun.
    pub fn add_answer(&mut self, scheme: Scheme, words: Vec<u32>) -> Result<(), AllocError>
        requires { length words.items ≡ query_count scheme (version_shape self.old.edition) }
        ensures { self.new ≡ self.old }
    {
        self.edition.add_answer(self.alloc, scheme, words)
    }

    /// Makes one more step of the answers that were begun, and returns whether none is left: also
    /// if none was begun, or they were given up for another version. Takes no memory.
    pub fn step_answers(&mut self) -> bool
        ensures { self.new ≡ self.old }
    {
        self.edition.step_answers()
    }

    /// The answer to these words on the current version, once, if it was begun and is whole.
    pub fn take_answer(&mut self, scheme: Scheme, words: &[u32]) -> Option<Vec<u32>>
        ensures same { self.new ≡ self.old }
        ensures answer { IfSome result (λ answer. answer.items ≡ answer_words scheme
            self.old.edition.plan self.old.edition.records words.now) }
    {
        self.edition.take_answer(scheme, words)
    }

    /// Gives up the answers that were begun.
    pub fn drop_answers(&mut self)
        ensures { self.new ≡ self.old }
    {
        self.edition.drop_answers();
    }
}
