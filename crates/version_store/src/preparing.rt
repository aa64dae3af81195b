//! The answers that are made in steps.

ghost use Rattle.std.specs.Prelude.{◌≡◌, ◌≤◌, ◌<◌, ◌+◌, ◌*◌, ◌⊎◌, ◌↔◌, ℕ, List, IfOk, IfErr};
ghost use Rattle.std.specs.Prelude.{IfSome, IsTrue, Some, is_ok, is_some, length, true};
ghost use Rattle.matrix_u32.specs.Matrix.{WordMatrix, times_vector};
ghost use Rattle.digit_pack.specs.Layout.{digit_rows};
ghost use Rattle.double_scheme.specs.Steps.{HasFirst};
ghost use Rattle.pir_schemes.specs.Plans.{digits_at};
ghost use Rattle.pir_schemes.specs.Retrievals.{answer_words, query_count};
ghost use Rattle.version_store.specs.Editions.{Records, IsMadeTwice, version_shape};
ghost use Rattle.version_store.specs.Preparing.{GivesAnswer, IsAllMade, IsMakingFor, IsPrepared};
ghost use Rattle.version_store.specs.Preparing.{amount_made, scheme_made};
ghost use Rattle.version_store.specs.Together.{ArePrepared, AreAllMade, HasWholeFor, IsStepped};
ghost use Rattle.version_store.specs.Together.{IsAllMadeIf, IsSteppedIf, IsWholeFor};
ghost use Rattle.version_store.specs.declared.preparing.AnswerMaking.TheVariants.{Simple};

use crate::first_layer::{Digits, FirstLayer};
use digit_pack::Layout;
use double_scheme::AnswerSteps;
use matrix_u32::{Kernel, Matrix};
use pir_schemes::Scheme;
use std::alloc::{AllocError, Global};
use std::mem;

/// What is made of an answer.
#[derive(Drop)]
pub(crate) enum AnswerMaking {
    /// So many words of a SimplePIR answer.
    Simple(usize, Vec<u32>),
    /// A DoublePIR answer, and whether it is whole.
    Double(bool, AnswerSteps),
}

/// An answer that was begun, with the query that it is to.
#[derive(Drop)]
pub(crate) struct Preparation {
    query: Vec<u32>,
    making: AnswerMaking,
}

impl Preparation {
    /// The answer to a query, with no step made. Its memory is taken by sizes alone.
    pub(crate) fn new(
        alloc: Global,
        scheme: Scheme,
        layout: &Layout,
        dimension: usize,
        query: Vec<u32>,
    ) -> Result<Preparation, AllocError>
        requires query { length query.items ≡ query_count scheme layout.now }
        requires dimension { dimension ≤ 1024 }
        ensures begun { IfOk result (λ p. (e : Records) → version_shape e ≡ layout.now →
            e.plan.dimension ≡ dimension → IsMakingFor e p.query.items p.making) }
        ensures query { IfOk result (λ p. p.query ≡ query) }
        ensures scheme { IfOk result (λ p. scheme_made p.making ≡ scheme) }
    {
        match scheme {
            Scheme::Simple => {
                let out = vec![in alloc; 0; layout.rows()]?;
                let making = AnswerMaking::Simple(0, out);
                Ok(Preparation { query, making })
            }
            Scheme::Double => {
                let steps = AnswerSteps::new(alloc, layout, dimension)?;
                let making = AnswerMaking::Double(false, steps);
                Ok(Preparation { query, making })
            }
        }
    }

    /// The same with one more step made, and whether none is left. There is more of the answer
    /// after each step, so that they come to an end.
    pub(crate) fn stepped<K: Kernel>(
        self,
        kernel: K,
        layer: &FirstLayer,
        server: &Digits,
        a2: &Matrix,
    ) -> (Preparation, bool)
        requires so_far { IsMakingFor layer.now self.query.items self.making }
        requires made { (client : WordMatrix) × IsMadeTwice layer.now a2.now server.now client }
        ensures so_far { IsMakingFor layer.now result.0.query.items result.0.making }
        ensures query { result.0.query ≡ self.query }
        ensures scheme { scheme_made result.0.making ≡ scheme_made self.making }
        ensures whole { IsTrue result.1 ↔ IsAllMade result.0.making }
        ensures forward { IsAllMade self.making ⊎
            amount_made layer.now self.making < amount_made layer.now result.0.making }
    {
        let Preparation { query, making } = self;
        match making {
            AnswerMaking::Simple(made, mut out) => {
                let made = layer.put_answer_rows(kernel, &query, made, &mut out);
                let whole = made == out.len();
                let making = AnswerMaking::Simple(made, out);
                (Preparation { query, making }, whole)
            }
            AnswerMaking::Double(_, mut steps) => {
                let whole = steps.step(kernel, layer.digits(), server, a2, &query);
                let making = AnswerMaking::Double(whole, steps);
                (Preparation { query, making }, whole)
            }
        }
    }

    /// The answer, if it is whole and the one to this query; else what was begun.
    pub(crate) fn into_answer(
        self,
        scheme: Scheme,
        query: &[u32],
    ) -> Result<Vec<u32>, Option<Preparation>>
        ensures answer { (e : Records) → IsMakingFor e self.query.items self.making →
            GivesAnswer e scheme query.now result }
        ensures given { IsAllMade self.making → scheme_made self.making ≡ scheme →
            self.query.items ≡ query.now → IsTrue (is_ok result) }
        ensures kept { IfErr result (λ kept. kept ≡ Some self) }
    {
        if are_same(&self.query, query) {
            return self.into_whole(scheme);
        }
        Err(Some(self))
    }

    /// The answer to the query that was begun, if it is whole and of this scheme; else what was
    /// begun.
    fn into_whole(self, scheme: Scheme) -> Result<Vec<u32>, Option<Preparation>>
        ensures answer { (e : Records) → IsMakingFor e self.query.items self.making →
            GivesAnswer e scheme self.query.items result }
        ensures given { IsAllMade self.making → scheme_made self.making ≡ scheme →
            IsTrue (is_ok result) }
        ensures kept { IfErr result (λ kept. kept ≡ Some self) }
    {
        let Preparation { query, making } = self;
        match (scheme, making) {
            (Scheme::Simple, AnswerMaking::Simple(made, out)) => {
                if made == out.len() {
                    return Ok(out);
                }
                let making = AnswerMaking::Simple(made, out);
                Err(Some(Preparation { query, making }))
            }
            (Scheme::Double, AnswerMaking::Double(whole, steps)) => {
                if whole {
                    return Ok(steps.into_words());
                }
                let making = AnswerMaking::Double(whole, steps);
                Err(Some(Preparation { query, making }))
            }
            (_, making) => Err(Some(Preparation { query, making })),
        }
    }
}

/// The answers that were begun, up to four. Two of SimplePIR that are as far as one another are
/// made together, so that the digits are read once for both.
#[derive(Drop)]
pub(crate) struct Preparations {
    first: Option<Preparation>,
    second: Option<Preparation>,
    third: Option<Preparation>,
    fourth: Option<Preparation>,
}

impl Preparations {
    /// No answer.
    pub(crate) fn none() -> Preparations
        ensures { (e : Records) → ArePrepared e result }
    {
        Preparations {
            first: None,
            second: None,
            third: None,
            fourth: None,
        }
    }

    /// Begins one more, unless there are four.
    pub(crate) fn add(&mut self, one: Preparation)
        ensures { (e : Records) → ArePrepared e self.old →
            IsMakingFor e one.query.items one.making → ArePrepared e self.new }
    {
        let begun = mem::replace(self, Preparations::none());
        let all = begun.with(one);
        mem::replace(self, all).give_up();
    }

    /// Makes one more step of each, and returns whether none is left of any.
    pub(crate) fn step<K: Kernel>(
        &mut self,
        kernel: K,
        layer: &FirstLayer,
        server: &Digits,
        a2: &Matrix,
    ) -> bool
        requires so_far { ArePrepared layer.now self.old }
        requires made { (client : WordMatrix) × IsMadeTwice layer.now a2.now server.now client }
        ensures so_far { ArePrepared layer.now self.new }
        ensures whole { IsTrue result → AreAllMade self.new }
    {
        let begun = mem::replace(self, Preparations::none());
        let (stepped, whole) = begun.stepped(kernel, layer, server, a2);
        mem::replace(self, stepped).give_up();
        whole
    }

    /// The answer to this query, once, if it is whole.
    pub(crate) fn take(&mut self, scheme: Scheme, query: &[u32]) -> Option<Vec<u32>>
        ensures left { (e : Records) → ArePrepared e self.old → ArePrepared e self.new }
        ensures answer { (e : Records) → ArePrepared e self.old → IfSome result (λ answer.
            answer.items ≡ answer_words scheme e.plan e.records query.now) }
        ensures given { HasWholeFor scheme query.now self.old → IsTrue (is_some result) }
    {
        let begun = mem::replace(self, Preparations::none());
        let (left, answer) = begun.taken(scheme, query);
        mem::replace(self, left).give_up();
        answer
    }

    /// Gives all of them up.
    pub(crate) fn clear(&mut self)
        ensures { (e : Records) → ArePrepared e self.new }
    {
        mem::replace(self, Preparations::none()).give_up();
    }

    // Lets them go: in a function of its own, so that no other one has to.
    fn give_up(self) {}

    // The answers that were begun and one more, which is dropped if there are four.
    fn with(self, one: Preparation) -> Preparations
        ensures { (e : Records) → ArePrepared e self → IsMakingFor e one.query.items one.making →
            ArePrepared e result }
    {
        let Preparations {
            first,
            second,
            third,
            fourth,
        } = self;
        let (first, later) = put_in(first, Some(one));
        let (second, last) = put_in(second, later);
        let (third, left) = put_in(third, last);
        let (fourth, _dropped) = put_in(fourth, left);
        Preparations {
            first,
            second,
            third,
            fourth,
        }
    }

    // The same with one more step made of each, and whether none is left of any.
    fn stepped<K: Kernel>(
        self,
        kernel: K,
        layer: &FirstLayer,
        server: &Digits,
        a2: &Matrix,
    ) -> (Preparations, bool)
        requires so_far { ArePrepared layer.now self }
        requires made { (client : WordMatrix) × IsMadeTwice layer.now a2.now server.now client }
        ensures first { IsSteppedIf layer.now self.first result.0.first }
        ensures second { IsSteppedIf layer.now self.second result.0.second }
        ensures third { IsSteppedIf layer.now self.third result.0.third }
        ensures fourth { IsSteppedIf layer.now self.fourth result.0.fourth }
        ensures whole { IsTrue result.1 → AreAllMade result.0 }
    {
        let Preparations {
            first,
            second,
            third,
            fourth,
        } = self;
        let (first, second, near) = step_two(first, second, kernel, layer, server, a2);
        let (third, fourth, far) = step_two(third, fourth, kernel, layer, server, a2);
        let stepped = Preparations {
            first,
            second,
            third,
            fourth,
        };
        (stepped, near && far)
    }

    // What is left, and the answer to this query, if it is whole.
    fn taken(self, scheme: Scheme, query: &[u32]) -> (Preparations, Option<Vec<u32>>)
        ensures left { (e : Records) → ArePrepared e self → ArePrepared e result.0 }
        ensures answer { (e : Records) → ArePrepared e self → IfSome result.1 (λ answer.
            answer.items ≡ answer_words scheme e.plan e.records query.now) }
        ensures given { HasWholeFor scheme query.now self → IsTrue (is_some result.1) }
    {
        let Preparations {
            first,
            second,
            third,
            fourth,
        } = self;
        let (first, from_first) = taken_from(first, None, scheme, query);
        let (second, from_second) = taken_from(second, from_first, scheme, query);
        let (third, from_third) = taken_from(third, from_second, scheme, query);
        let (fourth, answer) = taken_from(fourth, from_third, scheme, query);
        let left = Preparations {
            first,
            second,
            third,
            fourth,
        };
        (left, answer)
    }
}

// What is in a place, into which one more is put if it is empty, and what is left of that one.
fn put_in(
    place: Option<Preparation>,
    one: Option<Preparation>,
) -> (Option<Preparation>, Option<Preparation>)
    ensures place { (e : Records) → IsPrepared e place → IsPrepared e one →
        IsPrepared e result.0 }
    ensures left { (e : Records) → IsPrepared e one → IsPrepared e result.1 }
{
    match place {
        Some(stands) => (Some(stands), one),
        None => (one, None),
    }
}

// One more step of two answers, if they are there, and whether none is left of them.
fn step_two<K: Kernel>(
    first: Option<Preparation>,
    second: Option<Preparation>,
    kernel: K,
    layer: &FirstLayer,
    server: &Digits,
    a2: &Matrix,
) -> (Option<Preparation>, Option<Preparation>, bool)
    requires first { IsPrepared layer.now first }
    requires second { IsPrepared layer.now second }
    requires made { (client : WordMatrix) × IsMadeTwice layer.now a2.now server.now client }
    ensures first { IsSteppedIf layer.now first result.0 }
    ensures second { IsSteppedIf layer.now second result.1 }
    ensures whole { IsTrue result.2 → IsAllMadeIf result.0 × IsAllMadeIf result.1 }
{
    match (first, second) {
        (Some(first), Some(second)) => {
            let (first, second, whole) = step_both(first, second, kernel, layer, server, a2);
            (Some(first), Some(second), whole)
        }
        (Some(first), None) => {
            let (first, whole) = first.stepped(kernel, layer, server, a2);
            (Some(first), None, whole)
        }
        (None, Some(second)) => {
            let (second, whole) = second.stepped(kernel, layer, server, a2);
            (None, Some(second), whole)
        }
        (None, None) => (None, None, true),
    }
}

// One more step of two answers: in one pass over the digits, if both are of SimplePIR and as far.
fn step_both<K: Kernel>(
    first: Preparation,
    second: Preparation,
    kernel: K,
    layer: &FirstLayer,
    server: &Digits,
    a2: &Matrix,
) -> (Preparation, Preparation, bool)
    requires first { IsMakingFor layer.now first.query.items first.making }
    requires second { IsMakingFor layer.now second.query.items second.making }
    requires made { (client : WordMatrix) × IsMadeTwice layer.now a2.now server.now client }
    ensures first { IsStepped layer.now first result.0 }
    ensures second { IsStepped layer.now second result.1 }
    ensures whole { IsTrue result.2 → IsAllMade result.0.making × IsAllMade result.1.making }
{
    let Preparation {
        query: x,
        making: x_making,
    } = first;
    let Preparation {
        query: y,
        making: y_making,
    } = second;
    match (x_making, y_making) {
        (AnswerMaking::Simple(x_made, x_out), AnswerMaking::Simple(y_made, y_out))
            if x_made == y_made => { step_together(x, y, x_made, x_out, y_out, kernel, layer) }
        (x_making, y_making) => {
            let first = Preparation {
                query: x,
                making: x_making,
            };
            let second = Preparation {
                query: y,
                making: y_making,
            };
            step_each(first, second, kernel, layer, server, a2)
        }
    }
}

/// One more step of two answers of SimplePIR, to the queries `x` and `y`, that both have `made`
/// words, in one pass over the digits; and whether none is left of them.
fn step_together<K: Kernel>(
    x: Vec<u32>,
    y: Vec<u32>,
    made: usize,
    mut x_out: Vec<u32>,
    mut y_out: Vec<u32>,
    kernel: K,
    layer: &FirstLayer,
) -> (Preparation, Preparation, bool)
    requires first { IsMakingFor layer.now x.items (Simple made x_out) }
    requires second { IsMakingFor layer.now y.items (Simple made y_out) }
    ensures first { IsStepped layer.now
        (record { query = x; making = Simple made x_out }) result.0 }
    ensures second { IsStepped layer.now
        (record { query = y; making = Simple made y_out }) result.1 }
    ensures whole { IsTrue result.2 → IsAllMade result.0.making × IsAllMade result.1.making }
{
    let made = layer.put_two_answer_rows(kernel, &x, &y, made, &mut x_out, &mut y_out);
    let whole = made == x_out.len();
    let first = Preparation {
        query: x,
        making: AnswerMaking::Simple(made, x_out),
    };
    let second = Preparation {
        query: y,
        making: AnswerMaking::Simple(made, y_out),
    };
    (first, second, whole)
}

// One more step of two answers, of one after the other.
fn step_each<K: Kernel>(
    first: Preparation,
    second: Preparation,
    kernel: K,
    layer: &FirstLayer,
    server: &Digits,
    a2: &Matrix,
) -> (Preparation, Preparation, bool)
    requires first { IsMakingFor layer.now first.query.items first.making }
    requires second { IsMakingFor layer.now second.query.items second.making }
    requires made { (client : WordMatrix) × IsMadeTwice layer.now a2.now server.now client }
    ensures first { IsStepped layer.now first result.0 }
    ensures second { IsStepped layer.now second result.1 }
    ensures whole { IsTrue result.2 → IsAllMade result.0.making × IsAllMade result.1.making }
{
    let (first, is_first_whole) = first.stepped(kernel, layer, server, a2);
    let (second, is_second_whole) = second.stepped(kernel, layer, server, a2);
    (first, second, is_first_whole && is_second_whole)
}

// The answer that was found before; else this one, if it is whole and to this query. And what is
// left of this one.
fn taken_from(
    prepared: Option<Preparation>,
    found: Option<Vec<u32>>,
    scheme: Scheme,
    query: &[u32],
) -> (Option<Preparation>, Option<Vec<u32>>)
    ensures left { (e : Records) → IsPrepared e prepared → IsPrepared e result.0 }
    ensures answer { (e : Records) → IsPrepared e prepared →
        IfSome found (λ answer. answer.items ≡ answer_words scheme e.plan e.records query.now) →
        IfSome result.1 (λ answer. answer.items ≡ answer_words scheme e.plan e.records query.now) }
    ensures given { IsWholeFor scheme query.now prepared → IsTrue (is_some result.1) }
    ensures kept { IsTrue (is_some found) → IsTrue (is_some result.1) }
{
    match (prepared, found) {
        (prepared, Some(found)) => (prepared, Some(found)),
        (None, None) => (None, None),
        (Some(prepared), None) => match prepared.into_answer(scheme, query) {
            Ok(answer) => (None, Some(answer)),
            Err(left) => (left, None),
        },
    }
}

// Whether two lists of words are the same.
fn are_same(words: &[u32], others: &[u32]) -> bool
    ensures { IsTrue result ↔ (words.now ≡ others.now) }
{
    words == others
}
