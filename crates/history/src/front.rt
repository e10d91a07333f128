//! The book of a history counts its steps. A front is evidence that the history began with these steps; it never gets untrue.

ghost use Rattle.std.specs.Prelude.{◌≡◌, ◌+◌, ◌<◌, ◌^◌, ◌++◌, ◌∷◌, [], length, IfSome, IsFalse, MatchBool};
ghost use Rattle.std.specs.Bool.{OnTrue};
ghost use mathlib.Core.List.{IsPrefix};
ghost use Rattle.history.specs.Rules.{head_of};

use crate::origin::Origin;
use base::step::Step;
use logbook::{Gain, Offer, Plain, Play, Rule, Seen, Start, Word};
use std::marker::{Model, PhantomData};

/// The rule of the book.
pub struct Law;

impl Rule<Step, u64> for Law {
    ghost use Rattle.std.specs.Prelude.{[]};
    ghost use base.Fml.{ftrue};
    ghost use Rattle.history.specs.Rules.{IsKept};

    ghost holds = { λ cells log. IsKept cells log };

    ghost first = { [] };

    ghost hinted = { λ n log. Unit {0} };

    ghost shows = { λ log. [] };

    ghost keeps = { λ names log. ftrue };

    ghost moves = { λ ask before after answer. Unit {0} };
}

/// Callers trade nothing.
pub struct Nothing;

impl Gain<Step, u64> for Nothing {
    ghost use base.Fml.{ftrue};

    ghost after = { λ names about answer. ftrue };
}

/// A move of the book that adds a step.
pub struct Adding;

impl Play<Step, u64> for Adding {
    ghost use Rattle.history.specs.Rules.{Adds};

    ghost then = { Adds };
}

/// What such a move asks for: the step.
impl Plain<Step, Step, u64> for Adding {
    ghost use Rattle.std.specs.Prelude.{None};

    ghost ask = { λ step. step };

    ghost state = { λ step. None };
}

/// A history with no step, which has no name yet. Contracts see it as the book that it is written in.
#[derive(Drop)]
pub struct History {
    head: Word<Step, u64, Law>,
    seen: Seen<Step, u64, Law>,
    ghost empty: { seen.log ≡ [] },
    ghost head_is: { head ≡ head_of seen.book },
}

impl Model for History {
    ghost use Rattle.logbook.specs.Pages as pages;

    ghost Value = { pages.Book };

    ghost view = { λ h. h.seen.book };
}

impl History {
    /// A new one.
    pub fn new() -> History {
        let (seen, mut first, _second) = Seen::open(Start::alone(), 0, 0);
        History {
            head: Word::tracked(0, &mut first),
            seen,
        }
    }

    /// The book's word under its name, and the front that has seen no step.
    pub(crate) fn named<J: Origin>(self) -> (Book<J>, Front<J>)
        requires name { self ≡ J.book }
        ensures { result.1 ≡ [] }
    {
        let History { head, seen } = self;
        (
            Book {
                head,
                of: PhantomData,
            },
            Front {
                count: 0,
                seen,
                of: PhantomData,
            },
        )
    }
}

/// The word that counts the steps.
#[derive(Drop)]
pub struct Book<J: Origin> {
    head: Word<Step, u64, Law>,
    of: PhantomData<J>,
    ghost head_is: { head ≡ head_of J.book },
}

/// Evidence that the history began so. Contracts see it as these steps.
#[derive(Drop)]
pub struct Front<J: Origin> {
    count: u64,
    seen: Seen<Step, u64, Law>,
    of: PhantomData<J>,
}

impl<J: Origin> Model for Front<J> {
    ghost use Rattle.std.specs.Prelude.{◌≡◌, List, length};
    ghost use Rattle.base.specs.declared.step.Step.{Step};

    ghost Value = { List Step };

    ghost view = { λ f. f.seen.log };

    ghost invariant = { λ f. (length f.seen.log ≡ f.count) × (f.seen.book ≡ J.book) };
}

impl<J: Origin> Front<J> {
    /// How many steps it has seen.
    pub fn len(&self) -> u64
        ensures { result ≡ length self.now }
    {
        self.count
    }

    /// A copy.
    pub fn again(&self) -> Front<J>
        ensures { result ≡ self.now }
    {
        Front {
            count: self.count,
            seen: self.seen.again(),
            of: PhantomData,
        }
    }

    /// Whether the other one begins with it. If not, it is the longer one, and begins with the other.
    pub fn begins(&self, other: &Front<J>) -> bool
        ensures prefix { MatchBool result (IsPrefix self.now other.now) (IsPrefix other.now self.now) }
        ensures longer { IsFalse result → length other.now < length self.now }
    {
        let mut both = self.seen.again();
        both.learn(&other.seen);
        self.count <= other.count
    }

    /// It with one step more, or none if the history is longer already.
    pub(crate) fn then(&self, book: &Book<J>, step: &Step) -> Option<Front<J>>
        ensures { IfSome result (λ front. front ≡ self.now ++ step.now ∷ []) }
    {
        if self.count >= 1 << 61 {
            return None;
        }
        let mut seen = self.seen.again();
        if !add(&book.head, &mut seen, self.count, step) {
            return None;
        }
        Some(Front {
            count: self.count + 1,
            seen,
            of: PhantomData,
        })
    }
}

// Adds a step to all that was seen, and returns whether it did.
fn add(
    head: &Word<Step, u64, Law>,
    seen: &mut Seen<Step, u64, Law>,
    count: u64,
    step: &Step,
) -> bool
    requires head { head.now ≡ head_of seen.old.book }
    requires count { (length seen.old.log ≡ count) × (count < 2 ^ 62) }
    ensures { OnTrue result ((seen.new.log ≡ seen.old.log ++ step.now ∷ []) × (seen.new.book ≡ seen.old.book)) }
{
    let mut offer: Offer<Step, u64, Law, Nothing> = seen.plain::<Nothing, Step, Adding>(step);
    let mut pen = seen.no_pen();
    let found = head.compare_exchange::<Adding, Nothing>(
        count,
        count + 1,
        seen,
        &mut offer,
        &mut pen,
    );
    found == count
}
