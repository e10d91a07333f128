//! The one history of a board's changes. It exists only in proofs; what is kept is its length.
ghost use Rattle.std.specs.Prelude.{◌≡◌, ◌+◌, ◌<◌, ◌^◌, ◌++◌, ◌∷◌, [], length, IfSome, IsFalse, IsTrue, MatchBool};
ghost use Rattle.std.specs.Bool.{OnTrue};
ghost use mathlib.Core.List.{IsPrefix};
ghost use Rattle.board.specs.Changes.{list_of};
ghost use Rattle.board.specs.Lists.{IsPublished, Begins};
ghost use Rattle.board.specs.Rules.{head_of};

use crate::change::Change;
use logbook::{Gain, Offer, Plain, Play, Rule, Seen, Start, Word};
use std::marker::{Brand, Model, PhantomData};

/// The rule of the book.
pub struct Law;

impl Rule<Change, u64> for Law {
    ghost use Rattle.std.specs.Prelude.{[]};
    ghost use base.Fml.{ftrue};
    ghost use Rattle.board.specs.Rules.{IsKept};

    ghost holds = { λ cells log. IsKept cells log };

    ghost first = { [] };

    ghost hinted = { λ n log. Unit {0} };

    ghost shows = { λ log. [] };

    ghost keeps = { λ names log. ftrue };

    ghost moves = { λ ask before after answer. Unit {0} };
}

/// Callers trade nothing.
pub struct Nothing;

impl Gain<Change, u64> for Nothing {
    ghost use base.Fml.{ftrue};

    ghost after = { λ names about answer. ftrue };
}

/// A step that adds a change.
pub struct Adding;

impl Play<Change, u64> for Adding {
    ghost use Rattle.board.specs.Rules.{Adds};

    ghost then = { Adds };
}

/// What a step asks for: the change.
impl Plain<Change, Change, u64> for Adding {
    ghost use Rattle.std.specs.Prelude.{None};

    ghost ask = { λ change. change };

    ghost state = { λ change. None };
}

/// Which history it is. Each call of a program picks it.
pub trait Naming {
    ghost use Rattle.logbook.specs.Pages.{Book};

    ghost book: { Book };
}

impl Naming for Brand {
    ghost book = { record { number = 0; log_name = 0; cells_name = 0 } };
}

/// The history of a board that is not open yet. Contracts see it as the book that it is written in.
#[derive(Drop)]
pub struct History {
    head: Word<Change, u64, Law>,
    seen: Seen<Change, u64, Law>,
    ghost empty: { seen.log ≡ [] },
    ghost head_is: { head ≡ head_of seen.book },
}

impl Model for History {
    ghost use Rattle.logbook.specs.Pages as pages;

    ghost Value = { pages.Book };

    ghost view = { λ h. h.seen.book };
}

impl History {
    /// A new history, with no change.
    pub fn new() -> History {
        let (seen, mut first, _second) = Seen::open(Start::alone(), 0, 0);
        History {
            head: Word::tracked(0, &mut first),
            seen,
        }
    }

    /// Begins it with a change.
    pub(crate) fn begun<J: Naming>(self, first: &Change) -> Option<(Book<J>, Front<J>)>
        requires name { self ≡ J.book }
        requires legal { IsPublished (list_of (first.now ∷ [])) }
        ensures { IfSome result (λ r. r.1 ≡ first.now ∷ []) }
    {
        let History { head, mut seen } = self;
        if !add(&head, &mut seen, 0, first) {
            return None;
        }
        let book = Book {
            head,
            of: PhantomData,
        };
        let front = Front {
            count: 1,
            seen,
            of: PhantomData,
        };
        Some((book, front))
    }
}

/// The word that counts the changes.
#[derive(Drop)]
pub struct Book<J: Naming> {
    head: Word<Change, u64, Law>,
    of: PhantomData<J>,
    ghost head_is: { head ≡ head_of J.book },
}

/// Evidence that the history began so. Contracts see it as these changes.
#[derive(Drop)]
pub struct Front<J: Naming> {
    count: u64,
    seen: Seen<Change, u64, Law>,
    of: PhantomData<J>,
}

impl<J: Naming> Model for Front<J> {
    ghost use Rattle.std.specs.Prelude.{◌≡◌, ◌<◌, List, length};
    ghost use Rattle.board.specs.declared.change.Change.{Change};
    ghost use Rattle.board.specs.Changes.{list_of};
    ghost use Rattle.board.specs.Lists.{IsPublished};

    ghost Value = { List Change };

    ghost view = { λ f. f.seen.log };

    ghost invariant = { λ f. (length f.seen.log ≡ f.count) × (0 < f.count) × (f.seen.book ≡ J.book) × IsPublished (list_of f.seen.log) };
}

impl<J: Naming> Front<J> {
    /// A copy.
    pub(crate) fn again(&self) -> Front<J>
        ensures { result ≡ self.now }
    {
        Front {
            count: self.count,
            seen: self.seen.again(),
            of: PhantomData,
        }
    }

    /// Whether the other one begins with it. If not, it is the longer one, and begins with the other.
    pub(crate) fn begins(&self, other: &Front<J>) -> bool
        ensures prefix { MatchBool result (IsPrefix self.now other.now) (IsPrefix other.now self.now) }
        ensures longer { IsFalse result → length other.now < length self.now }
        ensures lists { MatchBool result (Begins (list_of self.now) (list_of other.now)) (Begins (list_of other.now) (list_of self.now)) }
    {
        let mut both = self.seen.again();
        both.learn(&other.seen);
        self.count <= other.count
    }

    /// Whether the other one is this one and one change more.
    pub(crate) fn is_next(&self, other: &Front<J>) -> bool
        ensures { OnTrue result (IsPrefix self.now other.now × (length other.now ≡ length self.now + 1)) }
    {
        self.begins(other) && other.count - self.count == 1
    }

    /// The list is well formed, and has begun.
    pub(crate) fn is_published(&self)
        ensures { IsPublished (list_of self.now) × (0 < length self.now) }
    {
        let _count = self.count;
    }

    /// This one with one change more, or none if the history is longer already.
    pub(crate) fn then(&self, book: &Book<J>, change: &Change) -> Option<Front<J>>
        requires legal { IsPublished (list_of (self.now ++ change.now ∷ [])) }
        ensures { IfSome result (λ front. front ≡ self.now ++ change.now ∷ []) }
    {
        if self.count >= 1 << 61 {
            return None;
        }
        let mut seen = self.seen.again();
        if !add(&book.head, &mut seen, self.count, change) {
            return None;
        }
        Some(Front {
            count: self.count + 1,
            seen,
            of: PhantomData,
        })
    }
}

// Adds a change to all that was seen, and says whether it did.
fn add(
    head: &Word<Change, u64, Law>,
    seen: &mut Seen<Change, u64, Law>,
    count: u64,
    change: &Change,
) -> bool
    requires head { head.now ≡ head_of seen.old.book }
    requires count { (length seen.old.log ≡ count) × (count < 2 ^ 62) }
    ensures { OnTrue result ((seen.new.log ≡ seen.old.log ++ change.now ∷ []) × (seen.new.book ≡ seen.old.book)) }
{
    let mut offer: Offer<Change, u64, Law, Nothing> = seen.plain::<Nothing, Change, Adding>(change);
    let mut pen = seen.no_pen();
    let found = head.compare_exchange::<Adding, Nothing>(
        count,
        count + 1,
        seen,
        &mut offer,
        &mut pen,
    );
    found == count
}
