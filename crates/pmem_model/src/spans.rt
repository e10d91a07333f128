ghost use Rattle.std.specs.Prelude.{◌≡◌, ℕ, ◌+◌, ◌<◌, ◌≤◌, nat_lt, length, replicate, slice_set, IfOk, IsTrue};
ghost use Rattle.std.specs.List.{sum_by};
ghost use Rattle.pmem_model.specs.Spans.{span_at, weight, nowhere};

use std::alloc::{AllocError, Global};

/// The places in a log from `from` on up to `to`, without `to`.
#[derive(Clone, Copy, Debug)]
pub struct Span {
    pub from: usize,
    pub to: usize,
}

// 1 for a span with places, and 0 for an empty one.
fn weight(span: Span) -> usize
    ensures { result ≡ weight span }
{
    if span.from < span.to { 1 } else { 0 }
}

/// For each line a span of places: all of its stores that aren't settled are in it, with others between them.
#[derive(Drop)]
pub struct Spans {
    pub items: Vec<Span>,
    // How many lines have such stores.
    unsettled: usize,
    ghost counted: { unsettled ≡ sum_by weight items.items },
}

impl Spans {
    /// No line has such stores.
    pub fn new(alloc: Global, lines: usize) -> Result<Self, AllocError>
        ensures { IfOk result (λ made. made.items.items ≡ replicate lines nowhere) }
    {
        let items = vec![in alloc; Span { from: 0, to: 0 }; lines]?;
        Ok(Spans {
            items,
            unsettled: 0,
        })
    }

    pub fn get(&self, line: usize) -> Span
        requires { line < length self.now.items.items }
        ensures { result ≡ span_at self.now.items.items line }
    {
        self.items[line]
    }

    pub fn set(&mut self, line: usize, span: Span)
        requires { line < length self.old.items.items }
        ensures { self.new.items.items ≡ slice_set self.old.items.items line span }
    {
        let before = self.items[line];
        self.items[line] = span;
        self.unsettled = self.unsettled + weight(span) - weight(before);
    }

    /// Are the stores of all lines settled?
    pub fn are_settled(&self) -> bool
        ensures { IsTrue result → (line : ℕ) → weight (span_at self.now.items.items line) ≡ 0 }
    {
        self.unsettled == 0
    }
}
