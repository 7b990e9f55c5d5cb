//! The pool, which has words in spans, one after another; and what a caller holds of it.

ghost use Rattle.std.specs.Prelude.{ℕ, ◌≡◌, ◌<◌, ◌≤◌, ◌↔◌, length, IsTrue, IsOk, IsErr, IfOk, IfErr, OnErr, slice_index, slice_set, replicate, ◌+◌, ◌++◌, vec_len, vec_capacity};
ghost use Rattle.sift_pool.specs.Region.{Extent, empty_region, words_at, with_words, first_spans, left_in, IsLive, KeepsLive, KeepsLiveBelow, Carves};
ghost use Rattle.std.specs.Borrow.{sem};

use std::alloc::{AllocError, Global};
use std::marker::Model;

// ---- want of memory

/// An allocation failed. Only the call that makes a pool may answer this, and it says nothing else.
#[derive(Clone, Copy, Debug, PartialEq, Eq)]
pub struct NoMemory;

impl From<AllocError> for NoMemory {
    fn from(_: AllocError) -> Self {
        NoMemory
    }
}

// ---- what a caller holds of a pool

/// A span of a pool: words that lie together.
///
/// A clause sees its number, counted from 0, its start and its length.
#[derive(Clone, Copy, PartialEq, Eq)]
pub struct Span {
    pub(crate) number: usize,
    pub(crate) start: usize,
    pub(crate) len: usize,
}

impl Model for Span {
    ghost Value = { Extent };

    ghost view = { λ s. record { number = s.number; start = s.start; len = s.len } };

    ghost inverse = { λ p. record { number = p.number; start = p.start; len = p.len } };
}

/// How many spans a pool had when it was marked. A clause sees that number.
#[derive(Clone, Copy)]
pub struct Mark {
    pub(crate) count: usize,
}

impl Model for Mark {
    ghost Value = { ℕ };

    ghost view = { λ m. m.count };

    ghost inverse = { λ n. record { count = n } };
}

/// The pool has too few words left for a span.
#[derive(Clone, Copy, Debug, PartialEq, Eq)]
pub struct Full {
    /// How many words are in no span.
    pub left: usize,
}

// ---- the pool

/// A region of 16-bit words, and the spans that were carved from it.
///
/// A clause sees its capacity, for how many spans it has room, and the words of each span.
#[derive(Drop)]
pub struct Pool {
    words: Vec<u16>,
    spans: Vec<Span>,
}

impl Model for Pool {
    ghost use Rattle.std.specs.Prelude.{vec_capacity};
    ghost use Rattle.sift_pool.specs.Region.{Region};
    ghost use Rattle.sift_pool.specs.Layout.{laid_region, IsLaid};

    ghost Value = { Region };

    ghost view = { λ p.
        laid_region (vec_capacity p.words) (vec_capacity p.spans) p.spans.items p.words.items };

    ghost invariant = { λ p. IsLaid p.spans.items p.words.items };
}

impl Pool {
    ghost use Rattle.sift_pool.specs.Lending.{LendsWords, StaysWithin};

    /// A pool of so many words, with room for so many spans. It has no span yet.
    ///
    /// A pool without words and without room for a span takes no memory.
    pub fn make(alloc: Global, words: usize, spans: usize) -> Result<Pool, NoMemory>
        ensures made { IfOk result (λ pool. pool ≡ empty_region words spans) }
        ensures takes_none { words ≡ 0 → spans ≡ 0 → IsOk result }
    {
        let words = Vec::with_capacity(alloc, words)?;
        let spans = Vec::with_capacity(alloc, spans)?;
        Ok(Pool { words, spans })
    }

    /// How many spans there are.
    pub fn count(&self) -> usize
        ensures { result ≡ length self.now.spans }
    {
        self.spans.len()
    }

    /// Carves a span of `len` words, all 0, after the spans that are there.
    ///
    /// The pool is `Full` where fewer than `len` words are in no span.
    pub fn carve(&mut self, len: usize) -> Result<Span, Full>
        requires { length self.old.spans < self.old.room }
        ensures carved { IfOk result (Carves self.old self.new len) }
        ensures full { IsErr result ↔ (left_in self.old < len) }
        ensures left { IfErr result (λ full. full.left ≡ left_in self.old) }
        ensures unchanged { OnErr result (self.new ≡ self.old) }
        ensures live { KeepsLive self.old self.new }
    {
        let start = self.words.len();
        let left = self.words.capacity() - start;
        if left < len {
            return Err(Full { left });
        }
        push_zeros(&mut self.words, len);
        let number = self.spans.len();
        let span = Span { number, start, len };
        self.spans.push_reserved(span);
        Ok(span)
    }

    /// Whether the pool has this span, by its number, start and length alone.
    ///
    /// A span is live until it is released, and again while a later one is the same in all three.
    pub fn live(&self, span: &Span) -> bool
        ensures { IsTrue result ↔ IsLive self.now span.now }
    {
        self.spans.get(span.number) == Some(span)
    }

    /// A mark after the spans that are there.
    pub fn mark(&self) -> Mark
        ensures { result ≡ length self.now.spans }
    {
        Mark {
            count: self.spans.len(),
        }
    }

    /// Releases the spans past the mark, and leaves those before it as they are.
    pub fn release(&mut self, mark: Mark)
        requires { mark ≤ length self.old.spans }
        ensures first { self.new ≡ first_spans mark self.old }
        ensures live { KeepsLiveBelow mark self.old self.new }
    {
        if let Some(released) = self.spans.get(mark.count) {
            self.words.truncate(released.start);
            self.spans.truncate(mark.count);
        }
    }

    /// The word at a place of a span.
    pub fn get(&self, span: &Span, at: usize) -> u16
        requires live { IsLive self.now span.now }
        requires inside { at < span.now.len }
        ensures { result ≡ slice_index (words_at self.now span.now.number) at }
    {
        self.words[span.start + at]
    }

    /// Writes a word at a place of a span.
    pub fn put(&mut self, span: &Span, at: usize, word: u16)
        requires live { IsLive self.old span.now }
        requires inside { at < span.now.len }
        ensures written { self.new ≡ with_words self.old span.now.number
            (slice_set (words_at self.old span.now.number) at word) }
        ensures live { KeepsLive self.old self.new }
    {
        self.words[span.start + at] = word;
    }

    /// Lends the words of a span, for writing.
    pub fn words_mut(&mut self, span: &Span) -> &mut [u16]
        requires { IsLive self.old span.now }
        ensures* writes_back { sem 𝓛 (LendsWords self.entry span.now.number result) }
        ensures lent { result.now ≡ words_at self.old span.now.number }
        ensures alone { StaysWithin self.old span.now.number }
    {
        self.words.slice_mut(span.start..span.start + span.len)
    }

    /// Writes a word at each place of a span.
    pub fn fill(&mut self, span: &Span, word: u16)
        requires { IsLive self.old span.now }
        ensures written { self.new ≡ with_words self.old span.now.number
            (replicate span.now.len word) }
        ensures live { KeepsLive self.old self.new }
    {
        self.words[span.start..span.start + span.len].fill(word);
    }
}

/// Adds so many zeros, for which the words have room.
fn push_zeros(words: &mut Vec<u16>, len: usize)
    requires { vec_len words.old + len ≤ vec_capacity words.old }
    ensures zeros { words.new.items ≡ words.old.items ++ replicate len 0 }
    ensures capacity { vec_capacity words.new ≡ vec_capacity words.old }
{
    for _ in 0..len {
        words.push_reserved(0);
    }
}
