//! Counts the positions of a pattern, token by token, before any code is made.
ghost use Rattle.std.specs.Prelude.{◌≡◌, ◌+◌, ◌<◌, ◌≤◌, length, IfOk};
ghost use Rattle.pattern_match.specs.Building.{kept_copies, cap_count};
ghost use Rattle.pattern_match.specs.inner.Counting.{counted_sum, counted_atom, counted_open, counted_bar, counted_close, counted_times, counted_after, nothing_counted, counted_whole};

use crate::token::Token;
use std::alloc::{AllocError, Global};
use std::marker::Model;

/// The most positions of a pattern.
pub const LIMIT: u64 = 65_536;

/// How many copies of a piece are kept.
pub fn copies_kept(least: u64, most: Option<u64>) -> u64
    ensures { result ≡ kept_copies least most }
{
    match most {
        Some(most) => most,
        None => least.max(1),
    }
}

/// Positions, up to one more than the limit.
pub fn capped_sum(a: u64, b: u64) -> u64
    ensures { result ≡ cap_count (a + b) }
{
    a.saturating_add(b).min(LIMIT + 1)
}

/// The positions before each group that is begun, and those of the innermost.
#[derive(Drop)]
pub struct Counter {
    outer: Vec<u64>,
    total: u64,
    last: u64,
}

impl Model for Counter {
    ghost use Rattle.std.specs.Prelude.{reverse, vec_capacity};
    ghost use Rattle.pattern_match.specs.inner.Counting.{Counting};

    ghost Value = { Counting };

    ghost view = { λ c. record { counted = record { outer = reverse c.outer.items; total = c.total; last = c.last }; room = vec_capacity c.outer } };
}

impl Counter {
    /// Nothing is counted. There is room for so many groups, one in the other.
    pub fn new(alloc: Global, room: usize) -> Result<Counter, AllocError>
        ensures counted { IfOk result (λ c. c.counted ≡ nothing_counted) }
        ensures room { IfOk result (λ c. room ≤ c.room) }
    {
        Ok(Counter {
            outer: Vec::with_capacity(alloc, room)?,
            total: 0,
            last: 0,
        })
    }

    /// The positions of the innermost group, up to one more than the limit.
    fn sum(&self) -> u64
        ensures { result ≡ counted_sum self.now.counted }
    {
        capped_sum(self.total, self.last)
    }

    /// Goes on with an atom, which has one position.
    fn add_atom(&mut self)
        ensures counted { self.new.counted ≡ counted_atom self.old.counted }
        ensures room { self.old.room ≤ self.new.room }
    {
        self.total = self.sum();
        self.last = 1;
    }

    /// Begins a group, for which there has to be room.
    fn open(&mut self)
        requires { length self.old.counted.outer < self.old.room }
        ensures counted { self.new.counted ≡ counted_open self.old.counted }
        ensures room { self.old.room ≤ self.new.room }
    {
        let sum = self.sum();
        match self.outer.push(sum) {
            Ok(()) => {}
            Err(_) => unreachable!(),
        }
        self.total = 0;
        self.last = 0;
    }

    /// Ends a branch of the innermost group, whose positions count on.
    fn bar(&mut self)
        ensures counted { self.new.counted ≡ counted_bar self.old.counted }
        ensures room { self.old.room ≤ self.new.room }
    {
        self.total = self.sum(); // the branches before a bar count too
        self.last = 0;
    }

    /// Ends the innermost group, which is then the last piece of the one around it.
    fn close(&mut self)
        ensures counted { self.new.counted ≡ counted_close self.old.counted }
        ensures room { self.old.room ≤ self.new.room }
    {
        let sum = self.sum();
        if let Some(total) = self.outer.pop() {
            self.total = total;
            self.last = sum;
        }
    }

    /// Counts the last piece as often as copies of it are kept, up to one more than the limit.
    fn repeat(&mut self, least: u64, most: Option<u64>)
        ensures counted { self.new.counted ≡ counted_times least most self.old.counted }
        ensures room { self.old.room ≤ self.new.room }
    {
        self.last = self
            .last
            .saturating_mul(copies_kept(least, most))
            .min(LIMIT + 1);
    }

    /// Goes on with a token.
    fn take(&mut self, token: Token)
        requires { length self.old.counted.outer < self.old.room }
        ensures counted { self.new.counted ≡ counted_after token self.old.counted }
        ensures room { self.old.room ≤ self.new.room }
        ensures depth { length self.new.counted.outer ≤ length self.old.counted.outer + 1 }
    {
        match token {
            Token::Open => self.open(),
            Token::Close => self.close(),
            Token::Bar => self.bar(),
            Token::Member { .. } => {}
            Token::Times { least, most } => self.repeat(least, most),
            _ => self.add_atom(),
        }
    }
}

/// The positions of the tokens of a whole pattern, up to one more than the limit. It takes no memory.
pub fn count(tokens: &[Token], counter: &mut Counter) -> u64
    requires counted { counter.old.counted ≡ nothing_counted }
    requires room { length tokens.now + 1 < counter.old.room }
    ensures { result ≡ counted_whole tokens.now }
{
    counter.open();
    for token in tokens {
        counter.take(*token);
    }
    counter.close();
    counter.last
}
