//! A matcher: which atoms of a pattern may take the next character.
ghost use Rattle.std.specs.Prelude.{◌≡◌, ◌<◌, ◌≤◌, ◌+◌, ℕ, ◌↔◌, IsTrue, Bool, List, [], ◌∷◌, ◌++◌, IfOk, length, take, replicate, false};
ghost use Rattle.std.specs.Str.{chars};
ghost use Rattle.pattern_match.specs.Reading.{Matches};
ghost use Rattle.pattern_match.specs.Recall.{IsRightTable, IsRow, reached_marks};
ghost use Rattle.pattern_match.specs.Marks.{IsDone};
ghost use Rattle.pattern_match.specs.Compiled.{IsMarked, HasReadWord, IsStart, IsMadeFor, tokens_of_text, code_of_text, next_marks};

use crate::flow::Flow;
use crate::marks::Marks;
use crate::pass::{pass_first, pass_load, pass_second, pass_start, pass_tidy};
use crate::pattern::Pattern;
use crate::recall::Recall;
use std::alloc::{AllocError as Memory, Global};
use std::marker::Model;

/// A set of positions of a pattern, stepped one character at a time. It never goes back in the text.
/// Of a pattern that is not long it remembers some of the sets that it has met, and which followed which by an ASCII
/// character. Else a step takes as long as the positions of the set are many, and the groups around them.
#[derive(Drop)]
pub struct Matcher {
    start: Marks,
    marks: Marks,
    flow: Flow,
    recall: Recall,
    at: Option<usize>,
    first: Option<usize>,
}

impl Model for Matcher {
    ghost use Rattle.std.specs.Prelude.{◌≤◌, length};
    ghost use Rattle.pattern_match.specs.Recall.{Matching};

    ghost Value = { Matching };

    ghost view = { λ m. record { start = m.start; walk = m.marks; at = m.at; first = m.first; known = m.recall } };

    ghost invariant = { λ m. length m.marks.cells ≤ m.flow.capacity };
}

/// The marks before the first character.
fn begin_marks(pattern: &Pattern, marks: &mut Marks, flow: &mut Flow)
    requires done { IsDone (code_of_text (chars pattern.now)) marks.old }
    requires unset { marks.old.cells ≡ replicate (length (code_of_text (chars pattern.now)) + 1) false }
    requires capacity { length marks.old.cells ≤ flow.old.capacity }
    ensures start { IsStart pattern.now marks.new }
    ensures capacity { flow.old.capacity ≤ flow.new.capacity }
{
    flow.begin(true);
    pass_second(pattern.code(), pattern.gaps(), marks, flow);
    pass_tidy(pattern.code(), marks);
    pass_tidy(pattern.code(), marks); // of groups of which the innermost were listed
}

/// The marks behind one more character.
fn read_marks(pattern: &Pattern, c: char, marks: &mut Marks, flow: &mut Flow)
    requires done { IsDone (code_of_text (chars pattern.now)) marks.old }
    requires capacity { length marks.old.cells ≤ flow.old.capacity }
    ensures done { IsDone (code_of_text (chars pattern.now)) marks.new }
    ensures marks { marks.new.cells ≡ next_marks (tokens_of_text (chars pattern.now)) (code_of_text (chars pattern.now)) c marks.old.cells }
    ensures capacity { flow.old.capacity ≤ flow.new.capacity }
{
    flow.begin(false);
    pass_first(
        pattern.code(),
        pattern.gaps(),
        pattern.tokens(),
        c,
        marks,
        flow,
    );
    flow.begin(false); // no word begins behind the first character
    pass_second(pattern.code(), pattern.gaps(), marks, flow);
}

/// The mark of the end.
fn last_mark(pattern: &Pattern, marks: &[bool]) -> bool
    requires { length marks.now ≡ length (code_of_text (chars pattern.now)) + 1 }
    ensures { (w : List ℕ) → IsMarked pattern.now marks.now w → IsTrue result ↔ Matches (chars pattern.now) w }
{
    marks[pattern.code().len()]
}

impl Matcher {
    /// A matcher for the pattern, which has read nothing.
    pub fn new(alloc: Global, pattern: &Pattern) -> Result<Matcher, Memory>
        ensures read { IfOk result (λ m. HasReadWord pattern.now m []) }
        ensures made { IfOk result (λ m. IsMadeFor pattern.now m) }
    {
        let count = pattern.code().len();
        let mut start = Marks::new(alloc, count)?;
        let mut marks = Marks::new(alloc, count)?;
        let mut flow = Flow::new(alloc, count + 1)?;
        let mut recall = Recall::new(alloc, count + 1)?;
        begin_marks(pattern, &mut start, &mut flow);
        pass_start(pattern.code(), &start, &mut marks);
        let first = recall.number(marks.cells());
        Ok(Matcher {
            start,
            marks,
            flow,
            recall,
            at: first,
            first,
        })
    }

    /// Whether what follows by the character is remembered: then it was read.
    #[inline]
    fn step_by_recall(&mut self, c: char) -> bool
        ensures known { self.new.known ≡ self.old.known }
        ensures first { self.new.first ≡ self.old.first }
        ensures start { self.new.start ≡ self.old.start }
        ensures walk { self.new.walk ≡ self.old.walk }
        ensures read { IsTrue result → (next : ℕ → List Bool → List Bool) → IsRightTable next self.old.known → IsRow self.old.known self.old.at (reached_marks self.old) → (reached_marks self.new ≡ next c (reached_marks self.old)) × IsRow self.new.known self.new.at (reached_marks self.new) }
        ensures kept { result ≡ false → self.new ≡ self.old }
    {
        let Some(at) = self.at else {
            return false;
        };
        let Some(next) = self.recall.after(at, c) else {
            return false;
        };
        self.at = Some(next);
        true
    }

    /// Sets the marks that were reached, where only their number is known.
    fn recollect(&mut self, pattern: &Pattern)
        requires { IsMadeFor pattern.now self.old }
        ensures done { IsDone (code_of_text (chars pattern.now)) self.new.walk }
        ensures marks { self.new.walk.cells ≡ reached_marks self.old }
        ensures at { self.new.at ≡ self.old.at }
        ensures first { self.new.first ≡ self.old.first }
        ensures start { self.new.start ≡ self.old.start }
        ensures known { self.new.known ≡ self.old.known }
    {
        let Some(at) = self.at else {
            return;
        };
        pass_load(pattern.code(), self.recall.row(at), &mut self.marks);
    }

    /// Reads one more character. It takes no memory.
    #[inline]
    pub fn step(&mut self, pattern: &Pattern, c: char)
        requires { IsMadeFor pattern.now self.old }
        ensures read { (w : List ℕ) → HasReadWord pattern.now self.old w → HasReadWord pattern.now self.new (w ++ c ∷ []) }
        ensures made { IsMadeFor pattern.now self.new }
    {
        if self.step_by_recall(c) {
            return;
        }
        self.step_by_marks(pattern, c);
    }

    /// Reads one more character by the marks, and remembers which follow.
    fn step_by_marks(&mut self, pattern: &Pattern, c: char)
        requires { IsMadeFor pattern.now self.old }
        ensures read { (w : List ℕ) → HasReadWord pattern.now self.old w → HasReadWord pattern.now self.new (w ++ c ∷ []) }
        ensures made { IsMadeFor pattern.now self.new }
    {
        self.recollect(pattern);
        read_marks(pattern, c, &mut self.marks, &mut self.flow);
        self.at = self.recall.learn(self.at, c, self.marks.cells());
    }

    /// Reads those of the codes from the first on of which it is remembered what follows: how many.
    #[inline]
    fn step_by_known(&mut self, codes: &[u8]) -> usize
        ensures few { result ≤ length codes.now }
        ensures read { (bytes w : List ℕ) → HasReadWord bytes self.old w → HasReadWord bytes self.new (w ++ take result codes.now) }
    {
        let Some(at) = self.at else {
            return 0;
        };
        let followed = self.recall.follow(at, codes);
        self.at = Some(followed.at);
        followed.count
    }

    /// Reads some of the codes from the first on: those of which it is remembered what follows, and one more by the
    /// marks. It tells how many.
    fn step_front(&mut self, pattern: &Pattern, codes: &[u8]) -> usize
        requires made { IsMadeFor pattern.now self.old }
        requires some { 0 < length codes.now }
        ensures some { 0 < result }
        ensures few { result ≤ length codes.now }
        ensures read { (w : List ℕ) → HasReadWord pattern.now self.old w → HasReadWord pattern.now self.new (w ++ take result codes.now) }
        ensures made { IsMadeFor pattern.now self.new }
    {
        let count = self.step_by_known(codes);
        if count >= codes.len() {
            return count;
        }
        self.step_by_marks(pattern, codes[count] as char);
        count + 1
    }

    /// Reads the characters of these codes, one after another. It takes no memory.
    pub fn step_codes(&mut self, pattern: &Pattern, codes: &[u8])
        requires { IsMadeFor pattern.now self.old }
        ensures read { (w : List ℕ) → HasReadWord pattern.now self.old w → HasReadWord pattern.now self.new (w ++ codes.now) }
        ensures made { IsMadeFor pattern.now self.new }
    {
        let mut rest = codes;
        while !rest.is_empty() {
            let count = self.step_front(pattern, rest);
            rest = rest.split_at(count).1;
        }
    }

    /// Whether it is known from words that were read that the characters of these codes are one of the pattern. It reads
    /// nothing, and where it is false they may still be one.
    #[inline]
    pub fn knows(&self, pattern: &Pattern, codes: &[u8]) -> bool
        requires { IsMadeFor pattern.now self.now }
        ensures { IsTrue result → Matches (chars pattern.now) codes.now }
    {
        let Some(first) = self.first else {
            return false;
        };
        let Some(at) = self.recall.reach(first, codes) else {
            return false;
        };
        last_mark(pattern, self.recall.row(at))
    }

    /// Whether the characters that were read are a word of the pattern. It takes no memory.
    pub fn accepts(&self, pattern: &Pattern) -> bool
        requires { IsMadeFor pattern.now self.now }
        ensures { (w : List ℕ) → HasReadWord pattern.now self.now w → IsTrue result ↔ Matches (chars pattern.now) w }
    {
        match self.at {
            Some(at) => last_mark(pattern, self.recall.row(at)),
            None => last_mark(pattern, self.marks.cells()),
        }
    }

    /// Begins anew, as if nothing had been read. It takes no memory.
    pub fn restart(&mut self, pattern: &Pattern)
        requires { IsMadeFor pattern.now self.old }
        ensures read { HasReadWord pattern.now self.new [] }
        ensures made { IsMadeFor pattern.now self.new }
    {
        if let Some(first) = self.first {
            self.at = Some(first);
            return;
        }
        pass_start(pattern.code(), &self.start, &mut self.marks);
        self.at = None;
    }
}
