//! The pattern of a simple type, asked of the characters of a text as they come.
ghost use Rattle.std.specs.Prelude.{◌∷◌, ◌++◌, [], ℕ, List, length, IfOk, IsTrue};
ghost use Rattle.std.specs.List.{AllByRecursion};
ghost use Rattle.std.specs.Str.{chars};
ghost use Rattle.lexical_core.specs.XmlRuns.{IsXmlRun};
ghost use Rattle.lexical_core.specs.Characters.{IsSpace};
ghost use Rattle.pattern_match.specs.Compiled.{HasReadWord, IsMadeFor};
ghost use Rattle.data_types.specs.Collapsing.{gain_of, gap_text, HasCollapsed};
ghost use Rattle.facets.specs.Counts.{HasCounted};
ghost use Rattle.facets.specs.PatternChecks.{HasAsked, HasFollowed, TellsPattern};
ghost use Rattle.facets.specs.Rules.{BreaksPattern};

use crate::count::Count;
use crate::simple::Simple;
use data_types::{Collapse, Collapsed, Kind, RunChars, run_chars, space_count, word_count};
use pattern_match::{Matcher, Pattern};
use std::alloc::{AllocError, Global};

/// What the pattern is asked of.
#[derive(Drop)]
pub(crate) enum Asked {
    /// Nothing: there is no pattern, or it does not count.
    Nothing,
    /// The text as it is.
    Text(Matcher),
    /// The text collapsed.
    Collapsed(Collapse, Matcher),
}

impl Asked {
    /// Before the first character.
    pub(crate) fn new(alloc: Global, simple: &Simple) -> Result<Asked, AllocError>
        ensures { IfOk result (λ asked. HasAsked asked simple.now []) }
    {
        let Some(pattern) = &simple.pattern else {
            return Ok(Asked::Nothing);
        };
        match simple.kind {
            Kind::Decimal | Kind::Boolean | Kind::Binary | Kind::Envelope => Ok(Asked::Nothing),
            Kind::Text => {
                if simple.codes.is_some() {
                    return Ok(Asked::Nothing);
                }
                Ok(Asked::Text(Matcher::new(alloc, pattern)?))
            }
            _ => Ok(Asked::Collapsed(Collapse::new(), Matcher::new(alloc, pattern)?)),
        }
    }

    /// Begins anew. It takes no memory.
    pub(crate) fn restart(&mut self, simple: &Simple)
        requires { (text : List ℕ) × HasAsked self.old simple.now text }
        ensures { HasAsked self.new simple.now [] }
    {
        let Some(pattern) = &simple.pattern else {
            return;
        };
        match self {
            Asked::Nothing => {}
            Asked::Text(matcher) => matcher.restart(pattern),
            Asked::Collapsed(collapse, matcher) => {
                *collapse = Collapse::new();
                matcher.restart(pattern);
            }
        }
    }

    /// Takes a character with which there are so many, unless these are too many for a text: then its length has
    /// decided. It takes no memory.
    pub(crate) fn follow(&mut self, simple: &Simple, count: Count, c: char)
        requires { (text : List ℕ) × HasFollowed self.old simple.now text }
        ensures { (text : List ℕ) → HasFollowed self.old simple.now text → HasCounted count (length (text ++ c ∷ []))
            → HasFollowed self.new simple.now (text ++ c ∷ []) }
    {
        if count.is_too_long(simple) {
            return;
        }
        self.take(simple, c);
    }

    /// The same, of a run of some characters.
    pub(crate) fn follow_run(
        &mut self,
        simple: &Simple,
        count: Count,
        run: &[u8],
        characters: usize,
    )
        requires run { IsXmlRun run.now characters }
        requires made { (text : List ℕ) × HasFollowed self.old simple.now text }
        ensures { (r : IsXmlRun run.now characters) (text : List ℕ) → HasFollowed self.old simple.now text
            → HasCounted count (length (text ++ r.chars)) → HasFollowed self.new simple.now (text ++ r.chars) }
    {
        if count.is_too_long(simple) {
            return;
        }
        self.take_run(simple, run, characters);
    }

    /// Takes a character. It takes no memory.
    fn take(&mut self, simple: &Simple, c: char)
        requires { (text : List ℕ) × HasAsked self.old simple.now text }
        ensures { (text : List ℕ) → HasAsked self.old simple.now text
            → HasAsked self.new simple.now (text ++ c ∷ []) }
    {
        let Some(pattern) = &simple.pattern else {
            return;
        };
        match self {
            Asked::Nothing => {}
            Asked::Text(matcher) => matcher.step(pattern, c),
            Asked::Collapsed(collapse, matcher) => {
                let gain = collapse.take(c);
                take_gained(pattern, matcher, gain, c);
            }
        }
    }

    /// Takes a run of so many characters. It takes no memory.
    fn take_run(&mut self, simple: &Simple, run: &[u8], count: usize)
        requires run { IsXmlRun run.now count }
        requires made { (text : List ℕ) × HasAsked self.old simple.now text }
        ensures { (r : IsXmlRun run.now count) (text : List ℕ) → HasAsked self.old simple.now text
            → HasAsked self.new simple.now (text ++ r.chars) }
    {
        if simple.pattern.is_none() {
            return;
        }
        match run_chars(run, count) {
            RunChars::Codes(codes) => self.take_codes(simple, codes),
            RunChars::Text(text) => self.take_text(simple, text),
        }
    }

    /// Takes the characters of these codes.
    fn take_codes(&mut self, simple: &Simple, codes: &[u8])
        requires { (text : List ℕ) × HasAsked self.old simple.now text }
        ensures { (text : List ℕ) → HasAsked self.old simple.now text
            → HasAsked self.new simple.now (text ++ codes.now) }
    {
        let Some(pattern) = &simple.pattern else {
            return;
        };
        match self {
            Asked::Nothing => {}
            Asked::Text(matcher) => matcher.step_codes(pattern, codes),
            Asked::Collapsed(collapse, matcher) => take_gains(pattern, collapse, matcher, codes),
        }
    }

    /// Takes the characters of a text.
    fn take_text(&mut self, simple: &Simple, text: &str)
        requires { (before : List ℕ) × HasAsked self.old simple.now before }
        ensures { (before : List ℕ) → HasAsked self.old simple.now before
            → HasAsked self.new simple.now (before ++ chars text.now) }
    {
        for c in text.chars() {
            self.take(simple, c);
        }
    }

    /// Whether it is known without a step that a text of these codes breaks no pattern. Where it is false nothing is known.
    #[inline]
    pub(crate) fn knows(&self, simple: &Simple, codes: &[u8]) -> bool
        requires { (text : List ℕ) × HasAsked self.now simple.now text }
        ensures { IsTrue result → BreaksPattern simple.now codes.now → ⊥ }
    {
        let Some(pattern) = &simple.pattern else {
            return true;
        };
        match self {
            Asked::Text(matcher) => matcher.knows(pattern, codes),
            _ => false,
        }
    }

    /// Whether the pattern has what it was asked of.
    pub(crate) fn accepts(&self, simple: &Simple) -> bool
        requires { (text : List ℕ) × HasAsked self.now simple.now text }
        ensures { (text : List ℕ) → HasAsked self.now simple.now text → TellsPattern result simple.now text }
    {
        let Some(pattern) = &simple.pattern else {
            return true;
        };
        match self {
            Asked::Nothing => true,
            Asked::Text(matcher) => matcher.accepts(pattern),
            Asked::Collapsed(collapse, matcher) => {
                data_types::laws::a_text_is_collapsed_one_way();
                collapse.finish();
                matcher.accepts(pattern)
            }
        }
    }
}

/// Takes what the collapsed text gains at the characters of these codes.
fn take_gains(pattern: &Pattern, collapse: &mut Collapse, matcher: &mut Matcher, codes: &[u8])
    requires { IsMadeFor pattern.now matcher.old }
    ensures { (text collapsed : List ℕ) → HasCollapsed collapse.old text collapsed → HasReadWord pattern.now matcher.old collapsed
        → (more : List ℕ) × HasCollapsed collapse.new (text ++ codes.now) more × HasReadWord pattern.now matcher.new more }
{
    let mut rest = codes;
    while !rest.is_empty() {
        let (gap, behind) = rest.split_at(space_count(rest));
        let (word, after) = behind.split_at(word_count(behind));
        take_gap(collapse, gap);
        take_word(pattern, collapse, matcher, word);
        rest = after;
    }
}

/// Takes white space.
fn take_gap(collapse: &mut Collapse, gap: &[u8])
    requires { AllByRecursion IsSpace gap.now }
    ensures { (text collapsed : List ℕ) → HasCollapsed collapse.old text collapsed
        → HasCollapsed collapse.new (text ++ gap.now) collapsed }
{
    if !gap.is_empty() {
        collapse.take_spaces();
    }
}

/// Takes characters that are no white space.
fn take_word(pattern: &Pattern, collapse: &mut Collapse, matcher: &mut Matcher, word: &[u8])
    requires made { IsMadeFor pattern.now matcher.old }
    requires word { AllByRecursion (λ c. IsSpace c → ⊥) word.now }
    ensures made { IsMadeFor pattern.now matcher.new }
    ensures read { (text collapsed : List ℕ) → HasCollapsed collapse.old text collapsed → HasReadWord pattern.now matcher.old collapsed
        → (more : List ℕ) × HasCollapsed collapse.new (text ++ word.now) more × HasReadWord pattern.now matcher.new more }
{
    if word.is_empty() {
        return;
    }
    let gap = collapse.take_word();
    read_word(pattern, matcher, gap, word);
}

/// Reads a word, and the space before it where there is one.
fn read_word(pattern: &Pattern, matcher: &mut Matcher, gap: bool, word: &[u8])
    requires { IsMadeFor pattern.now matcher.old }
    ensures made { IsMadeFor pattern.now matcher.new }
    ensures read { (text : List ℕ) → HasReadWord pattern.now matcher.old text
        → HasReadWord pattern.now matcher.new (text ++ (gap_text gap ++ word.now)) }
{
    if gap {
        matcher.step(pattern, ' ');
    }
    matcher.step_codes(pattern, word);
}

/// Takes what the collapsed text gains at a character.
fn take_gained(pattern: &Pattern, matcher: &mut Matcher, gain: Collapsed, c: char)
    requires { IsMadeFor pattern.now matcher.old }
    ensures { (text : List ℕ) → HasReadWord pattern.now matcher.old text
        → HasReadWord pattern.now matcher.new (text ++ gain_of gain c) }
{
    match gain {
        Collapsed::Nothing => {}
        Collapsed::Char => matcher.step(pattern, c),
        Collapsed::SpaceAndChar => {
            matcher.step(pattern, ' ');
            matcher.step(pattern, c);
        }
    }
}
