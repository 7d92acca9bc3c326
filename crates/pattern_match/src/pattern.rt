//! A pattern that was read from its text.
ghost use Rattle.std.specs.Prelude.{◌≡◌, ◌≤◌, ◌*◌, ℕ, List, length, IfOk, IfErr, OnOk};
ghost use Rattle.std.specs.Str.{chars};
ghost use Rattle.pattern_match.specs.Expression.{Expression};
ghost use Rattle.pattern_match.specs.Positions.{positions};
ghost use Rattle.pattern_match.specs.Reading.{IsTreeOf, HasPositionsWithin, HasPositions, RefusesPattern};
ghost use Rattle.pattern_match.specs.Building.{position_limit};
ghost use Rattle.pattern_match.specs.Gaps.{HasGaps, gaps as gaps_from};
ghost use Rattle.pattern_match.specs.Compiled.{IsCompiled, tokens_of_text, code_of_text};

use crate::builder::compile;
use crate::counter::{Counter, LIMIT, count};
use crate::error::PatternError;
use crate::gaps::gaps_of;
use crate::instruction::Instruction;
use crate::lexer::tokens_of;
use crate::refusal::refusal;
use crate::token::Token;
use lexical_core::Text;
use std::alloc::{AllocError, Global};
use std::marker::Model;

/// A pattern: XML Schema part 2, appendix F, without `\d \w \i \c \p`, their negations and class subtraction. Contracts see its text.
#[derive(Drop)]
pub struct Pattern {
    text: Text,
    tokens: Vec<Token>,
    code: Vec<Instruction>,
    gaps: Vec<usize>,
}

impl Model for Pattern {
    ghost use Rattle.std.specs.Prelude.{◌≡◌, ℕ, List};
    ghost use Rattle.pattern_match.specs.Compiled.{IsCompiled};
    ghost use Rattle.pattern_match.specs.Gaps.{gaps as gaps_from};

    ghost Value = { List ℕ };

    ghost view = { λ p. p.text };

    ghost invariant = { λ p. IsCompiled p.text p.tokens.items p.code.items × (p.gaps.items ≡ gaps_from p.code.items) };
}

/// The tokens of a pattern, and its positions.
#[derive(Drop)]
struct Measured {
    tokens: Vec<Token>,
    positions: u64,
}

/// The tokens of a pattern that is not too large, and its positions. No code is made.
fn measure_tokens(alloc: Global, text: &str) -> Result<Measured, PatternError>
    ensures tokens { IfOk result (λ m. m.tokens.items ≡ tokens_of_text (chars text.now)) }
    ensures positions { IfOk result (λ m. HasPositions (chars text.now) m.positions) }
    ensures within { IfOk result (λ m. m.positions ≤ position_limit) }
    ensures error { IfErr result (λ e. RefusesPattern (chars text.now) e) }
{
    let characters = characters(alloc, text)?;
    match refusal(characters.as_slice()) {
        Some(place) => return Err(PatternError::Refused { place }),
        None => {}
    }
    let tokens = tokens_of(alloc, characters.as_slice())?;
    let mut counter = Counter::new(alloc, tokens.len() + 2)?;
    let positions = count(tokens.as_slice(), &mut counter);
    if positions > LIMIT {
        return Err(PatternError::TooLarge);
    }
    Ok(Measured { tokens, positions })
}

/// The characters of a text.
fn characters(alloc: Global, text: &str) -> Result<Vec<char>, AllocError>
    ensures { IfOk result (λ v. v.items ≡ chars text.now) }
{
    text.chars().collect(alloc)
}

impl Pattern {
    /// Reads a pattern from its whole text.
    pub fn read(alloc: Global, text: &str) -> Result<Pattern, PatternError>
        ensures text { IfOk result (λ p. p ≡ text.now) }
        ensures positions { OnOk result (HasPositionsWithin (chars text.now) position_limit) }
        ensures error { IfErr result (λ e. RefusesPattern (chars text.now) e) }
    {
        let tokens = match measure_tokens(alloc, text) {
            Ok(measured) => measured.tokens,
            Err(error) => return Err(error), // before any code is made
        };
        let code = compile(alloc, tokens.as_slice())?;
        let gaps = gaps_of(alloc, code.as_slice())?;
        let mut kept = Text::new(alloc);
        kept.extend(text.as_bytes())?;
        Ok(Pattern {
            text: kept,
            tokens,
            code,
            gaps,
        })
    }

    /// The positions of a pattern, from its whole text, which `read` then reads: the errors are its own. No code is
    /// made, and the time that it takes is bounded by the characters of the text alone.
    pub fn measure(alloc: Global, text: &str) -> Result<u64, PatternError>
        ensures positions { IfOk result (λ n. HasPositions (chars text.now) n) }
        ensures within { IfOk result (λ n. n ≤ position_limit) }
        ensures error { IfErr result (λ e. RefusesPattern (chars text.now) e) }
    {
        match measure_tokens(alloc, text) {
            Ok(measured) => Ok(measured.positions),
            Err(error) => Err(error),
        }
    }

    /// The text that was read, as bytes. It takes no memory.
    pub fn text(&self) -> &[u8]
        ensures { result.now ≡ self.now }
    {
        self.text.bytes()
    }

    /// The tokens that the code speaks of.
    pub(crate) fn tokens(&self) -> &[Token]
        ensures { result.now ≡ tokens_of_text (chars self.now) }
    {
        self.tokens.as_slice()
    }

    /// The code of the pattern: at most four instructions for each position.
    pub(crate) fn code(&self) -> &[Instruction]
        ensures size { (tree : Expression) → IsTreeOf (chars self.now) tree → length result.now ≤ 4 * positions tree }
        ensures code { result.now ≡ code_of_text (chars self.now) }
        ensures compiled { IsCompiled self.now (tokens_of_text (chars self.now)) result.now }
        ensures gaps { HasGaps result.now }
    {
        self.code.as_slice()
    }

    /// How many instructions stand from each on before the end of its branch.
    pub(crate) fn gaps(&self) -> &[usize]
        ensures { result.now ≡ gaps_from (code_of_text (chars self.now)) }
    {
        self.gaps.as_slice()
    }
}
