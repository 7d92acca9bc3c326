//! The leaf that characters spell once their white space is collapsed: XML Schema part 2 §3.2 and §4.3.6.
ghost use Rattle.std.specs.Prelude.{◌≡◌, ◌+◌, ◌≤◌, ◌<◌, ◌^◌, ◌++◌, ◌∷◌, [], length, Option, List, ℕ, IsOk, OnOk, OnErr};
ghost use Rattle.std.specs.List.{AllByRecursion};
ghost use Rattle.std.specs.Str.{chars};
ghost use Rattle.lexical_core.specs.DecimalSoFar.{HasRead};
ghost use Rattle.lexical_core.specs.XmlRuns.{IsXmlRun};
ghost use Rattle.lexical_core.specs.Characters.{IsSpace};
ghost use Rattle.data_types.specs.WhiteSpace.{IsCollapsed};
ghost use Rattle.data_types.specs.Binaries.{without_spaces};
ghost use Rattle.data_types.specs.Collapsing.{gain_of, gap_text};
ghost use Rattle.data_types.specs.OctetSteps.{HasDecoded};
ghost use Rattle.data_types.specs.ShortTexts.{HasKept};
ghost use Rattle.data_types.specs.Kept.{kept_room};
ghost use Rattle.data_types.specs.LeafAnswers.{IsLeafAnswer, IsOctetCount};
ghost use Rattle.data_types.specs.LeafSteps.{HasGiven, HasValue, IsShortKind, IsNoText, value_memory, value_in_place, begun_in};
ghost use Rattle.data_types.specs.inner.Taking.{HasSpareFor, TakesChars};

use crate::booleans::boolean_of;
use crate::collapse::{Collapse, Collapsed};
use crate::dates::is_date_text;
use crate::kind::Kind;
use crate::leaf::LeafRef;
use crate::octets::OctetStep;
use crate::run::{RunChars, run_chars};
use crate::short::ShortText;
use crate::words::{is_short_word, space_count, word_count};
use lexical_core::{DecimalStep, DecimalText, Rule};
use std::alloc::{AllocError, Global};

/// What is kept of the collapsed text, by the kind.
#[derive(Drop)]
enum Value {
    /// A decimal.
    Decimal(DecimalStep),
    /// A truth value, a date or a time.
    Short(ShortText),
    /// A binary value.
    Octets(OctetStep),
}

/// A reader of the text of a leaf of any kind but text. It takes memory for the octets of binary values alone.
#[derive(Drop)]
pub(crate) struct CollapsedStep {
    collapse: Collapse,
    value: Value,
}

impl CollapsedStep {
    /// A reader for this kind before the first character. It takes no memory.
    pub(crate) fn new(alloc: Global, kind: Kind, most: Option<u64>) -> CollapsedStep
        requires { IsNoText kind }
        ensures { HasGiven result kind most [] }
    {
        CollapsedStep {
            collapse: Collapse::new(),
            value: Value::new(alloc, kind, most),
        }
    }

    /// Begins anew with the same limit and the memory that there is.
    pub(crate) fn restart(&mut self)
        ensures taken { (kind : Kind) (most : Option ℕ) (chars : List ℕ)
            → HasGiven self.old kind most chars → HasGiven self.new kind most [] }
        ensures held { (value_memory self.new.value).held ≡ [] }
        ensures room { (value_memory self.new.value).room ≡ (value_memory self.old.value).room }
    {
        self.collapse = Collapse::new();
        self.value.restart();
    }

    /// Makes room for so many more octets.
    pub(crate) fn reserve(&mut self, bytes: usize) -> Result<(), AllocError>
        ensures ok { OnOk result (length (value_memory self.new.value).held + bytes ≤ (value_memory self.new.value).room) }
        ensures taken { (kind : Kind) (most : Option ℕ) (chars : List ℕ)
            → HasGiven self.old kind most chars → HasGiven self.new kind most chars }
        ensures held { (value_memory self.new.value).held ≡ (value_memory self.old.value).held }
        ensures room { (value_memory self.old.value).room ≤ (value_memory self.new.value).room }
    {
        self.value.reserve(bytes)
    }

    /// Takes a character. After want of memory all is as before.
    pub(crate) fn take(&mut self, c: char) -> Result<(), AllocError>
        ensures ok { OnOk result ((kind : Kind) (most : Option ℕ) (chars : List ℕ)
            → HasGiven self.old kind most chars → HasGiven self.new kind most (chars ++ c ∷ [])) }
        ensures err { OnErr result (self.new ≡ self.old) }
        ensures within { length (value_memory self.old.value).held + begun_in self.old.value + 1
            ≤ (value_memory self.old.value).room → IsOk result }
        ensures room { (value_memory self.old.value).room ≤ (value_memory self.new.value).room }
        ensures count { length (value_memory self.new.value).held + begun_in self.new.value
            ≤ length (value_memory self.old.value).held + begun_in self.old.value + 1 }
        ensures few { begun_in self.old.value ≤ 3 }
    {
        let mut collapse = self.collapse;
        let gained = collapse.take(c);
        self.value.take(gained, c)?;
        self.collapse = collapse;
        Ok(())
    }

    /// Takes a run of characters. After want of memory all is as before.
    pub(crate) fn take_run(&mut self, run: &[u8], count: usize) -> Result<(), AllocError>
        requires { IsXmlRun run.now count }
        ensures ok { OnOk result ((r : IsXmlRun run.now count) (kind : Kind) (most : Option ℕ) (chars : List ℕ)
            → HasGiven self.old kind most chars → HasGiven self.new kind most (chars ++ r.chars)) }
        ensures err { OnErr result (self.new ≡ self.old) }
        ensures within { length (value_memory self.old.value).held + begun_in self.old.value + length run.now
            ≤ (value_memory self.old.value).room → IsOk result }
        ensures room { (value_memory self.old.value).room ≤ (value_memory self.new.value).room }
        ensures count { length (value_memory self.new.value).held + begun_in self.new.value
            ≤ length (value_memory self.old.value).held + begun_in self.old.value + length run.now }
        ensures few { begun_in self.old.value ≤ 3 }
    {
        self.value.reserve_for(run.len())?;
        match run_chars(run, count) {
            RunChars::Codes(codes) => self.take_codes(codes),
            RunChars::Text(text) => self.take_text(text),
        }
        Ok(())
    }

    /// Takes the characters of a text, for which there is room.
    fn take_text(&mut self, text: &str)
        requires { HasSpareFor self.old.value (length text.now) }
        ensures { TakesChars self.old self.new (chars text.now) (length text.now) }
    {
        for c in text.chars() {
            match self.take(c) {
                Ok(()) => {}
                Err(_) => unreachable!(),
            }
        }
    }

    /// Takes the characters of these codes, for which there is room.
    fn take_codes(&mut self, codes: &[u8])
        requires room { HasSpareFor self.old.value (length codes.now) }
        requires ascii { AllByRecursion (λ c. c < 128) codes.now }
        ensures { TakesChars self.old self.new codes.now (length codes.now) }
    {
        if is_short_word(codes) {
            self.take_word(codes);
        } else {
            self.take_pieces(codes);
        }
    }

    /// The same, a gap and a word at a time.
    #[inline(never)]
    fn take_pieces(&mut self, codes: &[u8])
        requires room { HasSpareFor self.old.value (length codes.now) }
        requires ascii { AllByRecursion (λ c. c < 128) codes.now }
        ensures { TakesChars self.old self.new codes.now (length codes.now) }
    {
        let mut rest = codes;
        while !rest.is_empty() {
            let (gap, behind) = rest.split_at(space_count(rest));
            let (word, after) = behind.split_at(word_count(behind));
            self.take_gap(gap);
            self.take_piece(word);
            rest = after;
        }
    }

    /// Takes a word between others, for which there is room.
    #[inline(never)]
    fn take_piece(&mut self, word: &[u8])
        requires room { HasSpareFor self.old.value (length word.now) }
        requires ascii { AllByRecursion (λ c. c < 128) word.now }
        requires word { AllByRecursion (λ c. IsSpace c → ⊥) word.now }
        ensures { TakesChars self.old self.new word.now (length word.now) }
    {
        self.take_word(word);
    }

    /// Takes white space.
    #[inline]
    fn take_gap(&mut self, gap: &[u8])
        requires { AllByRecursion IsSpace gap.now }
        ensures taken { (kind : Kind) (most : Option ℕ) (before : List ℕ)
            → HasGiven self.old kind most before → HasGiven self.new kind most (before ++ gap.now) }
        ensures value { self.new.value ≡ self.old.value }
    {
        if !gap.is_empty() {
            self.collapse.take_spaces();
        }
    }

    /// Takes characters that are no white space, for which there is room.
    #[inline(always)]
    fn take_word(&mut self, word: &[u8])
        requires room { HasSpareFor self.old.value (length word.now) }
        requires ascii { AllByRecursion (λ c. c < 128) word.now }
        requires word { AllByRecursion (λ c. IsSpace c → ⊥) word.now }
        ensures { TakesChars self.old self.new word.now (length word.now) }
    {
        if word.is_empty() {
            return;
        }
        let gap = self.collapse.take_word();
        self.value.take_word(gap, word);
    }

    /// How many octets are kept.
    pub(crate) fn kept(&self) -> usize
        ensures count { result ≡ length (value_memory self.now.value).held }
        ensures small { result < 2 ^ 63 }
    {
        match &self.value {
            Value::Decimal(_) | Value::Short(_) => 0,
            Value::Octets(step) => step.len(),
        }
    }

    /// How many bytes are held in place.
    pub(crate) fn in_place(&self) -> usize
        ensures count { result ≡ value_in_place self.now.value }
        ensures few { result ≤ 35 }
    {
        match &self.value {
            Value::Decimal(_) => 0,
            Value::Short(text) => text.len(),
            Value::Octets(step) => step.begun(),
        }
    }

    /// The leaf of this kind that the characters spell, as `LeafStep::finish`.
    #[inline(always)]
    pub(crate) fn finish(&self, kind: Kind) -> Result<LeafRef<'_>, Rule>
        ensures { (most : Option ℕ) (chars : List ℕ) → HasGiven self.now kind most chars
            → IsLeafAnswer kind most chars result }
    {
        self.collapse.finish();
        match &self.value {
            Value::Decimal(step) => decimal_leaf(step),
            Value::Short(text) => short_leaf(kind, text),
            Value::Octets(step) => binary_leaf(step),
        }
    }

    /// How many octets the characters spell, as `LeafStep::octet_count`.
    pub(crate) fn octet_count(&self) -> Result<Option<u64>, Rule>
        ensures { (kind : Kind) (most : Option ℕ) (chars : List ℕ) → HasGiven self.now kind most chars
            → IsOctetCount kind chars result }
    {
        self.collapse.finish();
        match &self.value {
            Value::Decimal(_) | Value::Short(_) => Err(Rule::BadText),
            Value::Octets(step) => step.octet_count(),
        }
    }
}

impl Value {
    /// What takes the characters of a value of the kind, before the first; of a binary value no more octets are kept than this.
    fn new(alloc: Global, kind: Kind, most: Option<u64>) -> Value
        requires { IsNoText kind }
        ensures { HasValue kind result most [] [] }
    {
        match kind {
            Kind::Decimal => Value::Decimal(DecimalStep::new()),
            Kind::Binary => Value::Octets(OctetStep::new(alloc, most)),
            _ => Value::Short(ShortText::new()),
        }
    }

    /// Begins anew for a value of the same kind, with the memory that there is.
    fn restart(&mut self)
        ensures taken { (kind : Kind) (most : Option ℕ) (chars collapsed : List ℕ)
            → HasValue kind self.old most chars collapsed → HasValue kind self.new most [] [] }
        ensures held { (value_memory self.new).held ≡ [] }
        ensures room { (value_memory self.new).room ≡ (value_memory self.old).room }
    {
        match self {
            Value::Decimal(step) => *step = DecimalStep::new(),
            Value::Short(text) => *text = ShortText::new(),
            Value::Octets(step) => step.restart(),
        }
    }

    /// Makes room for so many more octets.
    fn reserve(&mut self, bytes: usize) -> Result<(), AllocError>
        ensures ok { OnOk result (length (value_memory self.new).held + bytes ≤ (value_memory self.new).room) }
        ensures taken { (kind : Kind) (most : Option ℕ) (chars collapsed : List ℕ)
            → HasValue kind self.old most chars collapsed → HasValue kind self.new most chars collapsed }
        ensures held { (value_memory self.new).held ≡ (value_memory self.old).held }
        ensures room { (value_memory self.old).room ≤ (value_memory self.new).room }
    {
        match self {
            Value::Decimal(_) | Value::Short(_) => Ok(()),
            Value::Octets(step) => step.reserve(bytes),
        }
    }

    /// Makes room for the octets of so many more characters. After want of memory all is as before.
    fn reserve_for(&mut self, count: usize) -> Result<(), AllocError>
        requires { count < 2 ^ 63 }
        ensures ok { OnOk result (length (value_memory self.new).held + begun_in self.new + count ≤ (value_memory self.new).room) }
        ensures err { OnErr result (self.new ≡ self.old) }
        ensures taken { (kind : Kind) (most : Option ℕ) (chars collapsed : List ℕ)
            → HasValue kind self.old most chars collapsed → HasValue kind self.new most chars collapsed }
        ensures within { length (value_memory self.old).held + begun_in self.old + count ≤ (value_memory self.old).room → IsOk result }
        ensures held { length (value_memory self.new).held + begun_in self.new ≡ length (value_memory self.old).held + begun_in self.old }
        ensures room { (value_memory self.old).room ≤ (value_memory self.new).room }
        ensures few { begun_in self.old ≤ 3 }
    {
        match self {
            Value::Decimal(_) | Value::Short(_) => Ok(()),
            Value::Octets(step) => step.reserve_for(count),
        }
    }

    /// Takes a character, and what the collapsed text gains at it.
    fn take(&mut self, gain: Collapsed, c: char) -> Result<(), AllocError>
        requires { IsSpace c → gain ≡ Collapsed.Nothing }
        ensures ok { OnOk result ((kind : Kind) (most : Option ℕ) (chars collapsed : List ℕ)
            → HasValue kind self.old most chars collapsed
            → HasValue kind self.new most (chars ++ c ∷ []) (collapsed ++ gain_of gain c)) }
        ensures err { OnErr result (self.new ≡ self.old) }
        ensures within { length (value_memory self.old).held + begun_in self.old + 1 ≤ (value_memory self.old).room → IsOk result }
        ensures room { (value_memory self.old).room ≤ (value_memory self.new).room }
        ensures count { length (value_memory self.new).held + begun_in self.new
            ≤ length (value_memory self.old).held + begun_in self.old + 1 }
        ensures few { begun_in self.old ≤ 3 }
    {
        match self {
            Value::Decimal(step) => take_decimal(step, gain, c),
            Value::Short(text) => take_short(text, gain, c),
            Value::Octets(step) => return take_octets(step, gain, c),
        }
        Ok(())
    }

    /// Takes a word, for which there is room, and the space before it, where the collapsed text gains one.
    #[inline(always)]
    fn take_word(&mut self, gap: bool, word: &[u8])
        requires room { HasSpareFor self.old (length word.now) }
        requires ascii { AllByRecursion (λ c. c < 128) word.now }
        requires word { AllByRecursion (λ c. IsSpace c → ⊥) word.now }
        ensures taken { (kind : Kind) (most : Option ℕ) (chars collapsed : List ℕ)
            → HasValue kind self.old most chars collapsed
            → HasValue kind self.new most (chars ++ word.now) (collapsed ++ (gap_text gap ++ word.now)) }
        ensures room { (value_memory self.old).room ≤ (value_memory self.new).room }
        ensures count { length (value_memory self.new).held + begun_in self.new
            ≤ length (value_memory self.old).held + begun_in self.old + length word.now }
    {
        match self {
            Value::Decimal(step) => take_decimal_word(step, gap, word),
            Value::Short(text) => take_short_word(text, gap, word),
            Value::Octets(step) => step.take_codes(word),
        }
    }
}

/// Takes what a decimal's text gains.
fn take_decimal(step: &mut DecimalStep, gain: Collapsed, c: char)
    ensures { (text : List ℕ) → HasRead step.old text → HasRead step.new (text ++ gain_of gain c) }
{
    match gain {
        Collapsed::Nothing => {}
        Collapsed::Char => step.take(c),
        Collapsed::SpaceAndChar => {
            step.take(' ');
            step.take(c);
        }
    }
}

/// Takes a word of a decimal's text, and the space before it where there is one.
#[inline(always)]
fn take_decimal_word(step: &mut DecimalStep, gap: bool, word: &[u8])
    ensures { (text : List ℕ) → HasRead step.old text → HasRead step.new (text ++ (gap_text gap ++ word.now)) }
{
    if gap {
        step.take(' ');
    }
    step.take_codes(word);
}

/// Takes what the text of a truth value, a date or a time gains.
fn take_short(kept: &mut ShortText, gain: Collapsed, c: char)
    ensures { (text : List ℕ) → HasKept kept.old text → HasKept kept.new (text ++ gain_of gain c) }
{
    match gain {
        Collapsed::Nothing => {}
        Collapsed::Char => kept.take(c),
        Collapsed::SpaceAndChar => {
            kept.take(' ');
            kept.take(c);
        }
    }
}

/// Takes a word of the text of a truth value, a date or a time, and the space before it where there is one.
#[inline(always)]
fn take_short_word(kept: &mut ShortText, gap: bool, word: &[u8])
    requires { AllByRecursion (λ c. c < 128) word.now }
    ensures { (text : List ℕ) → HasKept kept.old text → HasKept kept.new (text ++ (gap_text gap ++ word.now)) }
{
    if gap {
        kept.take(' ');
    }
    kept.take_codes(word);
}

/// Takes what a binary value's text gains, without its spaces.
fn take_octets(step: &mut OctetStep, gain: Collapsed, c: char) -> Result<(), AllocError>
    requires { IsSpace c → gain ≡ Collapsed.Nothing }
    ensures ok { OnOk result ((most : Option ℕ) (text : List ℕ) → HasDecoded step.old most (without_spaces text)
        → HasDecoded step.new most (without_spaces (text ++ gain_of gain c))) }
    ensures err { OnErr result (step.new ≡ step.old) }
    ensures within { length step.old.kept.bytes.held + step.old.count + 1 ≤ kept_room step.old.kept → IsOk result }
    ensures room { kept_room step.old.kept ≤ kept_room step.new.kept }
    ensures count { length step.new.kept.bytes.held + step.new.count
        ≤ length step.old.kept.bytes.held + step.old.count + 1 }
{
    match gain {
        Collapsed::Nothing => Ok(()),
        Collapsed::Char | Collapsed::SpaceAndChar => step.take(c),
    }
}

/// The leaf of a decimal's characters.
#[inline(always)]
fn decimal_leaf(step: &DecimalStep) -> Result<LeafRef<'_>, Rule>
    ensures { (most : Option ℕ) (chars text : List ℕ) → IsCollapsed chars text → HasRead step.now text
        → IsLeafAnswer Kind.Decimal most chars result }
{
    match step.finish() {
        DecimalText::Value(number) => Ok(LeafRef::Number(number)),
        DecimalText::TooLong => Err(Rule::Digits),
        DecimalText::Bad => Err(Rule::BadText),
    }
}

/// The leaf of a binary value's characters.
#[inline(always)]
fn binary_leaf(step: &OctetStep) -> Result<LeafRef<'_>, Rule>
    ensures { (most : Option ℕ) (chars text : List ℕ) → IsCollapsed chars text
        → HasDecoded step.now most (without_spaces text) → IsLeafAnswer Kind.Binary most chars result }
{
    match step.finish() {
        Ok(octets) => Ok(LeafRef::Bytes(octets)),
        Err(rule) => Err(rule),
    }
}

/// The leaf of the characters of a truth value, a date or a time.
#[inline(always)]
fn short_leaf(kind: Kind, kept: &ShortText) -> Result<LeafRef<'_>, Rule>
    ensures { (most : Option ℕ) (chars text : List ℕ) → IsShortKind kind → IsCollapsed chars text
        → HasKept kept.now text → IsLeafAnswer kind most chars result }
{
    let Some(text) = kept.text() else {
        return Err(Rule::BadText);
    };
    if kind == Kind::Boolean {
        return match boolean_of(text) {
            Some(flag) => Ok(LeafRef::Flag(flag)),
            None => Err(Rule::BadText),
        };
    }
    if is_date_text(kind, text) {
        Ok(LeafRef::Bytes(text))
    } else {
        Err(Rule::BadText)
    }
}
