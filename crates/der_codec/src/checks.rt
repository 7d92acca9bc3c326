//! Checks of leaves that are kept for the next leaf of their type.
ghost use Rattle.std.specs.Prelude.{◌≡◌, ◌+◌, ◌<◌, ◌≤◌, [], ℕ, List, length, true, Some, None, IsOk, IfOk, OnOk, IsErrOf, IsFalse, IsTrue};
ghost use Rattle.std.specs.Option.{is_some};
ghost use Rattle.lexical_core.specs.XmlRuns.{IsXmlRun};
ghost use Rattle.data_types.specs.Leaf.{Leaf};
ghost use Rattle.facets.specs.declared.simple.Simple.{Simple as SimpleType};
ghost use Rattle.facets.specs.LeafChecks.{IsWithinLimits};
ghost use Rattle.facets.specs.LeafUnder.{GivesLeaf};
ghost use Rattle.facets.specs.LeafVerdicts.{HasVerdictTaken, IsVerdictMadeFor, IsFreeText, verdict_room};
ghost use Rattle.reference_check.specs.Forms.{Graph, text_type};
ghost use Rattle.message_model.specs.Tables.{types_of};
ghost use Rattle.der_codec.specs.Checked.{ChecksType, ChecksIfAny, CheckTypes, IsToldOf};
ghost use Rattle.der_codec.specs.Reserved.{WantsCheck, HasCheckAt, HasChecks, IsRoomyCheck, KeepsOthers};

use data_types::Kind;
use facets::{LeafVerdict, Simple};
use lexical_core::Rule;
use message_model::Model;
use std::alloc::{AllocError, Global};

/// Why contents are not taken.
#[derive(Clone, Copy, Debug)]
pub enum Refusal {
    /// They break this rule.
    Breaks(Rule),
    /// There was no memory.
    Memory,
}

/// Checks by the number of their type, each made when it is first wanted.
#[derive(Drop)]
pub struct Checks {
    pub(crate) alloc: Global,
    entries: Vec<Option<Box<LeafVerdict>>>,
}

/// A check for the simple type.
fn fresh(alloc: Global, simple: &Simple) -> Result<Box<LeafVerdict>, AllocError>
    requires { IsWithinLimits simple.now }
    ensures { IfOk result (λ check. HasVerdictTaken check.value simple.now []) }
{
    Ok(Box::new(alloc, LeafVerdict::new(alloc, simple)?)?)
}

/// What a check tells of a run of so many characters.
fn told_by(
    check: &mut LeafVerdict,
    simple: &Simple,
    run: &[u8],
    count: usize,
) -> Result<(), Refusal>
    requires run { IsXmlRun run.now count }
    requires made { IsVerdictMadeFor check.old simple.now }
    ensures made { IsVerdictMadeFor check.new simple.now }
    ensures told { (r : IsXmlRun run.now count) → IsToldOf simple.now r.chars result }
    ensures room { verdict_room check.old ≤ verdict_room check.new }
    ensures within { length run.now + 3 ≤ verdict_room check.old → IsErrOf result Refusal.Memory → ⊥ }
{
    check.restart(simple);
    match check.take_run(simple, run, count) {
        Ok(()) => match check.finish(simple) {
            Ok(()) => Ok(()),
            Err(rule) => Err(Refusal::Breaks(rule)),
        },
        Err(_) => Err(Refusal::Memory),
    }
}

impl Checks {
    /// No check. It takes no memory.
    pub fn new(alloc: Global) -> Checks
        ensures made { (types : Graph ℕ SimpleType) → CheckTypes types result }
    {
        Checks {
            alloc,
            entries: Vec::new(alloc),
        }
    }

    /// What a run of so many characters is under the simple type, which is that of this number.
    pub(crate) fn tell(
        &mut self,
        number: u32,
        simple: &Simple,
        run: &[u8],
        count: usize,
    ) -> Result<(), Refusal>
        requires run { IsXmlRun run.now count }
        requires limits { IsWithinLimits simple.now }
        requires made { (types : Graph ℕ SimpleType) × (text_type (types number) ≡ Some simple.now) × CheckTypes types self.old }
        ensures made { (types : Graph ℕ SimpleType) → text_type (types number) ≡ Some simple.now → CheckTypes types self.old → CheckTypes types self.new }
        ensures told { (r : IsXmlRun run.now count) → IsToldOf simple.now r.chars result }
        ensures room { (types : Graph ℕ SimpleType) (bytes : ℕ) → HasChecks types bytes self.old → HasChecks types bytes self.new }
        ensures within { (bytes : ℕ) → HasCheckAt bytes self.old.entries.items number → length run.now ≤ bytes → IsErrOf result Refusal.Memory → ⊥ }
    {
        let mut check = match self.check_at(number, simple) {
            Ok(check) => check,
            Err(_) => return Err(Refusal::Memory),
        };
        let result = told_by(&mut check, simple, run, count);
        self.keep(number, check);
        result
    }

    /// Whether it is known without a step of the check that a run of so many characters is a leaf under the simple type
    /// without codes, which is that of this number. Where it is false nothing is known.
    #[inline]
    pub(crate) fn knows(&self, number: u32, simple: &Simple, run: &[u8], count: usize) -> bool
        requires run { IsXmlRun run.now count }
        requires free { IsFreeText simple.now }
        requires made { (types : Graph ℕ SimpleType) × (text_type (types number) ≡ Some simple.now) × CheckTypes types self.now }
        ensures { (r : IsXmlRun run.now count) → IsTrue result → (leaf : Leaf) × GivesLeaf simple.now r.chars leaf }
    {
        let at = number as usize;
        if at >= self.entries.len() {
            return false;
        }
        match &self.entries[at] {
            Some(check) => check.knows(simple, run, count),
            None => false,
        }
    }

    /// The check of the simple type, which is that of this number, before the first character. It is no longer kept here.
    pub(crate) fn begin(
        &mut self,
        number: u32,
        simple: &Simple,
    ) -> Result<Box<LeafVerdict>, AllocError>
        requires limits { IsWithinLimits simple.now }
        requires made { (types : Graph ℕ SimpleType) × (text_type (types number) ≡ Some simple.now) × CheckTypes types self.old }
        ensures made { (types : Graph ℕ SimpleType) → CheckTypes types self.old → CheckTypes types self.new }
        ensures begun { IfOk result (λ check. HasVerdictTaken check.value simple.now []) }
    {
        let mut check = match self.check_at(number, simple) {
            Ok(check) => check,
            Err(error) => return Err(error),
        };
        check.restart(simple);
        Ok(check)
    }

    /// What such a check tells of the characters that it has taken. It is kept here again.
    pub(crate) fn end(
        &mut self,
        number: u32,
        simple: &Simple,
        check: Box<LeafVerdict>,
    ) -> Result<(), Refusal>
        requires { IsVerdictMadeFor check.value simple.now }
        ensures made { (types : Graph ℕ SimpleType) → text_type (types number) ≡ Some simple.now → CheckTypes types self.old → CheckTypes types self.new }
        ensures told { (text : List ℕ) → HasVerdictTaken check.value simple.now text → IsToldOf simple.now text result }
    {
        let result = match check.finish(simple) {
            Ok(()) => Ok(()),
            Err(rule) => Err(Refusal::Breaks(rule)),
        };
        self.keep(number, check);
        result
    }

    /// Takes the check of the type away, or makes one.
    fn check_at(&mut self, number: u32, simple: &Simple) -> Result<Box<LeafVerdict>, AllocError>
        requires limits { IsWithinLimits simple.now }
        requires made { (types : Graph ℕ SimpleType) × (text_type (types number) ≡ Some simple.now) × CheckTypes types self.old }
        ensures kept { (types : Graph ℕ SimpleType) → CheckTypes types self.old → CheckTypes types self.new }
        ensures made { IfOk result (λ check. IsVerdictMadeFor check.value simple.now) }
        ensures others { KeepsOthers number self.old.entries.items self.new.entries.items }
        ensures size { length self.new.entries.items ≡ length self.old.entries.items }
        ensures there { (bytes : ℕ) → HasCheckAt bytes self.old.entries.items number → IfOk result (λ check. IsRoomyCheck bytes (Some check)) }
        ensures ok { (bytes : ℕ) → HasCheckAt bytes self.old.entries.items number → IsOk result }
    {
        match self.take(number) {
            Some(check) => Ok(check),
            None => fresh(self.alloc, simple),
        }
    }

    /// Takes the check of the type away; `None` where there is none.
    fn take(&mut self, number: u32) -> Option<Box<LeafVerdict>>
        ensures kept { (types : Graph ℕ SimpleType) → CheckTypes types self.old → CheckTypes types self.new }
        ensures made { (types : Graph ℕ SimpleType) → CheckTypes types self.old → ChecksIfAny types number result }
        ensures others { KeepsOthers number self.old.entries.items self.new.entries.items }
        ensures size { length self.new.entries.items ≡ length self.old.entries.items }
        ensures there { (bytes : ℕ) → HasCheckAt bytes self.old.entries.items number → IsRoomyCheck bytes result }
    {
        let at = number as usize;
        if at < self.entries.len() {
            self.entries[at].take()
        } else {
            None
        }
    }

    /// Keeps a check of the type, unless there is no memory for it.
    fn keep(&mut self, number: u32, check: Box<LeafVerdict>)
        ensures made { (types : Graph ℕ SimpleType) → CheckTypes types self.old → ChecksType types number check.value → CheckTypes types self.new }
        ensures others { KeepsOthers number self.old.entries.items self.new.entries.items }
        ensures there { (bytes : ℕ) → number < length self.old.entries.items → IsRoomyCheck bytes (Some check) → HasCheckAt bytes self.new.entries.items number }
    {
        if (number as usize) < self.entries.len() {
            self.put(number, check);
            return;
        }
        if !self.grow(number) {
            return;
        }
        if (number as usize) < self.entries.len() {
            self.put(number, check);
        }
    }

    /// Keeps a check of the type, for which there is room.
    fn put(&mut self, number: u32, check: Box<LeafVerdict>)
        requires { number < length self.old.entries.items }
        ensures made { (types : Graph ℕ SimpleType) → CheckTypes types self.old → ChecksType types number check.value → CheckTypes types self.new }
        ensures others { KeepsOthers number self.old.entries.items self.new.entries.items }
        ensures there { (bytes : ℕ) → IsRoomyCheck bytes (Some check) → HasCheckAt bytes self.new.entries.items number }
    {
        self.entries[number as usize] = Some(check);
    }

    /// Makes room for the check of the type; false where there is no memory.
    fn grow(&mut self, number: u32) -> bool
        ensures made { (types : Graph ℕ SimpleType) → CheckTypes types self.old → CheckTypes types self.new }
        ensures all { (bytes n : ℕ) → HasCheckAt bytes self.old.entries.items n → HasCheckAt bytes self.new.entries.items n }
    {
        for _at in self.entries.len()..number as usize + 1 {
            if self.entries.push(None).is_err() {
                return false;
            }
        }
        true
    }

    /// Makes the check of each type for which one is kept, with room for texts of so many bytes.
    pub(crate) fn reserve(&mut self, model: &Model, bytes: usize) -> Result<(), AllocError>
        requires { CheckTypes (types_of model.now) self.old }
        ensures made { CheckTypes (types_of model.now) self.new }
        ensures room { (less : ℕ) → HasChecks (types_of model.now) less self.old → HasChecks (types_of model.now) less self.new }
        ensures ok { OnOk result (HasChecks (types_of model.now) bytes self.new) }
    {
        for number in 0..model.type_count() {
            if let Err(error) = self.reserve_at(model, number, bytes) {
                return Err(error);
            }
        }
        Ok(())
    }

    /// The same of the type of this number.
    fn reserve_at(&mut self, model: &Model, number: u32, bytes: usize) -> Result<(), AllocError>
        requires { CheckTypes (types_of model.now) self.old }
        ensures made { CheckTypes (types_of model.now) self.new }
        ensures room { (less n : ℕ) → HasCheckAt less self.old.entries.items n → HasCheckAt less self.new.entries.items n }
        ensures ok { OnOk result ((simple : SimpleType) → text_type (types_of model.now number) ≡ Some simple → WantsCheck simple → HasCheckAt bytes self.new.entries.items number) }
    {
        let Some(simple) = model.text_type(number) else {
            return Ok(());
        };
        if !wants_check(simple) {
            return Ok(());
        }
        let _ = model.type_count();
        self.reserve_one(number, simple, bytes)
    }

    /// The same of the simple type, which is that of this number.
    fn reserve_one(&mut self, number: u32, simple: &Simple, bytes: usize) -> Result<(), AllocError>
        requires limits { IsWithinLimits simple.now }
        requires made { (types : Graph ℕ SimpleType) × (text_type (types number) ≡ Some simple.now) × CheckTypes types self.old }
        ensures made { (types : Graph ℕ SimpleType) → text_type (types number) ≡ Some simple.now → CheckTypes types self.old → CheckTypes types self.new }
        ensures room { (less n : ℕ) → HasCheckAt less self.old.entries.items n → HasCheckAt less self.new.entries.items n }
        ensures ok { OnOk result (HasCheckAt bytes self.new.entries.items number) }
    {
        let Some(enough) = bytes.checked_add(3) else {
            return Err(AllocError);
        };
        if !self.grow(number) {
            return Err(AllocError);
        }
        if self.entries.len() <= number as usize {
            return Err(AllocError);
        }
        let mut check = match self.check_at(number, simple) {
            Ok(check) => check,
            Err(error) => return Err(error),
        };
        let result = check.reserve(enough);
        self.put(number, check);
        result
    }
}

/// Whether a check is kept for the texts of the simple type.
fn wants_check(simple: &Simple) -> bool
    ensures { IsFalse result → WantsCheck simple.now → ⊥ }
{
    match simple.kind {
        Kind::Decimal | Kind::Boolean | Kind::Binary | Kind::Envelope => false,
        Kind::Text => has_pattern(simple),
        _ => true,
    }
}

/// Whether the simple type has no codes, and a pattern.
fn has_pattern(simple: &Simple) -> bool
    ensures { IsFalse result → simple.now.codes ≡ None → is_some simple.now.pattern ≡ true → ⊥ }
{
    if simple.codes.is_some() {
        return false;
    }
    simple.pattern.is_some()
}
