//! The octets of headers, as the reader of DER takes them: X.690 §8.1.2, §8.1.3.
ghost use Rattle.std.specs.Prelude.{◌≡◌, ◌↔◌, ◌+◌, ◌<◌, ◌≤◌, ◌^◌, ◌++◌, ◌∷◌, [], ℕ, List, IfOk, IfErr, IfSome, IsErrOf, IsTrue, IsFalse, true, false, Some, None, length, take, drop, vec_capacity};
ghost use Rattle.lexical_core.specs.Tree.{Tree};
ghost use Rattle.der_octets.specs.TagSteps as tags;
ghost use Rattle.der_octets.specs.LengthSteps as lengths;
ghost use Rattle.der_octets.specs.declared.length_step.LengthStep.{LengthStep as Lengths};
ghost use Rattle.der_octets.specs.declared.tag_step.TagStep.{TagStep as Steps};
ghost use Rattle.reference_check.specs.Words.{UpTo};
ghost use Rattle.message_model.specs.Tables.{message_of};
ghost use Rattle.der_model.specs.DerMessage.{DerMessage, in_der};
ghost use Rattle.der_codec.specs.Levels.{inwards};
ghost use Rattle.der_codec.specs.Decoding.{HasReadParts, IsStopped, IsBelowEnd, IsPastEnd, end_of_levels, IsHeaderDue, IsAdvanced, IsSettled, IsOutermost, AwaitsInstance, HasIdentifier, HasLengthOctets, level_at, IsFull, IsNoCut, BeginsContents, IsLengthDue, depth_of};

use crate::components::{Added, Found, identify};
use crate::decoder::{Decoder, Due, Stop};
use crate::level::{Level, Spot};
use der_octets::{Identifier, LengthRead, LengthStep, TagClass, TagRead, TagStep};
use lexical_core::Rule;
use message_model::Model;

impl Decoder {
    /// Goes on with a header that is not whole.
    fn go_on(&mut self, due: Due) -> Result<(), Stop>
        requires { self.old.place < 2 ^ 63 }
        ensures levels { self.new.levels ≡ self.old.levels }
        ensures place { self.new.place ≡ self.old.place + 1 }
        ensures start { self.new.start ≡ self.old.start }
        ensures due { self.new.due ≡ due }
        ensures ok { IfOk result (λ _. IsBelowEnd (self.old.place + 1) (end_of_levels self.old.levels.items)) }
        ensures err { IfErr result (λ stop. (stop ≡ Stop.Fault Rule.Overrun self.old.start Added.Nothing) × IsPastEnd (self.old.place + 1) (end_of_levels self.old.levels.items)) }
    {
        self.place += 1;
        self.due = due;
        self.within()
    }

    /// Takes an octet of a header, where one is due and the value that is open does not end here.
    pub fn take_header(&mut self, model: &Model, octet: u8) -> Result<(), Stop>
        requires room { self.old.place < 2 ^ 63 }
        requires due { IsHeaderDue self.old.due }
        requires low { IsBelowEnd self.old.place (end_of_levels self.old.levels.items) }
        requires read { (fragment : Tree → List ℕ) × (bytes : List ℕ) × HasReadParts (in_der fragment (message_of model.now)) self.old bytes }
        ensures ok { (fragment : Tree → List ℕ) (bytes : List ℕ) → HasReadParts (in_der fragment (message_of model.now)) self.old bytes → IfOk result (λ _. HasReadParts (in_der fragment (message_of model.now)) self.new (bytes ++ octet ∷ [])) }
        ensures err { (fragment : Tree → List ℕ) (bytes : List ℕ) → HasReadParts (in_der fragment (message_of model.now)) self.old bytes → IfErr result (λ stop. IsStopped (in_der fragment (message_of model.now)) self.new (bytes ++ octet ∷ []) stop) }
        ensures place { IfOk result (λ _. self.new.place ≡ self.old.place + 1) }
        ensures low { IfOk result (λ _. IsSettled self.new.due self.new.place (end_of_levels self.new.levels.items)) }
        ensures full { IsErrOf result Stop.Memory → IsFull self.old.levels }
        ensures room { vec_capacity self.old.levels ≤ vec_capacity self.new.levels }
        ensures stays { (fragment : Tree → List ℕ) (bytes : List ℕ) → HasReadParts (in_der fragment (message_of model.now)) self.old bytes → IfErr result (λ stop. IsNoCut stop) }
        ensures begun { IfOk result (λ _. BeginsContents self.new.due self.new.start self.new.place) }
        ensures depth { IsLengthDue self.old.due → IfOk result (λ _. depth_of self.new ≡ depth_of self.old) }
        ensures long { IsErrOf result Stop.Memory → IsLengthDue self.old.due }
    {
        match self.due {
            Due::Tag(step) => self.take_tag(model, step, octet),
            Due::Length {
                constructed,
                spot,
                step,
            } => self.take_length(constructed, spot, step, octet),
            _ => Err(Stop::Memory),
        }
    }

    /// Takes an identifier octet.
    fn take_tag(&mut self, model: &Model, step: TagStep, octet: u8) -> Result<(), Stop>
        requires room { self.old.place < 2 ^ 63 }
        requires due { self.old.due ≡ Due.Tag step }
        requires low { IsBelowEnd self.old.place (end_of_levels self.old.levels.items) }
        requires read { (fragment : Tree → List ℕ) × (bytes : List ℕ) × HasReadParts (in_der fragment (message_of model.now)) self.old bytes }
        ensures ok { (fragment : Tree → List ℕ) (bytes : List ℕ) → HasReadParts (in_der fragment (message_of model.now)) self.old bytes → IfOk result (λ _. HasReadParts (in_der fragment (message_of model.now)) self.new (bytes ++ octet ∷ [])) }
        ensures err { (fragment : Tree → List ℕ) (bytes : List ℕ) → HasReadParts (in_der fragment (message_of model.now)) self.old bytes → IfErr result (λ stop. IsStopped (in_der fragment (message_of model.now)) self.new (bytes ++ octet ∷ []) stop) }
        ensures place { IfOk result (λ _. self.new.place ≡ self.old.place + 1) }
        ensures low { IfOk result (λ _. IsSettled self.new.due self.new.place (end_of_levels self.new.levels.items)) }
        ensures fault { IsErrOf result Stop.Memory → ⊥ }
        ensures room { vec_capacity self.old.levels ≤ vec_capacity self.new.levels }
        ensures stays { (fragment : Tree → List ℕ) (bytes : List ℕ) → HasReadParts (in_der fragment (message_of model.now)) self.old bytes → IfErr result (λ stop. IsNoCut stop) }
        ensures begun { IfOk result (λ _. BeginsContents self.new.due self.new.start self.new.place) }
    {
        let mut step = step;
        match step.take(octet) {
            TagRead::Bad => Err(self.fault(Rule::BadTagOctets)),
            TagRead::More => self.go_on(Due::Tag(step)),
            TagRead::Done(id) => self.begin(model, id, octet),
        }
    }

    /// Begins the value of whole identifier octets, of which this is the last.
    fn begin(&mut self, model: &Model, id: Identifier, octet: u8) -> Result<(), Stop>
        requires room { self.old.place < 2 ^ 63 }
        requires read { (fragment : Tree → List ℕ) × (bytes : List ℕ) × HasReadParts (in_der fragment (message_of model.now)) self.old bytes }
        requires low { IsBelowEnd self.old.place (end_of_levels self.old.levels.items) }
        ensures ok { (fragment : Tree → List ℕ) (bytes : List ℕ) (r : HasReadParts (in_der fragment (message_of model.now)) self.old bytes) → HasIdentifier self.old.due r.rest octet id → IfOk result (λ _. HasReadParts (in_der fragment (message_of model.now)) self.new (bytes ++ octet ∷ [])) }
        ensures err { (fragment : Tree → List ℕ) (bytes : List ℕ) (r : HasReadParts (in_der fragment (message_of model.now)) self.old bytes) → HasIdentifier self.old.due r.rest octet id → IfErr result (λ stop. IsStopped (in_der fragment (message_of model.now)) self.new (bytes ++ octet ∷ []) stop) }
        ensures place { IfOk result (λ _. self.new.place ≡ self.old.place + 1) }
        ensures low { IfOk result (λ _. IsSettled self.new.due self.new.place (end_of_levels self.new.levels.items)) }
        ensures fault { IsErrOf result Stop.Memory → ⊥ }
        ensures room { vec_capacity self.old.levels ≤ vec_capacity self.new.levels }
        ensures stays { (fragment : Tree → List ℕ) (bytes : List ℕ) → HasReadParts (in_der fragment (message_of model.now)) self.old bytes → IfErr result (λ stop. IsNoCut stop) }
        ensures begun { IfOk result (λ _. BeginsContents self.new.due self.new.start self.new.place) }
    {
        let _ = octet;
        match self.innermost() {
            None => self.begin_outermost(id),
            Some(level) => match identify(model, &level, id) {
                Found::Breaks { rule, added } => Err(Stop::Fault {
                    rule,
                    place: self.start,
                    added,
                }),
                Found::Begins { number, spot } => {
                    self.set_innermost(advanced(level, number));
                    self.await_length(id.constructed, spot)
                }
            },
        }
    }

    /// Begins the outermost value.
    #[cold]
    #[inline(never)]
    fn begin_outermost(&mut self, id: Identifier) -> Result<(), Stop>
        requires room { self.old.place < 2 ^ 63 }
        ensures levels { self.new.levels ≡ self.old.levels }
        ensures ok { IfOk result (λ _. IsOutermost id × (self.new.place ≡ self.old.place + 1) × (self.new.start ≡ self.old.place + 1) × AwaitsInstance self.new.due) }
        ensures err { IfErr result (λ stop. (stop ≡ Stop.Fault Rule.UnexpectedTag self.old.start Added.Nothing) × (IsOutermost id → ⊥) × (self.new.due ≡ self.old.due)) }
    {
        if !is_outermost(id) {
            return Err(self.fault(Rule::UnexpectedTag));
        }
        self.place += 1;
        self.start = self.place;
        self.due = Due::Length {
            constructed: true,
            spot: Spot::Instance,
            step: LengthStep::new(),
        };
        Ok(())
    }

    /// Goes on to the length octets of a value that has begun.
    fn await_length(&mut self, constructed: bool, spot: Spot) -> Result<(), Stop>
        requires room { self.old.place < 2 ^ 63 }
        ensures levels { self.new.levels ≡ self.old.levels }
        ensures place { self.new.place ≡ self.old.place + 1 }
        ensures start { self.new.start ≡ self.old.place + 1 }
        ensures due { (step : Lengths) × (self.new.due ≡ Due.Length constructed spot step) × lengths.HasTakenLength step [] }
        ensures ok { IfOk result (λ _. IsBelowEnd (self.old.place + 1) (end_of_levels self.old.levels.items)) }
        ensures err { IfErr result (λ stop. (stop ≡ Stop.Fault Rule.Overrun (self.old.place + 1) Added.Nothing) × IsPastEnd (self.old.place + 1) (end_of_levels self.old.levels.items)) }
    {
        self.start = self.place + 1;
        self.go_on(Due::Length {
            constructed,
            spot,
            step: LengthStep::new(),
        })
    }

    /// Takes a length octet.
    #[cold]
    #[inline(never)]
    fn take_length(
        &mut self,
        constructed: bool,
        spot: Spot,
        step: LengthStep,
        octet: u8,
    ) -> Result<(), Stop>
        requires room { self.old.place < 2 ^ 63 }
        requires due { self.old.due ≡ Due.Length constructed spot step }
        requires low { IsBelowEnd self.old.place (end_of_levels self.old.levels.items) }
        requires read { (m : DerMessage ℕ) × (bytes : List ℕ) × HasReadParts m self.old bytes }
        ensures ok { (m : DerMessage ℕ) (bytes : List ℕ) → HasReadParts m self.old bytes → IfOk result (λ _. HasReadParts m self.new (bytes ++ octet ∷ [])) }
        ensures err { (m : DerMessage ℕ) (bytes : List ℕ) → HasReadParts m self.old bytes → IfErr result (λ stop. IsStopped m self.new (bytes ++ octet ∷ []) stop) }
        ensures place { IfOk result (λ _. self.new.place ≡ self.old.place + 1) }
        ensures low { IfOk result (λ _. IsSettled self.new.due self.new.place (end_of_levels self.new.levels.items)) }
        ensures full { IsErrOf result Stop.Memory → IsFull self.old.levels }
        ensures room { vec_capacity self.old.levels ≤ vec_capacity self.new.levels }
        ensures stays { IfErr result (λ stop. IsNoCut stop) }
        ensures begun { IfOk result (λ _. BeginsContents self.new.due self.new.start self.new.place) }
        ensures depth { IfOk result (λ _. depth_of self.new ≡ depth_of self.old) }
    {
        let mut step = step;
        match step.take(octet) {
            LengthRead::Bad => Err(self.fault(Rule::BadLengthOctets)),
            LengthRead::More => self.go_on(Due::Length {
                constructed,
                spot,
                step,
            }),
            LengthRead::Done(n) => self.open(constructed, spot, n, octet),
        }
    }

    /// Takes the length octet at the front, where a length is due of which none has come, and that octet is the
    /// whole of it. It answers how many octets it takes.
    #[inline(always)]
    pub(crate) fn take_short(&mut self, octets: &[u8]) -> Result<usize, Stop>
        requires room { self.old.place < 2 ^ 63 }
        requires low { IsSettled self.old.due self.old.place (end_of_levels self.old.levels.items) }
        requires begun { BeginsContents self.old.due self.old.start self.old.place }
        ensures ok { (m : DerMessage ℕ) (bytes : List ℕ) → HasReadParts m self.old bytes → IfOk result (λ n. HasReadParts m self.new (bytes ++ take n octets.now)) }
        ensures err { (m : DerMessage ℕ) (bytes : List ℕ) → HasReadParts m self.old bytes → IfErr result (λ stop. IsStopped m self.new (bytes ++ take 1 octets.now) stop) }
        ensures place { IfOk result (λ n. self.new.place ≡ self.old.place + n) }
        ensures within { IfOk result (λ n. n ≤ length octets.now) }
        ensures low { IfOk result (λ _. IsSettled self.new.due self.new.place (end_of_levels self.new.levels.items)) }
        ensures stays { IfErr result (λ stop. IsNoCut stop) }
        ensures begun { IfOk result (λ _. BeginsContents self.new.due self.new.start self.new.place) }
        ensures depth { IfOk result (λ _. depth_of self.new ≡ depth_of self.old) }
        ensures full { IsErrOf result Stop.Memory → IsFull self.old.levels }
        ensures long { IsErrOf result Stop.Memory → IsLengthDue self.old.due }
        ensures room { vec_capacity self.old.levels ≤ vec_capacity self.new.levels }
        ensures none { IfOk result (λ n. n ≡ 0 → self.new ≡ self.old) }
        ensures due { IfOk result (λ n. 0 < n → IsLengthDue self.old.due) }
        ensures few { IfOk result (λ n. n ≤ 1) }
    {
        if self.start != self.place {
            return Ok(0);
        }
        let Some(octet) = short_at(octets) else {
            return Ok(0);
        };
        match self.due {
            Due::Length {
                constructed,
                spot,
                step: _,
            } => match self.open(constructed, spot, u64::from(octet), octet) {
                Ok(()) => Ok(1),
                Err(stop) => Err(stop),
            },
            _ => Ok(0),
        }
    }

    /// Opens a value whose length has come, with this octet as the last.
    #[inline(always)]
    fn open(&mut self, constructed: bool, spot: Spot, n: u64, octet: u8) -> Result<(), Stop>
        requires room { self.old.place < 2 ^ 63 }
        requires short { n < 2 ^ 63 }
        requires low { IsBelowEnd self.old.place (end_of_levels self.old.levels.items) }
        ensures ok { (m : DerMessage ℕ) (bytes : List ℕ) (r : HasReadParts m self.old bytes) → HasLengthOctets self.old.due constructed spot r.rest octet n → IfOk result (λ _. HasReadParts m self.new (bytes ++ octet ∷ [])) }
        ensures err { (m : DerMessage ℕ) (bytes : List ℕ) (r : HasReadParts m self.old bytes) → HasLengthOctets self.old.due constructed spot r.rest octet n → IfErr result (λ stop. IsStopped m self.new (bytes ++ octet ∷ []) stop) }
        ensures place { IfOk result (λ _. self.new.place ≡ self.old.place + 1) }
        ensures low { IfOk result (λ _. IsSettled self.new.due self.new.place (end_of_levels self.new.levels.items)) }
        ensures full { IsErrOf result Stop.Memory → IsFull self.old.levels }
        ensures room { vec_capacity self.old.levels ≤ vec_capacity self.new.levels }
        ensures stays { IfErr result (λ stop. IsNoCut stop) }
        ensures begun { IfOk result (λ _. BeginsContents self.new.due self.new.start self.new.place) }
        ensures depth { IfOk result (λ _. depth_of self.new ≡ length self.old.levels.items + 1) }
    {
        let _ = octet;
        let end = self.place + 1 + n;
        if self.ends_before(end) {
            return Err(self.fault(Rule::Overrun));
        }
        if constructed {
            return self.push(spot, end);
        }
        self.place += 1;
        self.start = self.place;
        self.due = Due::Contents { spot, left: n };
        Ok(())
    }

    /// The innermost open value ends before the place.
    fn ends_before(&self, place: u64) -> bool
        ensures yes { IsTrue result → (end : ℕ) × (end_of_levels self.now.levels.items ≡ Some end) × (end < place) }
        ensures no { IsFalse result → UpTo place (end_of_levels self.now.levels.items) }
    {
        match self.limit() {
            None => false,
            Some(end) => end < place,
        }
    }

    /// Opens a constructed value that ends at the place.
    #[tactic(auto, using(crate::proofs::Inwards::push_inwards))]
    fn push(&mut self, spot: Spot, end: u64) -> Result<(), Stop>
        requires room { self.old.place < 2 ^ 63 }
        requires end { self.old.place + 1 ≤ end }
        ensures levels { IfOk result (λ _. inwards self.new.levels.items ≡ level_at spot end ∷ inwards self.old.levels.items) }
        ensures place { IfOk result (λ _. self.new.place ≡ self.old.place + 1) }
        ensures start { IfOk result (λ _. self.new.start ≡ self.old.place + 1) }
        ensures due { IfOk result (λ _. (step : Steps) × (self.new.due ≡ Due.Tag step) × tags.HasTakenTag step []) }
        ensures err { IfErr result (λ stop. stop ≡ Stop.Memory) }
        ensures full { IsErrOf result Stop.Memory → IsFull self.old.levels }
        ensures room { vec_capacity self.old.levels ≤ vec_capacity self.new.levels }
        ensures size { IfOk result (λ _. length self.new.levels.items ≡ length self.old.levels.items + 1) }
    {
        let level = Level {
            spot,
            next: 0,
            count: 0,
            end,
        };
        match self.levels.push(level) {
            Err(_) => Err(Stop::Memory),
            Ok(()) => {
                self.place += 1;
                self.start = self.place;
                self.due = Due::Tag(TagStep::new());
                Ok(())
            }
        }
    }
}

/// The octet at the front, where it is a whole length.
fn short_at(octets: &[u8]) -> Option<u8>
    ensures { IfSome result (λ n. (n < 128) × (octets.now ≡ n ∷ drop 1 octets.now)) }
{
    let (octet, _behind) = octets.split_first()?;
    if *octet < 128 {
        return Some(*octet);
    }
    None
}

/// Whether these are the identifier octets of a sequence.
fn is_outermost(id: Identifier) -> bool
    ensures { IsTrue result ↔ IsOutermost id }
{
    id.constructed && matches!(id.class, TagClass::Universal) && id.number == 16
}

/// The level, in which one component more has come.
pub(crate) fn advanced(level: Level, number: u16) -> Level
    requires { level.count < 2 ^ 63 }
    ensures { IsAdvanced level number result }
{
    Level {
        spot: level.spot,
        next: u32::from(number) + 1,
        count: level.count + 1,
        end: level.end,
    }
}
