//! Components in a run whose length has more octets than one, and which are made of components: X.690 §8.1.3.5.
ghost use Rattle.std.specs.Prelude.{◌≡◌, ◌+◌, ◌<◌, ◌≤◌, ◌^◌, ◌++◌, ◌∷◌, [], ℕ, List, IfSome, IfNone, length, take};
ghost use Rattle.der_octets.specs.LengthSteps as lengths;
ghost use Rattle.message_model.specs.Tables.{types_of};
ghost use Rattle.der_model.specs.DerMessage.{der_message};
ghost use Rattle.der_codec.specs.Decoding.{HasReadParts, IsFresh};
ghost use Rattle.der_codec.specs.inner.KeptRuns.{HasBegunWide, decoder_at};
ghost use Rattle.der_codec.specs.inner.Runs.{RunReads, AreLengthOctets};

use crate::begun::{Begun, field_found};
use crate::components::{Found, identify};
use crate::decoder::Decoder;
use crate::headers::advanced;
use crate::usual::{Run, one_octet};
use der_octets::{LengthRead, LengthStep};
use message_model::Model;

/// A length of more octets than one.
#[derive(Clone, Copy, Debug)]
struct Wide {
    /// How many octets follow its first.
    more: usize,
    length: u64,
}

/// A component that begins behind a header of more octets than two, and fits into the innermost open value.
#[derive(Clone, Copy, Debug)]
pub(crate) struct WideBegun {
    pub(crate) begun: Begun,
    /// How many octets its header has more than two.
    pub(crate) more: usize,
}

/// The length of which this is the first octet, and the next one or two are those behind.
fn wide_length(first: u8, behind: &[u8]) -> Option<Wide>
    ensures within { IfSome result (λ w. w.more ≤ length behind.now) }
    ensures length { IfSome result (λ w. AreLengthOctets first (take w.more behind.now) w.length) }
{
    let mut step = LengthStep::new();
    match step.take(first) {
        LengthRead::More => wide_behind(step, first, behind),
        _ => None,
    }
}

/// The same, where the first octet has been taken.
fn wide_behind(step: LengthStep, first: u8, behind: &[u8]) -> Option<Wide>
    requires { lengths.HasTakenLength step (first ∷ []) }
    ensures within { IfSome result (λ w. w.more ≤ length behind.now) }
    ensures length { IfSome result (λ w. AreLengthOctets first (take w.more behind.now) w.length) }
{
    let (second, others) = behind.split_first()?;
    let mut step = step;
    match step.take(*second) {
        LengthRead::Done(length) => Some(Wide { more: 1, length }),
        LengthRead::More => wide_third(step, first, *second, others),
        LengthRead::Bad => None,
    }
}

/// The same, where two octets have been taken.
fn wide_third(step: LengthStep, first: u8, second: u8, behind: &[u8]) -> Option<Wide>
    requires { lengths.HasTakenLength step (first ∷ second ∷ []) }
    ensures within { IfSome result (λ w. w.more ≤ length (second ∷ behind.now)) }
    ensures length { IfSome result (λ w. AreLengthOctets first (take w.more (second ∷ behind.now)) w.length) }
{
    let _ = (first, second);
    let (third, _) = behind.split_first()?;
    let mut step = step;
    match step.take(*third) {
        LengthRead::Done(length) => Some(Wide { more: 2, length }),
        _ => None,
    }
}

impl Decoder {
    /// Goes into the component of which these are the first two octets, where nothing is refused, it is made of components,
    /// and no memory is wanted. It answers how many octets of those behind are of its length. Where it goes into none,
    /// nothing is changed.
    #[inline(never)]
    pub(crate) fn enter_wide(
        &mut self,
        run: &mut Run,
        model: &Model,
        first: u8,
        second: u8,
        behind: &[u8],
    ) -> Option<usize>
        requires room { run.old.place + 2 + length behind.now ≤ 2 ^ 40 }
        requires some { 0 < length self.old.levels.items }
        requires fresh { IsFresh self.old.due }
        requires low { run.old.place < run.old.level.end }
        requires read { (bytes : List ℕ) × RunReads (der_message model.now) self.old run.old bytes }
        ensures ok { (bytes : List ℕ) → RunReads (der_message model.now) self.old run.old bytes → IfSome result (λ n. RunReads (der_message model.now) self.new run.new (bytes ++ first ∷ second ∷ take n behind.now)) }
        ensures kept { IfNone result (self.new ≡ self.old) }
        ensures stays { IfNone result (run.new ≡ run.old) }
        ensures within { IfSome result (λ n. n ≤ length behind.now) }
        ensures place { IfSome result (λ n. run.new.place ≡ run.old.place + 2 + n) }
        ensures due { self.new.due ≡ self.old.due }
        ensures open { 0 < length self.new.levels.items }
    {
        let Some(wide) = wide_length(second, behind) else {
            return None;
        };
        let Some(id) = one_octet(first) else {
            return None;
        };
        if id.constructed {
            let level = run.level;
            return match identify(model, &level, id) {
                Found::Breaks { rule: _, added: _ } => None,
                Found::Begins { number, spot } => {
                    if self.enter_behind(run, number, spot, 2 + wide.more as u64, wide.length) {
                        return Some(wide.more);
                    }
                    None
                }
            };
        }
        None
    }

    /// The component of which these are the first two octets, where nothing is refused and it is made of components.
    pub(crate) fn begun_wide(
        &self,
        run: Run,
        model: &Model,
        first: u8,
        second: u8,
        behind: &[u8],
    ) -> Option<WideBegun>
        requires room { run.place + 2 + length behind.now ≤ 2 ^ 40 }
        requires some { 0 < length self.now.levels.items }
        requires fresh { IsFresh self.now.due }
        requires low { run.place < run.level.end }
        requires read { (bytes : List ℕ) × HasReadParts (der_message model.now) (decoder_at self.now run) bytes }
        ensures within { IfSome result (λ w. w.more ≤ length behind.now) }
        ensures begun { (bytes : List ℕ) → HasReadParts (der_message model.now) (decoder_at self.now run) bytes → IfSome result (λ w. HasBegunWide (der_message model.now) (decoder_at self.now run) bytes first second behind.now w) }
    {
        let Some(wide) = wide_length(second, behind) else {
            return None;
        };
        let Some(id) = one_octet(first) else {
            return None;
        };
        if !id.constructed {
            return None;
        }
        let level = run.level;
        match field_found(model, &level, id) {
            None => None,
            Some(field) => {
                let end = run.place + (2 + wide.more as u64) + wide.length;
                if level.end < end {
                    return None;
                }
                Some(WideBegun {
                    begun: Begun {
                        around: advanced(level, field.number),
                        spot: field.spot,
                        constructed: true,
                        end,
                    },
                    more: wide.more,
                })
            }
        }
    }
}
