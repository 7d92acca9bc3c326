//! What a reader of instances promises to those that feed it from a source.
ghost use Rattle.std.specs.Prelude.{ℕ, ◌+◌, ◌≤◌, ◌++◌, List, length, IfOk, IfErr};
ghost use Rattle.lexical_core.specs.declared.rule.Rule.{Rule};
ghost use Rattle.message_model.specs.Tables.{Tables};
ghost use Rattle.message_model.specs.declared.fault.Fault.{Fault as Told};
ghost use Rattle.transcoder.specs.Limited.{most_bytes};
ghost use Rattle.transcoder.specs.inner.Reading.{StopsAt, EndsBy};

use message_model::{InstanceError, Model};

/// A reader of instances of a message, which takes their bytes in pieces, and at their end gives
/// something of the instance that they are.
pub(crate) trait Intake<W> {
    /// It was given these bytes, and they break no rule so far.
    ghost has_fed: { Self → Tables → List ℕ → Type 0 };

    /// It was made for the message of these tables.
    ghost is_made_for: { Self → Tables → Type 0 };

    /// The bytes have this first fault.
    ghost is_faulty: { Tables → List ℕ → Told → Type 0 };

    /// The bytes are an instance, of which this is given.
    ghost gives: { Tables → List ℕ → W → Type 0 };

    /// The rule of bytes that end too early.
    ghost cut_rule: { Rule };

    /// Takes the next bytes, of at most 2^40 in all.
    fn feed(&mut self, model: &Model, piece: &[u8]) -> Result<(), InstanceError>
        requires fed { (bytes : List ℕ) × has_fed self.old model.now bytes × (length bytes + length piece.now ≤ most_bytes) }
        requires made { is_made_for self.old model.now }
        ensures made { is_made_for self.new model.now }
        ensures ok { (bytes : List ℕ) → has_fed self.old model.now bytes → IfOk result (λ _. has_fed self.new model.now (bytes ++ piece.now)) }
        ensures err { (bytes : List ℕ) → has_fed self.old model.now bytes → IfErr result (λ e. StopsAt (is_faulty model.now) cut_rule (bytes ++ piece.now) e) };

    /// The end of the bytes.
    fn finish(self, model: &Model) -> Result<W, InstanceError>
        requires made { is_made_for self model.now }
        ensures ok { (bytes : List ℕ) → has_fed self model.now bytes → IfOk result (λ given. gives model.now bytes given) }
        ensures err { (bytes : List ℕ) → has_fed self model.now bytes → IfErr result (λ e. EndsBy (is_faulty model.now) bytes e) };
}
