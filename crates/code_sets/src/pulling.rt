//! The codes that a source has.
ghost use Rattle.std.specs.Prelude.{◌≡◌, ◌≤◌, length, IfOk, IfErr, IfSome, OnOk, IsErrOf, IsTrue};
ghost use Rattle.std.specs.Io.KnownBytes.{IsAtEnd};
ghost use Rattle.outside.specs.Source.{Rose};
ghost use Rattle.code_sets.specs.Codes.{ReadsCodes};
ghost use Rattle.code_sets.specs.CodesErrors.{AreCodes, IsRefusalOfBytes, RefusesSource, PullsForRefusal};

use crate::errors::CodesError;
use crate::read::read_codes;
use crate::record::CodeLists;
use outside::{ReadError, Source, read_all};
use std::alloc::Global;

/// How many bytes external codes have at most.
const LIMIT: usize = 268435456;

/// The codes of the records that the source has left, which is read to its end. More bytes than 2^28
/// are refused by rule 5 before any other. `ReadFault` comes with the first pull that fails.
pub fn pull_codes<R: Source>(alloc: Global, source: &mut R) -> Result<CodeLists, CodesError>
    requires { IsTrue (R.may_be_pulled source.old) }
    ensures ok { IfOk result (λ lists. IfSome (R.left source.old) (λ bytes. ReadsCodes bytes lists)) }
    ensures short { IfOk result (λ _. IfSome (R.left source.old) (λ bytes. length bytes ≤ LIMIT)) }
    ensures codes { IfOk result (λ lists. AreCodes lists) }
    ensures whole { OnOk result (IsAtEnd (R.left source.new)) }
    ensures err { IfErr result (λ e. IfSome (R.left source.old) (λ bytes. RefusesSource bytes e)) }
    ensures placed { IfErr result (λ e. IsRefusalOfBytes e) }
    ensures pulled { IfErr result (λ e. PullsForRefusal (R.left source.old) (R.left source.new) e) }
    ensures fault { IsErrOf result CodesError.ReadFault → Rose (R.faults source.old) (R.faults source.new) }
    ensures later { R.faults source.old ≤ R.faults source.new }
    ensures same { (IsErrOf result CodesError.ReadFault → ⊥) → R.faults source.new ≡ R.faults source.old }
{
    match read_all(alloc, source, LIMIT) {
        Ok(bytes) => read_codes(alloc, &bytes),
        Err(ReadError::TooLong) => Err(CodesError::Refused { rule: 5, number: 0 }),
        Err(ReadError::ReadFault) => Err(CodesError::ReadFault),
        Err(ReadError::Memory) => Err(CodesError::Memory),
    }
}
