//! The records of external codes, read by `csv`.
ghost use Rattle.std.specs.Prelude.{◌≡◌, ◌↔◌, ◌∷◌, [], IfOk, IfErr, IsTrue, IsUtf8};
ghost use Rattle.csv.specs.Records.{fields_of};
ghost use Rattle.lexical_core.specs.Characters.{IsXmlText};
ghost use Rattle.code_sets.specs.Codes.{IsCode, IsLeastRecordRule, IsSoundRecord, ReadsCodes};
ghost use Rattle.code_sets.specs.CodesErrors.{AreCodes, RefusesRecords};

use crate::errors::CodesError;
use crate::given::text_of;
use crate::record::{CodeLists, CodeRecord};
use csv::{ByteRecord, ReaderBuilder};
use lexical_core::is_xml_text;
use std::alloc::{AllocError, Global};
use std::str;

/// Whether the bytes are UTF-8.
fn is_text(bytes: &[u8]) -> bool
    ensures { IsTrue result ↔ IsUtf8 bytes.now }
{
    str::from_utf8(bytes).is_ok()
}

/// Whether the text is a code: not empty, and of characters of XML.
fn is_code(code: &[u8]) -> bool
    ensures { IsTrue result ↔ IsCode code.now }
{
    !code.is_empty() && is_xml_text(code)
}

/// The set and the code of a record, or the least rule that it breaks.
fn judged(row: &ByteRecord) -> Result<(&[u8], &[u8]), u8>
    ensures ok { IfOk result (λ pair. (fields_of row.now ≡ pair.0.now ∷ (pair.1.now ∷ [])) × IsSoundRecord (fields_of row.now)) }
    ensures code { IfOk result (λ pair. IsXmlText pair.1.now) }
    ensures err { IfErr result (λ rule. IsLeastRecordRule (fields_of row.now) rule) }
{
    let Some(set) = row.get(0) else {
        return Err(1);
    };
    let Some(code) = row.get(1) else {
        return Err(1);
    };
    if row.get(2).is_some() {
        return Err(1);
    }
    if !is_text(set) {
        return Err(2);
    }
    if !is_text(code) {
        return Err(2);
    }
    if !is_code(code) {
        return Err(3);
    }
    Ok((set, code))
}

/// A record that is kept.
fn kept(alloc: Global, number: u64, set: &[u8], code: &[u8]) -> Result<CodeRecord, AllocError>
    ensures { IfOk result (λ r. r ≡ record { number = number; set = set.now; code = code.now }) }
{
    Ok(CodeRecord {
        number,
        set: text_of(alloc, set)?,
        code: text_of(alloc, code)?,
    })
}

/// The codes that the bytes say, in the order of their records; or the first record that breaks one of
/// the rules 1 to 3, with the least that it breaks. One byte order mark at the start is dropped, and
/// empty lines are no records. `ReadFault` never comes.
pub fn read_codes(alloc: Global, bytes: &[u8]) -> Result<CodeLists, CodesError>
    ensures ok { IfOk result (λ lists. ReadsCodes bytes.now lists) }
    ensures codes { IfOk result (λ lists. AreCodes lists) }
    ensures err { IfErr result (λ e. RefusesRecords bytes.now e) }
{
    let reader = ReaderBuilder::new()
        .has_headers(false)
        .flexible(true)
        .from_reader(alloc, bytes);
    let mut lists = CodeLists::new(alloc);
    for row in reader.into_byte_records() {
        let Ok(row) = row else {
            return Err(CodesError::Memory);
        };
        let number = lists.len() as u64 + 1;
        match judged(&row) {
            Err(rule) => return Err(CodesError::Refused { rule, number }),
            Ok((set, code)) => {
                let Ok(record) = kept(alloc, number, set, code) else {
                    return Err(CodesError::Memory);
                };
                if lists.push(record).is_err() {
                    return Err(CodesError::Memory);
                }
            }
        }
    }
    Ok(lists)
}
