//! The kinds of entries by their words.
ghost use Rattle.std.specs.Prelude.{◌≡◌, map};
ghost use Rattle.markup.specs.TagAttributes.{tag_entry};
ghost use Rattle.repo_loader.specs.FileValues.{kind_in, kind_words, date_words, component_words};
ghost use Rattle.repo_loader.specs.FileValues.{behind_colon as spec_behind_colon, word_of as spec_word_of};

use markup::{TagAttribute, value_of};
use repo_objects::{Kinds, ObjectKind};

/// The kind of that word.
pub fn kind_of_word(word: &[u8]) -> ObjectKind
    ensures { result ≡ kind_in kind_words word.now }
{
    if word == b"Text".as_slice() {
        ObjectKind::Simple(Kinds::Text)
    } else if word == b"CodeSet".as_slice() {
        ObjectKind::Simple(Kinds::CodeSet)
    } else if word == b"IdentifierSet".as_slice() {
        ObjectKind::Simple(Kinds::IdentifierSet)
    } else if word == b"Amount".as_slice() {
        ObjectKind::Simple(Kinds::Amount)
    } else if word == b"Rate".as_slice() {
        ObjectKind::Simple(Kinds::Rate)
    } else if word == b"Quantity".as_slice() {
        ObjectKind::Simple(Kinds::Quantity)
    } else if word == b"Indicator".as_slice() {
        ObjectKind::Simple(Kinds::Indicator)
    } else if word == b"Binary".as_slice() {
        ObjectKind::Simple(Kinds::Binary)
    } else {
        date_kind(word)
    }
}

/// The kind of dates and times of that word, or one of those behind.
fn date_kind(word: &[u8]) -> ObjectKind
    ensures { result ≡ kind_in date_words word.now }
{
    if word == b"Date".as_slice() {
        ObjectKind::Simple(Kinds::Date)
    } else if word == b"DateTime".as_slice() {
        ObjectKind::Simple(Kinds::DateTime)
    } else if word == b"Time".as_slice() {
        ObjectKind::Simple(Kinds::Time)
    } else if word == b"Year".as_slice() {
        ObjectKind::Simple(Kinds::Year)
    } else if word == b"YearMonth".as_slice() {
        ObjectKind::Simple(Kinds::YearMonth)
    } else if word == b"MonthDay".as_slice() {
        ObjectKind::Simple(Kinds::MonthDay)
    } else if word == b"Month".as_slice() {
        ObjectKind::Simple(Kinds::Month)
    } else if word == b"Day".as_slice() {
        ObjectKind::Simple(Kinds::Day)
    } else {
        component_kind(word)
    }
}

/// The kind of no simple type of that word.
fn component_kind(word: &[u8]) -> ObjectKind
    ensures { result ≡ kind_in component_words word.now }
{
    if word == b"MessageComponent".as_slice() {
        ObjectKind::Component
    } else if word == b"ChoiceComponent".as_slice() {
        ObjectKind::Choice
    } else if word == b"ExternalSchema".as_slice() {
        ObjectKind::External
    } else {
        ObjectKind::Other
    }
}

/// What stands behind the first colon; all of the text where there is none.
fn behind_colon(text: &[u8]) -> &[u8]
    ensures { result.now ≡ spec_behind_colon text.now text.now }
{
    let mut rest = text;
    while let Some((first, more)) = rest.split_first() {
        if *first == b':' {
            return more;
        }
        rest = more;
    }
    text
}

/// The word for the kind of an entry.
pub fn word_of<'a>(attributes: &[TagAttribute<'a>]) -> &'a [u8]
    ensures { result.now ≡ spec_word_of (map tag_entry attributes.now) }
{
    match value_of(
        attributes,
        b"http://www.w3.org/2001/XMLSchema-instance",
        b"type",
    ) {
        Some(text) => behind_colon(text),
        None => b"",
    }
}
