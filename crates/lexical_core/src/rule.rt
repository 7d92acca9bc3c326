//! The rules that an instance can break, with their names and numbers.
ghost use Rattle.std.specs.Prelude.{◌≡◌};
ghost use Rattle.lexical_core.specs.Rules.{name_of, number_of};

/// A rule that an XML or DER instance can break. Of two rules broken at one place the one with the
/// least number is told; the variants stand in that order, and so `<` compares their numbers.
#[derive(Clone, Copy, Debug, PartialEq, Eq, PartialOrd, Ord)]
pub enum Rule {
    /// XML: bytes that are not UTF-8.
    BadUtf8 = 1,
    /// XML: no token goes on so.
    BadMarkup,
    /// XML: a document type declaration.
    Doctype,
    /// XML: a reference that names no character.
    BadReference,
    /// XML: a character that XML 1.0 §2.2 does not have.
    BadChar,
    /// XML: two attributes of one name.
    DuplicateAttribute,
    /// XML: a prefix that is not bound, or is bound wrongly.
    BadPrefix,
    /// XML: an end tag that does not match its start tag.
    TagMismatch,
    /// XML: text outside the root.
    TextOutside,
    /// XML: the input ends too early.
    Truncated,
    /// XML: an element after the root.
    AfterRoot,
    /// XML: another root than the message's.
    WrongRoot,
    /// XML: an element that its parent does not have.
    UnknownElement,
    /// XML: an element that should stand earlier.
    OutOfOrder,
    /// XML: an element more often than it may stand.
    TooMany,
    /// XML: an element less often than it has to stand.
    Missing,
    /// XML: a second alternative of a choice.
    SecondAlternative,
    /// XML: text between elements.
    TextInComplex,
    /// XML: an element within a text.
    ElementInSimple,
    /// XML: an attribute that its element does not have.
    UnknownAttribute,
    /// XML: an attribute that is not there.
    MissingAttribute,
    /// XML and DER: a text that has not the form of its type.
    BadText,
    /// XML and DER: a length outside its bounds.
    BadLength,
    /// XML and DER: a text that its pattern does not take.
    PatternFails,
    /// XML and DER: none of the codes of its set.
    NotACode,
    /// XML and DER: too many digits.
    Digits,
    /// XML and DER: a number outside its bounds.
    OutOfRange,
    /// XML and DER: an input beyond its limit.
    InputTooLong,
    /// DER: tag octets that are not minimal or too long.
    BadTagOctets = 30,
    /// DER: length octets that are not minimal or too long.
    BadLengthOctets,
    /// DER: a value beyond the end of the one that holds it.
    Overrun,
    /// DER: a tag that does not belong there.
    UnexpectedTag,
    /// DER: a value less often than it has to stand.
    DerMissing,
    /// DER: a value more often than it may stand.
    DerTooMany,
    /// DER: a list with too few items.
    TooFew,
    /// DER: contents that spell no value of their type.
    BadContents,
    /// DER: octets after the last value.
    Trailing,
    /// DER: the input ends too early.
    DerTruncated,
}

impl Rule {
    /// The name that a refusal prints. Rules with one name are printed alike.
    pub fn name(self) -> &'static str
        ensures { result.now ≡ name_of self }
    {
        match self {
            Rule::BadUtf8 => "BadUtf8",
            Rule::BadMarkup => "BadMarkup",
            Rule::Doctype => "Doctype",
            Rule::BadReference => "BadReference",
            Rule::BadChar => "BadChar",
            Rule::DuplicateAttribute => "DuplicateAttribute",
            Rule::BadPrefix => "BadPrefix",
            Rule::TagMismatch => "TagMismatch",
            Rule::TextOutside => "TextOutside",
            Rule::Truncated | Rule::DerTruncated => "Truncated",
            Rule::AfterRoot => "AfterRoot",
            Rule::WrongRoot => "WrongRoot",
            Rule::UnknownElement => "UnknownElement",
            Rule::OutOfOrder => "OutOfOrder",
            Rule::TooMany | Rule::DerTooMany => "TooMany",
            Rule::Missing | Rule::DerMissing => "Missing",
            Rule::SecondAlternative => "SecondAlternative",
            Rule::TextInComplex => "TextInComplex",
            Rule::ElementInSimple => "ElementInSimple",
            Rule::UnknownAttribute => "UnknownAttribute",
            Rule::MissingAttribute => "MissingAttribute",
            Rule::BadText => "BadText",
            Rule::BadLength => "BadLength",
            Rule::PatternFails => "PatternFails",
            Rule::NotACode => "NotACode",
            Rule::Digits => "Digits",
            Rule::OutOfRange => "OutOfRange",
            Rule::InputTooLong => "InputTooLong",
            Rule::BadTagOctets => "BadTagOctets",
            Rule::BadLengthOctets => "BadLengthOctets",
            Rule::Overrun => "Overrun",
            Rule::UnexpectedTag => "UnexpectedTag",
            Rule::TooFew => "TooFew",
            Rule::BadContents => "BadContents",
            Rule::Trailing => "Trailing",
        }
    }

    /// The number by which the least of the rules broken at one place is told.
    pub fn number(self) -> u8
        ensures { result ≡ number_of self }
    {
        self as u8
    }
}
