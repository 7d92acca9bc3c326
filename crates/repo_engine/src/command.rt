//! What a command line asks for.
ghost use Rattle.std.specs.Prelude.{◌≡◌, ◌≤◌, ℕ, List, [], ◌∷◌, length, IfSome, IfNone};
ghost use Rattle.repo_objects.specs.MessageId.{IsMessageId};
ghost use Rattle.drill.specs.Growing.{most_beside};
ghost use Rattle.repo_engine.specs.Command.{texts, HasCommandForm, IsNumberWord, IsUnlisted, verb_word, message, drill};
ghost use Rattle.repo_engine.specs.inner.Commands.{AsksFor, command_view};

use super::number::number_of;
use repo_objects::MessageId;

/// The most nodes that a drill makes beside the first.
const MOST_BESIDE: u64 = 1_000_000;

/// A command of one message.
#[derive(Clone, Copy, Debug, PartialEq, Eq)]
pub enum Verb {
    /// `types`: the types of the compiled message.
    Types,
    /// `xsd`: the XML Schema of the message.
    Xsd,
    /// `asn1`: the ASN.1 module of the message.
    Asn1,
    /// `check-xml`: whether the bytes are an XML instance of the message.
    CheckXml,
    /// `check-der`: whether the bytes are the DER of an instance of the message.
    CheckDer,
    /// `canon-xml`: the canonical XML of an XML instance.
    CanonXml,
    /// `xml-to-der`: the DER of an XML instance.
    XmlToDer,
    /// `der-to-xml`: the canonical XML of an instance in DER.
    DerToXml,
}

/// What a command line asks for.
#[derive(Clone, Copy)]
pub enum Command<'a> {
    /// `list REPO CODES`: the messages of the repository.
    List {
        codes: &'a [u8],
    },
    /// `VERB REPO CODES MSGID`: something of one message.
    Message {
        verb: Verb,
        codes: &'a [u8],
        id: MessageId,
    },
    /// `drill NUMBER SIZE`: a large instance made of two numbers, brought from each form into the other and compared.
    Drill {
        number: u64,
        size: u32,
    },
}

/// The command that the words ask for; `None` where they have the form of none. The words are
/// matched whole, in this order and number.
pub fn command_of(words: &Vec<String>) -> Option<Command<'_>>
    ensures found { IfSome result (λ command. AsksFor (texts words.now.items) command) }
    ensures none { IfNone result (IsUnlisted (texts words.now.items)) }
{
    if let Some(three) = three_words(words) {
        return three_command(three);
    }
    let Some(four) = four_words(words) else {
        return None;
    };
    message_command(four.word, four.codes, four.id)
}

/// Three words.
#[derive(Clone, Copy)]
struct Three<'a> {
    word: &'a [u8],
    second: &'a [u8],
    third: &'a [u8],
}

/// The first, the third and the last of four words.
#[derive(Clone, Copy)]
struct Four<'a> {
    word: &'a [u8],
    codes: &'a [u8],
    id: &'a str,
}

/// Three words; `None` where there are more or fewer.
fn three_words(words: &Vec<String>) -> Option<Three<'_>>
    ensures found { IfSome result (λ three. texts words.now.items ≡ three.word.now ∷ (three.second.now ∷ (three.third.now ∷ []))) }
    ensures none { IfNone result (length words.now.items ≡ 3 → ⊥) }
{
    let [word, second, third] = words.as_slice() else {
        return None;
    };
    Some(Three {
        word: word.as_bytes(),
        second: second.as_bytes(),
        third: third.as_bytes(),
    })
}

/// Four words; `None` where there are more or fewer.
fn four_words(words: &Vec<String>) -> Option<Four<'_>>
    ensures found { IfSome result (λ four. (repository : List ℕ) × (texts words.now.items ≡ four.word.now ∷ (repository ∷ (four.codes.now ∷ (four.id.now ∷ []))))) }
    ensures none { IfNone result (length words.now.items ≡ 4 → ⊥) }
{
    let [word, _repository, codes, id] = words.as_slice() else {
        return None;
    };
    Some(Four {
        word: word.as_bytes(),
        codes: codes.as_bytes(),
        id: id.as_str(),
    })
}

/// The command of three words.
fn three_command(three: Three<'_>) -> Option<Command<'_>>
    ensures found { IfSome result (λ command. HasCommandForm (three.entry.word.now ∷ (three.entry.second.now ∷ (three.entry.third.now ∷ []))) (command_view command)) }
    ensures none { IfNone result (IsUnlisted (three.entry.word.now ∷ (three.entry.second.now ∷ (three.entry.third.now ∷ [])))) }
{
    if three.word == b"list".as_slice() {
        return Some(Command::List { codes: three.third });
    }
    if three.word == b"drill".as_slice() {
        return drill_command(three.second, three.third);
    }
    None
}

/// The drill on two numbers, of which the second is at most 1,000,000.
fn drill_command<'a>(one: &[u8], other: &[u8]) -> Option<Command<'a>>
    ensures found { IfSome result (λ command. (number : ℕ) × (size : ℕ) × IsNumberWord one.now number × IsNumberWord other.now size × (size ≤ most_beside) × (command_view command ≡ drill number size)) }
    ensures none { IfNone result ((number size : ℕ) → IsNumberWord one.now number → IsNumberWord other.now size → size ≤ most_beside → ⊥) }
{
    let number = number_of(one)?;
    let size = number_of(other)?;
    if size > MOST_BESIDE {
        return None;
    }
    Some(Command::Drill {
        number,
        size: size as u32,
    })
}

/// The command of four words, of which the second is the repository's.
fn message_command<'a>(word: &[u8], codes: &'a [u8], id: &str) -> Option<Command<'a>>
    ensures found { IfSome result (λ command. (verb : Verb) × (word.now ≡ verb_word verb) × IsMessageId id.now × (command_view command ≡ message verb codes.now id.now)) }
    ensures none { IfNone result ((verb : Verb) → word.now ≡ verb_word verb → IsMessageId id.now → ⊥) }
{
    let verb = verb_of(word)?;
    let id = MessageId::read(id)?;
    Some(Command::Message { verb, codes, id })
}

/// The verb that the word is.
fn verb_of(word: &[u8]) -> Option<Verb>
    ensures found { IfSome result (λ verb. word.now ≡ verb_word verb) }
    ensures none { IfNone result ((verb : Verb) → word.now ≡ verb_word verb → ⊥) }
{
    if word == b"types".as_slice() {
        Some(Verb::Types)
    } else if word == b"xsd".as_slice() {
        Some(Verb::Xsd)
    } else if word == b"asn1".as_slice() {
        Some(Verb::Asn1)
    } else if word == b"check-xml".as_slice() {
        Some(Verb::CheckXml)
    } else if word == b"check-der".as_slice() {
        Some(Verb::CheckDer)
    } else if word == b"canon-xml".as_slice() {
        Some(Verb::CanonXml)
    } else if word == b"xml-to-der".as_slice() {
        Some(Verb::XmlToDer)
    } else if word == b"der-to-xml".as_slice() {
        Some(Verb::DerToXml)
    } else {
        None
    }
}
