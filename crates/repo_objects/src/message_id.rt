//! The identifier of a message definition, as `pacs.008.001.08`.
ghost use Rattle.std.specs.Prelude.{◌≡◌, ◌↔◌, List, ℕ, IsSome, IsTrue, IfSome};
ghost use Rattle.std.specs.List.{list_all};
ghost use Rattle.repo_objects.specs.MessageId.{IsMessageId, is_lower_letter, is_letter_or_digit, is_digit};

use std::marker::Model;

/// A message identifier: a business area, a functionality, a flavour and a version, joined by points.
#[derive(Clone, Copy, Debug, PartialEq, Eq)]
pub struct MessageId {
    octets: [u8; 15],
}

impl Model for MessageId {
    ghost use Rattle.std.specs.Prelude.{List, ℕ};
    ghost use Rattle.repo_objects.specs.MessageId.{IsMessageId};

    ghost Value = { List ℕ };

    ghost view = { λ m. m.octets };

    ghost invariant = { λ m. IsMessageId m.octets };

    ghost inverse = { λ bytes. record { octets = bytes } };
}

impl MessageId {
    /// The identifier that the word is; `None` where it has not the form of one.
    pub fn read(word: &str) -> Option<MessageId>
        ensures read { IfSome result (λ id. id ≡ word.now) }
        ensures form { IsSome result ↔ IsMessageId word.now }
    {
        MessageId::of(word.as_bytes())
    }

    /// The identifier that the bytes are; `None` where they have not the form of one.
    pub fn of(bytes: &[u8]) -> Option<MessageId>
        ensures of { IfSome result (λ id. id ≡ bytes.now) }
        ensures form { IsSome result ↔ IsMessageId bytes.now }
    {
        let octets: [u8; 15] = bytes.try_into().ok()?;
        if has_form(&octets) {
            Some(MessageId { octets })
        } else {
            None
        }
    }

    /// The 15 bytes of the identifier, which are ASCII.
    pub fn bytes(&self) -> &[u8]
        ensures value { result.now ≡ self.now }
        ensures form { IsMessageId self.now }
    {
        &self.octets
    }
}

/// Whether the bytes have the form of a message identifier.
fn has_form(bytes: &[u8]) -> bool
    ensures { IsTrue result ↔ IsMessageId bytes.now }
{
    bytes.len() == 15
        && are_lower_letters(&bytes[..4])
        && bytes[4] == b'.'
        && are_letters_or_digits(&bytes[5..8])
        && bytes[8] == b'.'
        && are_digits(&bytes[9..12])
        && bytes[12] == b'.'
        && are_digits(&bytes[13..15])
}

/// Whether each byte is a lower-case letter of ASCII.
fn are_lower_letters(bytes: &[u8]) -> bool
    ensures { result ≡ list_all is_lower_letter bytes.now }
{
    bytes.iter().all(|byte| byte.is_ascii_lowercase())
}

/// Whether each byte is a letter or a digit of ASCII.
fn are_letters_or_digits(bytes: &[u8]) -> bool
    ensures { result ≡ list_all is_letter_or_digit bytes.now }
{
    bytes.iter().all(|byte| byte.is_ascii_alphanumeric())
}

/// Whether each byte is a digit of ASCII.
fn are_digits(bytes: &[u8]) -> bool
    ensures { result ≡ list_all is_digit bytes.now }
{
    bytes.iter().all(|byte| byte.is_ascii_digit())
}
