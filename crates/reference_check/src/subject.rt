//! What the rules are asked of: a reached object or the message.
ghost use Rattle.std.specs.Prelude.{◌≡◌};
ghost use Rattle.std.specs.Option.{option_copied};
ghost use Rattle.reference_check.specs.Reach.{kind_elements, kind_currency};
ghost use Rattle.reference_check.specs.inner.Subjects.{subject_elements, subject_currency};

use lexical_core::Text;
use repo_objects::{ElementDef, Kinds, MessageDef, Object, ObjectKind};

/// A reached object or the message.
#[derive(Clone, Copy)]
pub(crate) enum Subject<'a> {
    /// An object of the dictionary.
    Entry(&'a Object),
    /// The message.
    Message(&'a MessageDef),
}

impl<'a> Subject<'a> {
    /// The elements of a component or a choice, or the building blocks of the message.
    pub(crate) fn elements(&self) -> &'a [ElementDef]
        ensures { result.now ≡ subject_elements self.now }
    {
        match self {
            Subject::Entry(object) => elements_of(object),
            Subject::Message(message) => message.blocks.as_slice(),
        }
    }

    /// The id of the set of currencies that an amount names.
    pub(crate) fn currency(&self) -> Option<&'a Text>
        ensures { option_copied result ≡ subject_currency self.now }
    {
        match self {
            Subject::Entry(object) => currency_of(object),
            Subject::Message(_) => None,
        }
    }
}

/// The elements of a component or a choice.
fn elements_of(object: &Object) -> &[ElementDef]
    ensures { result.now ≡ kind_elements object.now.kind object.now.elements }
{
    match object.kind {
        ObjectKind::Component | ObjectKind::Choice => object.elements.as_slice(),
        ObjectKind::Simple(_) | ObjectKind::External | ObjectKind::Other => &[],
    }
}

/// The id of the set of currencies that an amount names.
fn currency_of(object: &Object) -> Option<&Text>
    ensures { option_copied result ≡ kind_currency object.now.kind object.now.currency }
{
    match object.kind {
        ObjectKind::Simple(Kinds::Amount) => object.currency.as_ref(),
        _ => None,
    }
}
