//! Elements of a simple type, each written at once.
ghost use Rattle.std.specs.Prelude.{◌≡◌, ◌++◌, ◌≤◌, ◌<◌, ℕ, List, IsTrue, false, IfSome, IfNone, length, drop};
ghost use Rattle.data_types.specs.LeafAnswers.{leaf_of};
ghost use Rattle.inst_pool.specs.Pieces.{edge_of};
ghost use Rattle.message_model.specs.Tables.{types_of};
ghost use Rattle.xml_writer.specs.inner.PieceTexts.{AreWritten, HasPut, IsElementText};

use crate::innermost::{Innermost, Place};
use crate::leaves::text_of;
use crate::tags::tag_of;
use crate::texts::put_spelled_within;
use inst_pool::{Instance, LeafElement};
use message_model::{Form, Model};
use outside::Buffer;

/// Puts an element whose text stands for itself into the buffer, and tells the place behind it. `None` where none is known to begin at
/// the place, or the buffer has not the room; it is as before.
#[inline(always)]
pub(crate) fn put_element(
    model: &Model,
    instance: &Instance,
    place: Place,
    buffer: &mut Buffer,
) -> Option<Place>
    requires text { (rest : List ℕ) × AreWritten (types_of model.now) place.innermost (drop place.at instance.now.region.pieces) rest }
    ensures put { IfSome result (λ behind. HasPut (types_of model.now) instance.now.region.pieces place.innermost place.at buffer.old behind.innermost behind.at buffer.new) }
    ensures later { IfSome result (λ behind. place.at < behind.at) }
    ensures within { IfSome result (λ behind. behind.at ≤ length instance.now.region.pieces) }
    ensures kept { IfNone result (buffer.new ≡ buffer.old) }
{
    let _count = instance.count();
    let Some(element) = instance.leaf_element(place.at) else {
        return None;
    };
    if !put_simple(model, &element, buffer) {
        return None;
    }
    Some(Place {
        at: place.at + 3,
        innermost: Innermost {
            number: element.edge.parent,
            unended: false,
        },
    })
}

/// Puts an element of a simple type whose text stands for itself into the buffer. `false` where it is another, or the buffer has not
/// the room; it is as before.
#[inline(always)]
fn put_simple(model: &Model, element: &LeafElement<'_>, buffer: &mut Buffer) -> bool
    requires { (bytes : List ℕ) × IsElementText (types_of model.now) (edge_of element.now.edge) (leaf_of element.now.leaf) bytes }
    ensures put { IsTrue result → (bytes : List ℕ) → IsElementText (types_of model.now) (edge_of element.now.edge) (leaf_of element.now.leaf) bytes
        → buffer.new ≡ buffer.old ++ bytes }
    ensures kept { result ≡ false → buffer.new ≡ buffer.old }
{
    let Some(Form::Simple(simple)) = model.form(element.edge.target) else {
        return false;
    };
    let Some(text) = text_of(simple, &element.leaf) else {
        return false;
    };
    put_spelled_within(tag_of(model, &element.edge), text, buffer)
}
