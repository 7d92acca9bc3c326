//! The canonical text of a leaf, pushed on a sink: XML Schema part 2 §3.2, and XML 1.0 §2.4 for what is escaped.
ghost use Rattle.std.specs.Prelude.{List, ℕ};
ghost use Rattle.lexical_core.specs.Decimals.{IsDecimal, IsCanonicalText};
ghost use Rattle.outside.specs.Sink.{PushAppends, HasSinkCause, HasRoom};
ghost use Rattle.data_types.specs.Leaf.{IsLeafOf};
ghost use Rattle.data_types.specs.LeafAnswers.{leaf_of};
ghost use Rattle.data_types.specs.Canonical.{IsCanonicalLeaf, escaped_text};

use crate::booleans::boolean_text;
use crate::kind::Kind;
use crate::leaf::LeafRef;
use crate::octet_writer::push_octets;
use crate::text_writer::push_escaped;
use lexical_core::Decimal;
use outside::{Sink, SinkError};

/// Pushes the canonical text of a leaf of this kind, as an element's content. After an error the sink
/// holds a front of it behind what it held. `Failed` comes only where the sink's count of faults rose,
/// and `Memory` only where the text is longer than its room. It takes no memory of its own.
pub fn push_leaf<O: Sink>(kind: Kind, leaf: &LeafRef<'_>, sink: &mut O) -> Result<(), SinkError>
    requires { IsLeafOf kind (leaf_of leaf.now) }
    ensures bytes { (chars : List ℕ) → IsCanonicalLeaf kind (leaf_of leaf.now) chars
        → PushAppends (O.held sink.old) (O.held sink.new) result (escaped_text chars) }
    ensures cause { HasSinkCause (O.faults sink.old) (O.faults sink.new) result }
    ensures room { (chars : List ℕ) → IsCanonicalLeaf kind (leaf_of leaf.now) chars
        → HasRoom (O.room sink.old) (O.room sink.new) result (escaped_text chars) }
{
    match leaf {
        LeafRef::Bytes(bytes) => match kind {
            Kind::Text => push_escaped(bytes, false, sink),
            Kind::Binary => push_octets(bytes, sink),
            _ => sink.push(bytes),
        },
        LeafRef::Number(number) => push_number(number, sink),
        LeafRef::Flag(flag) => sink.push(boolean_text(*flag)),
        LeafRef::Code(_) => unreachable!(),
    }
}

/// Pushes the canonical text of a number.
fn push_number<O: Sink>(number: &Decimal, sink: &mut O) -> Result<(), SinkError>
    ensures bytes { (text : List ℕ) → IsDecimal number.now → IsCanonicalText text number.now
        → PushAppends (O.held sink.old) (O.held sink.new) result text }
    ensures cause { HasSinkCause (O.faults sink.old) (O.faults sink.new) result }
    ensures room { (text : List ℕ) → IsDecimal number.now → IsCanonicalText text number.now
        → HasRoom (O.room sink.old) (O.room sink.new) result text }
{
    let mut buf = [0; 32];
    let length = number.text_into(&mut buf);
    sink.push(&buf[..length])
}
