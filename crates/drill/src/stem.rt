//! The innermost open node and those round it, and the pieces of all that has grown.
ghost use Rattle.std.specs.Prelude.{◌≡◌, ◌+◌, ◌<◌, ◌^◌, ◌++◌, ◌∷◌, [], IfOk, OnOk};
ghost use Rattle.data_types.specs.Leaf.{Bytes};
ghost use Rattle.data_types.specs.Value.{Begins, Holds, Ends};
ghost use Rattle.data_types.specs.LeafAnswers.{leaf_of};
ghost use Rattle.fragments.specs.Fragment.{fragment};
ghost use Rattle.inst_pool.specs.Pieces.{open_in};
ghost use Rattle.message_model.specs.Tables.{pieces_of};
ghost use Rattle.drill.specs.BuiltIn.{drill_tables};
ghost use Rattle.drill.specs.Growing.{Path, path_outside, path_after, path_under, node_name, tree_of, document};
ghost use Rattle.drill.specs.inner.PathPieces.{HasPath, name_edge, first_path};

use data_types::LeafRef;
use inst_pool::{Builder, Edge, Instance};
use std::alloc::{AllocError, Global};

/// Where the message's element stands.
const MESSAGE: Edge = Edge {
    slot: 0,
    target: 1,
    parent: 0,
};

/// Where node 0 stands.
const ROOT: Edge = Edge {
    slot: 0,
    target: 3,
    parent: 1,
};

/// Where a name stands.
const NAME: Edge = Edge {
    slot: 0,
    target: 2,
    parent: 3,
};

/// Where every node but node 0 stands.
const CHILD: Edge = Edge {
    slot: 1,
    target: 3,
    parent: 3,
};

/// How many pieces a node has.
const PIECES_OF_NODE: usize = 5;

/// How many pieces the message's element has.
const PIECES_OF_MESSAGE: usize = 2;

/// How many bytes a name has at most.
const MOST_OF_NAME: usize = 8;

/// The pieces of open nodes, one in the other, and how many are open.
#[derive(Drop)]
pub(crate) struct Stem {
    pub(crate) builder: Builder,
    pub(crate) depth: u32,
}

impl Stem {
    /// Node 0 is open, and there is room for so many beside it.
    pub(crate) fn sow(alloc: Global, name: &[u8], size: u32) -> Result<Stem, AllocError>
        requires { name.now ≡ node_name 0 }
        ensures { IfOk result (λ s. HasPath first_path s) }
    {
        let mut builder = roomy_builder(alloc, size)?;
        builder.begin(MESSAGE)?;
        builder.begin(ROOT)?;
        push_name(&mut builder, name)?;
        Ok(Stem { builder, depth: 1 })
    }

    /// The innermost node closes, where another is open round it.
    fn leave(&mut self) -> Result<(), AllocError>
        requires { (p : Path) × HasPath p self.old }
        ensures { (p : Path) → HasPath p self.old → OnOk result (HasPath (path_outside p) self.new) }
    {
        if self.depth <= 1 {
            return Ok(());
        }
        self.builder.close()?;
        self.depth -= 1;
        Ok(())
    }

    /// So many nodes close, while another is open round them.
    pub(crate) fn leave_some(&mut self, count: u32) -> Result<(), AllocError>
        requires { (p : Path) × HasPath p self.old }
        ensures { (p : Path) → HasPath p self.old → OnOk result (HasPath (path_after count p) self.new) }
    {
        for i in 0..count {
            if let Err(error) = self.leave() {
                return Err(error);
            }
        }
        Ok(())
    }

    /// A node opens below the innermost.
    pub(crate) fn open(&mut self, number: u32, name: &[u8]) -> Result<(), AllocError>
        requires path { (p : Path) × HasPath p self.old }
        requires room { self.old.depth + 1 < 2 ^ 32 }
        requires name { name.now ≡ node_name number }
        ensures { (p : Path) → HasPath p self.old → OnOk result (HasPath (path_under number p) self.new) }
    {
        self.builder.begin(CHILD)?;
        push_name(&mut self.builder, name)?;
        self.depth += 1;
        Ok(())
    }

    /// All nodes close, and the message's element.
    pub(crate) fn finish(mut self) -> Result<Instance, AllocError>
        requires { (p : Path) × HasPath p self }
        ensures { (p : Path) → HasPath p self → IfOk result (λ i. i.region.pieces ≡ pieces_of fragment drill_tables (document (tree_of p))) }
    {
        // The last that is open is not left, and `builder` closes it.
        let depth = self.depth;
        self.leave_some(depth)?;
        let Stem {
            mut builder,
            depth: _,
        } = self;
        builder.close()?;
        builder.close()?;
        Ok(builder.finish())
    }
}

/// A builder with room for so many nodes beside the first. One that grows to their number leaves blocks behind that are
/// too small for what comes later.
fn roomy_builder(alloc: Global, size: u32) -> Result<Builder, AllocError>
    ensures { IfOk result (λ b. b.pieces ≡ []) }
{
    let nodes = size as usize + 1;
    let mut builder = Builder::new(alloc);
    builder.reserve(
        nodes * PIECES_OF_NODE + PIECES_OF_MESSAGE,
        nodes * MOST_OF_NAME,
    )?;
    Ok(builder)
}

/// The element of a name.
fn push_name(builder: &mut Builder, name: &[u8]) -> Result<(), AllocError>
    ensures pieces { OnOk result (builder.new.pieces ≡ builder.old.pieces ++ (Begins name_edge ∷ (Holds (Bytes name.now) ∷ (Ends name_edge ∷ [])))) }
    ensures open_are { OnOk result (open_in builder.new.pieces ≡ open_in builder.old.pieces) }
{
    builder.begin(NAME)?;
    let leaf = leaf_of_bytes(name);
    builder.leaf_from(&leaf)?;
    builder.close()?;
    Ok(())
}

/// A leaf of bytes.
fn leaf_of_bytes(bytes: &[u8]) -> LeafRef<'_>
    ensures { leaf_of result ≡ Bytes bytes.now }
{
    LeafRef::Bytes(bytes)
}
