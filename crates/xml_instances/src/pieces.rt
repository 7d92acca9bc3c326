//! The pieces of an instance, kept as its events come.
ghost use Rattle.std.specs.Prelude.{◌≡◌, ◌++◌, ◌∷◌, [], ℕ, Some, None, OnOk, OnErr, IfSome, IsTrue, true, false, ◌<◌, length, map};
ghost use Rattle.lexical_core.specs.Tree.{Char, Expanded};
ghost use Rattle.data_types.specs.Leaf.{Bytes};
ghost use Rattle.data_types.specs.LeafAnswers.{leaf_of};
ghost use Rattle.data_types.specs.Value.{Holds};
ghost use Rattle.markup.specs.EventItems.{item_of};
ghost use Rattle.markup.specs.Literals.{IsRun};
ghost use Rattle.markup.specs.PlainTags.{tag_items};
ghost use Rattle.respell.specs.Kept.{IsInDefault};
ghost use Rattle.respell.specs.Respelling.{HasSortedAttributes};
ghost use Rattle.inst_pool.specs.Pieces.{open_in};
ghost use Rattle.xml_instances.specs.Built.{Shown, nothing_shown, type_at, with_begun, with_leaf, with_inside, close_shown, FragmentShown};
ghost use Rattle.xml_instances.specs.Keeping.{HasShown, GoOn, IsInnermostDefault, IsKeptDefault, with_all_inside};

use data_types::LeafRef;
use inst_pool::{Builder, Edge, Instance};
use markup::{Event, TagKind};
use respell::Respell;
use std::alloc::{AllocError, Global};
use std::marker::Model;

/// The pieces so far, and what writes the element of an envelope that is open.
#[derive(Drop)]
pub(crate) struct Pieces {
    alloc: Global,
    builder: Builder,
    element: Respell,
}

impl Model for Pieces {
    ghost use Rattle.xml_instances.specs.Keeping.{PiecesKept};

    ghost Value = { PiecesKept };

    ghost view = { λ p. record { pieces = p.builder.pieces; element = p.element } };
}

impl Pieces {
    /// Nothing was shown. It takes no memory.
    pub(crate) fn new(alloc: Global) -> Pieces
        ensures { HasShown result nothing_shown }
    {
        Pieces {
            alloc,
            builder: Builder::new(alloc),
            element: Respell::new(alloc),
        }
    }

    /// The type of the innermost open element, which is `Document` where no other is open.
    fn innermost(&self) -> u32
        ensures { result ≡ type_at (open_in self.now.pieces) }
    {
        match self.builder.innermost() {
            Some(edge) => edge.target,
            None => 0,
        }
    }

    /// An element begins: its slot in the innermost one, and its type.
    #[inline(always)]
    fn begin(&mut self, slot: u32, target: u32) -> Result<(), AllocError>
        ensures { (s : Shown) → HasShown self.old s
            → OnOk result (HasShown self.new (with_begun (Some (record { slot = slot; target = target; parent = type_at s.edges })) s)) }
    {
        let parent = self.innermost();
        self.builder.begin(Edge {
            slot,
            target,
            parent,
        })
    }

    /// Whether no element but `Document` is open.
    fn is_closed(&self) -> bool
        ensures closed { result ≡ true → open_in self.now.pieces ≡ [] }
        ensures open { result ≡ false → 0 < length (open_in self.now.pieces) }
    {
        match self.builder.innermost() {
            Some(_) => false,
            None => true,
        }
    }

    /// The leaf of the innermost element.
    #[inline(never)]
    fn leaf(&mut self, leaf: &LeafRef<'_>) -> Result<(), AllocError>
        ensures { (s : Shown) → HasShown self.old s → OnOk result (HasShown self.new (with_leaf (leaf_of leaf.now) s)) }
    {
        self.builder.leaf_from(leaf)
    }

    /// The innermost element ends.
    #[inline(always)]
    fn close(&mut self) -> Result<(), AllocError>
        ensures { (s : Shown) → HasShown self.old s → OnOk result (HasShown self.new (close_shown s)) }
    {
        if self.is_closed() {
            return Ok(());
        }
        self.builder.close()
    }

    /// An event of the element of an envelope. The attributes of an element that starts have to be sorted.
    fn inside(&mut self, event: &Event) -> Result<(), AllocError>
        ensures { (s : Shown) → HasShown self.old s → HasSortedAttributes (item_of event.now.what) → OnOk result (HasShown self.new (with_inside (item_of event.now.what) s)) }
    {
        self.element.take(event)
    }

    /// A run of characters of the element of an envelope.
    fn inside_run(&mut self, run: &[u8]) -> Result<(), AllocError>
        ensures { (s : Shown) (count : ℕ) (r : IsRun run.now count) → HasShown self.old s → OnOk result (HasShown self.new (with_all_inside (map (λ c. Char c) r.characters) s)) }
    {
        self.element.take_run(run)
    }

    /// A tag of the element of an envelope, whose name is in the default namespace so far.
    fn inside_tag(&mut self, kind: TagKind, local: &[u8]) -> Result<(), AllocError>
        ensures { (s : Shown) (n : Expanded) → n.local ≡ local.now → IsInDefault self.old.element n.namespace → HasShown self.old s → OnOk result (HasShown self.new (with_all_inside (tag_items kind n) s)) }
    {
        self.element.take_tag(kind, local)
    }

    /// Whether the element of an envelope that is open is known to be in the default namespace so far.
    pub(crate) fn is_in_default(&self) -> bool
        ensures { IsTrue result → IsInnermostDefault self.now }
    {
        self.element.is_in_default()
    }

    /// The element of the envelope is its leaf.
    fn envelope(&mut self) -> Result<(), AllocError>
        ensures { (s : Shown) → HasShown self.old s → OnOk result ((t : Shown) × FragmentShown s t × HasShown self.new t) }
    {
        hold_bytes(&mut self.builder, self.element.text())?;
        self.element = Respell::new(self.alloc);
        Ok(())
    }

    /// The instance; `None` where an element is open.
    pub(crate) fn finish(self) -> Option<Instance>
        ensures { IfSome result (λ i. i.region.pieces ≡ self.pieces) }
    {
        if self.is_closed() {
            Some(self.builder.finish())
        } else {
            None
        }
    }
}

/// A leaf of bytes.
fn leaf_of_bytes(bytes: &[u8]) -> LeafRef<'_>
    ensures { leaf_of result ≡ Bytes bytes.now }
{
    LeafRef::Bytes(bytes)
}

/// Appends a leaf of bytes.
fn hold_bytes(builder: &mut Builder, bytes: &[u8]) -> Result<(), AllocError>
    ensures ok { OnOk result (builder.new.pieces ≡ builder.old.pieces ++ Holds (Bytes bytes.now) ∷ []) }
    ensures err { OnErr result (builder.new.pieces ≡ builder.old.pieces) }
{
    let leaf = leaf_of_bytes(bytes);
    builder.leaf_from(&leaf)
}

/// An element begins, where pieces are kept.
#[inline(always)]
pub(crate) fn begin(pieces: &mut Option<Pieces>, slot: u32, target: u32) -> Result<(), AllocError>
    ensures bare { pieces.old ≡ None → pieces.new ≡ None }
    ensures shown { OnOk result (GoOn pieces.old pieces.new (λ s t. t ≡ with_begun (Some (record { slot = slot; target = target; parent = type_at s.edges })) s)) }
{
    match pieces {
        None => Ok(()),
        Some(pieces) => pieces.begin(slot, target),
    }
}

/// The leaf of the innermost element, where pieces are kept.
#[inline(always)]
pub(crate) fn leaf(pieces: &mut Option<Pieces>, leaf: &LeafRef<'_>) -> Result<(), AllocError>
    ensures bare { pieces.old ≡ None → pieces.new ≡ None }
    ensures shown { OnOk result (GoOn pieces.old pieces.new (λ s t. t ≡ with_leaf (leaf_of leaf.now) s)) }
{
    match pieces {
        None => Ok(()),
        Some(pieces) => pieces.leaf(leaf),
    }
}

/// The innermost element ends, where pieces are kept.
#[inline(always)]
pub(crate) fn close(pieces: &mut Option<Pieces>) -> Result<(), AllocError>
    ensures bare { pieces.old ≡ None → pieces.new ≡ None }
    ensures shown { OnOk result (GoOn pieces.old pieces.new (λ s t. t ≡ close_shown s)) }
{
    match pieces {
        None => Ok(()),
        Some(pieces) => pieces.close(),
    }
}

/// An event of the element of an envelope, where pieces are kept.
pub(crate) fn inside(pieces: &mut Option<Pieces>, event: &Event) -> Result<(), AllocError>
    ensures bare { pieces.old ≡ None → pieces.new ≡ None }
    ensures shown { HasSortedAttributes (item_of event.now.what) → OnOk result (GoOn pieces.old pieces.new (λ s t. t ≡ with_inside (item_of event.now.what) s)) }
{
    match pieces {
        None => Ok(()),
        Some(pieces) => pieces.inside(event),
    }
}

/// A run of characters of the element of an envelope, where pieces are kept.
pub(crate) fn inside_run(pieces: &mut Option<Pieces>, run: &[u8]) -> Result<(), AllocError>
    ensures bare { pieces.old ≡ None → pieces.new ≡ None }
    ensures shown { (count : ℕ) (r : IsRun run.now count) → OnOk result (GoOn pieces.old pieces.new (λ s t. t ≡ with_all_inside (map (λ c. Char c) r.characters) s)) }
{
    match pieces {
        None => Ok(()),
        Some(pieces) => pieces.inside_run(run),
    }
}

/// A tag of the element of an envelope, where pieces are kept.
pub(crate) fn inside_tag(
    pieces: &mut Option<Pieces>,
    kind: TagKind,
    local: &[u8],
) -> Result<(), AllocError>
    ensures bare { pieces.old ≡ None → pieces.new ≡ None }
    ensures shown { (n : Expanded) → n.local ≡ local.now → IsKeptDefault pieces.old n → OnOk result (GoOn pieces.old pieces.new (λ s t. t ≡ with_all_inside (tag_items kind n) s)) }
{
    match pieces {
        None => Ok(()),
        Some(pieces) => pieces.inside_tag(kind, local),
    }
}

/// The element of the envelope is its leaf, where pieces are kept.
pub(crate) fn envelope(pieces: &mut Option<Pieces>) -> Result<(), AllocError>
    ensures bare { pieces.old ≡ None → pieces.new ≡ None }
    ensures shown { OnOk result (GoOn pieces.old pieces.new FragmentShown) }
{
    match pieces {
        None => Ok(()),
        Some(pieces) => pieces.envelope(),
    }
}
