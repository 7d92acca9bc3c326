//! The names of the open elements, in one block of bytes.
ghost use Rattle.std.specs.Prelude.{◌≡◌, ◌==◌, ◌∷◌, ◌++◌, List, [], length, OnOk, MatchOption};
ghost use Rattle.markup.specs.inner.OpenNames.{OpenName, KeepsNames, IsInnermost};

use crate::name_block::NameBlock;
use std::alloc::{AllocError, Global};

/// How many bytes the parts of an open element's name have, and how many namespaces its tag
/// declares.
#[derive(Clone, Copy)]
pub(crate) struct NameSize {
    prefix: usize,
    local: usize,
    declared: usize,
}

/// The names of the open elements as their start tags spell them.
#[derive(Drop)]
pub(crate) struct OpenNames {
    /// The bytes of all names without their colons, those of the outermost first.
    block: NameBlock,
    sizes: Vec<NameSize>,
}

/// The name of the innermost open element.
#[derive(Clone, Copy)]
pub(crate) struct InnermostName<'a> {
    pub(crate) prefix: &'a [u8],
    pub(crate) local: &'a [u8],
}

/// Appends the bytes, of which there are mostly none.
#[inline]
fn append(block: &mut NameBlock, more: &[u8]) -> Result<(), AllocError>
    ensures { OnOk result (block.new ≡ block.old ++ more.now) }
{
    if more.is_empty() {
        return Ok(());
    }
    block.append(more)
}

/// Appends a size.
#[inline(always)]
fn append_size(sizes: &mut Vec<NameSize>, size: NameSize) -> Result<(), AllocError>
    ensures { OnOk result (sizes.new.items ≡ sizes.old.items ++ size ∷ []) }
{
    sizes.reserve(1)?;
    sizes.push_reserved(size);
    Ok(())
}

impl OpenNames {
    /// No element is open. It takes no memory.
    pub(crate) fn new(alloc: Global) -> OpenNames
        ensures { KeepsNames result [] }
    {
        OpenNames {
            block: NameBlock::new(alloc),
            sizes: Vec::new(alloc),
        }
    }

    /// Whether no element is open.
    #[inline]
    pub(crate) fn is_empty(&self) -> bool
        ensures { (names : List OpenName) → KeepsNames self.now names → result ≡ (length names == 0) }
    {
        self.sizes.is_empty()
    }

    /// How many elements are open.
    pub(crate) fn count(&self) -> usize
        ensures { (names : List OpenName) → KeepsNames self.now names → result ≡ length names }
    {
        self.sizes.len()
    }

    /// One more element is open. Where there is no memory the names are of no more use.
    #[inline(always)]
    pub(crate) fn push(
        &mut self,
        prefix: &[u8],
        local: &[u8],
        declared: usize,
    ) -> Result<(), AllocError>
        ensures { (names : List OpenName) → KeepsNames self.old names → OnOk result (KeepsNames self.new ((record { name = record { prefix = prefix.now; local = local.now }; declared = declared }) ∷ names)) }
    {
        append(&mut self.block, prefix)?;
        self.block.append(local)?;
        let size = NameSize {
            prefix: prefix.len(),
            local: local.len(),
            declared,
        };
        append_size(&mut self.sizes, size)
    }

    /// The name of the innermost open element.
    #[inline]
    pub(crate) fn innermost(&self) -> Option<InnermostName<'_>>
        ensures { (names : List OpenName) → KeepsNames self.now names → MatchOption result (names ≡ []) (λ n. IsInnermost n.prefix.now n.local.now names) }
    {
        let Some((size, _)) = self.sizes.split_last() else {
            return None;
        };
        let bytes = self.block.bytes();
        let (outer, local) = bytes.split_at(bytes.len().saturating_sub(size.local));
        let (_, prefix) = outer.split_at(outer.len().saturating_sub(size.prefix));
        Some(InnermostName { prefix, local })
    }

    /// The innermost element is closed. It answers how many namespaces its tag declares.
    #[inline]
    pub(crate) fn pop(&mut self) -> usize
        ensures { (name : OpenName) (outer : List OpenName) → KeepsNames self.old (name ∷ outer) → (result ≡ name.declared) × KeepsNames self.new outer }
    {
        let Some(size) = self.sizes.pop() else {
            return 0;
        };
        let left = self.block.len().saturating_sub(size.local);
        self.block.truncate(left.saturating_sub(size.prefix));
        size.declared
    }
}
