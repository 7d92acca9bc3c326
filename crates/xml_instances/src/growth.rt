//! Room for one more item, so that the push that follows cannot fail and is short where it is called.
ghost use Rattle.std.specs.Prelude.{◌≡◌, ◌<◌, OnOk, vec_len, vec_capacity};

use std::alloc::AllocError;

/// Makes room for one more item.
#[inline(always)]
pub(crate) fn make_room<T>(block: &mut Vec<T>) -> Result<(), AllocError>
    ensures items { block.new.items ≡ block.old.items }
    ensures room { OnOk result (vec_len block.new < vec_capacity block.new) }
{
    if block.len() < block.capacity() {
        return Ok(());
    }
    widen(block)
}

/// Makes room where there is none.
#[inline(never)]
fn widen<T>(block: &mut Vec<T>) -> Result<(), AllocError>
    ensures items { block.new.items ≡ block.old.items }
    ensures room { OnOk result (vec_len block.new < vec_capacity block.new) }
{
    match block.reserve(1) {
        Ok(()) => Ok(()),
        Err(_) => Err(AllocError),
    }
}
