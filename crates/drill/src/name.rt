//! The name of a node.
ghost use Rattle.std.specs.Prelude.{◌≡◌, OnOk};
ghost use Rattle.drill.specs.Growing.{node_name};

use std::alloc::AllocError;

/// Puts the name of a node in the place of what was there.
pub(crate) fn write_name(name: &mut Vec<u8>, number: u32) -> Result<(), AllocError>
    ensures { OnOk result (name.new.items ≡ node_name number) }
{
    name.clear();
    name.extend_from_slice(b"n".as_slice())?;
    let mut digits = itoa::Buffer::new();
    name.extend_from_slice(digits.format(number).as_bytes())?;
    Ok(())
}
