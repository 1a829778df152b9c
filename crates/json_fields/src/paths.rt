//! Paths in a JSON value.
ghost use Rattle.std.specs.Prelude.{◌≡◌, ◌++◌, IfOk, OnOk};
ghost use Rattle.json_fields.specs.Paths.{index};

use flux_defs::Text;
use std::alloc::{AllocError, Global};
use text_forms::{push_bytes, push_decimal};

/// Adds the index of a member of a list, as `[2]`.
fn push_index(path: &mut Vec<u8>, at: u64) -> Result<(), AllocError>
    ensures { OnOk result (path.new.items ≡ path.old.items ++ index at) }
{
    push_bytes(path, b"[")?;
    push_decimal(path, at)?;
    push_bytes(path, b"]")
}

/// The index of a member of a list, as `[2]`.
pub fn index_path(alloc: Global, at: u64) -> Result<Text, AllocError>
    ensures { IfOk result (λ path. path ≡ index at) }
{
    let mut path = Vec::new(alloc);
    push_index(&mut path, at)?;
    Ok(Text::of_vec(path))
}

/// A path, and another one behind it.
pub fn joined_path(alloc: Global, front: &[u8], rest: &[u8]) -> Result<Text, AllocError>
    ensures { IfOk result (λ path. path ≡ front.now ++ rest.now) }
{
    let mut path = Vec::from_slice(alloc, front)?;
    push_bytes(&mut path, rest)?;
    Ok(Text::of_vec(path))
}

/// The path of a member of the list at a path, with what stands behind it, as `resources[2].type`.
pub fn member_path(alloc: Global, list: &[u8], at: u64, rest: &str) -> Result<Text, AllocError>
    ensures { IfOk result (λ path. path ≡ list.now ++ index at ++ rest.now) }
{
    let mut path = Vec::from_slice(alloc, list)?;
    push_index(&mut path, at)?;
    push_bytes(&mut path, rest.as_bytes())?;
    Ok(Text::of_vec(path))
}
