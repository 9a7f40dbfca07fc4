//! Small pieces of replies.
ghost use Rattle.std.specs.Prelude.{◌≡◌, ◌++◌, OnOk, flat_map, length, take};
ghost use Rattle.std.specs.String.{string_bytes};
ghost use Rattle.sx_run.specs.Reply.{hash_bytes, link_bytes, spaced};

use std::alloc::{AllocError, Global};
use sx_json::hex_digit;
use sx_tree::bytes::Bytes;

/// Adds the text.
pub(crate) fn append_text(text: String, out: &mut Bytes) -> Result<(), AllocError>
    ensures written { OnOk result (out.new ≡ out.old ++ string_bytes text) }
    ensures begins { take (length out.old) out.new ≡ out.old }
{
    out.extend_from_slice(text.as_bytes())
}

/// Adds a space and the number of a linked node, or `-`.
pub(crate) fn append_link(
    alloc: Global,
    link: Option<u32>,
    out: &mut Bytes,
) -> Result<(), AllocError>
    ensures written { OnOk result (out.new ≡ out.old ++ link_bytes link) }
    ensures begins { take (length out.old) out.new ≡ out.old }
{
    match link {
        Some(node) => append_text(format!(in alloc; " {node}")?, out),
        None => out.extend_from_slice(b" -"),
    }
}

/// Adds the numbers, each behind a space.
pub(crate) fn append_numbers(
    alloc: Global,
    numbers: &[u32],
    out: &mut Bytes,
) -> Result<(), AllocError>
    ensures written { OnOk result (out.new ≡ out.old ++ flat_map spaced numbers.now) }
    ensures begins { take (length out.old) out.new ≡ out.old }
{
    for number in numbers {
        append_text(format!(in alloc; " {number}")?, out)?;
    }
    Ok(())
}

/// Adds the 32 digits of a hash.
pub(crate) fn append_hash(hash: u128, out: &mut Bytes) -> Result<(), AllocError>
    ensures written { OnOk result (out.new ≡ out.old ++ hash_bytes hash) }
    ensures begins { take (length out.old) out.new ≡ out.old }
{
    for byte in hash.to_be_bytes().iter() {
        out.push(hex_digit(*byte / 16))?;
        out.push(hex_digit(*byte % 16))?;
    }
    Ok(())
}
