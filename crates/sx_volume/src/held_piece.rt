ghost use Rattle.std.specs.Prelude.{◌≡◌, MatchOption};
ghost use Rattle.sx_volume.specs.Held.{LiesInHeld, held_range, place_and_bytes};

use std::sync::Arc;

/// A piece that a volume holds for its next append, and the place that it is held for.
#[derive(Drop)]
pub struct HeldPiece {
    /// The place of the piece's first byte.
    pub at: u64,
    /// The bytes.
    pub piece: Arc<Vec<u8>>,
}

/// The range of the held piece, where it lies there.
pub fn range_of(held: &Option<HeldPiece>, at: u64, count: u32) -> Option<&[u8]>
    ensures { MatchOption result
        (LiesInHeld (place_and_bytes held.now) at count → ⊥)
        (λ range. LiesInHeld (place_and_bytes held.now) at count
        × (range.now ≡ held_range (place_and_bytes held.now) at count)) }
{
    let held = held.as_ref()?;
    let start = at.checked_sub(held.at)? as usize;
    let piece = held.piece.as_slice();
    if start > piece.len() || count as usize > piece.len() - start {
        return None;
    }
    Some(&piece[start..start + count as usize])
}
