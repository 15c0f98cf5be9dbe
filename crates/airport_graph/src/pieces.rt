//! Pieces of a text, added one after the other.
ghost use Rattle.std.specs.Prelude.{◌≡◌, ◌++◌, flat_map, OnOk};

use taxi_base::Memory;
use taxi_text::push_bytes;

/// Adds each of the pieces at the end.
pub(crate) fn push_pieces(out: &mut Vec<u8>, pieces: &[&[u8]]) -> Result<(), Memory>
    ensures { OnOk result (out.new.items ≡ out.old.items ++ flat_map (λ piece. piece.now) pieces.now) }
{
    for piece in pieces {
        push_bytes(out, piece)?;
    }
    Ok(())
}
