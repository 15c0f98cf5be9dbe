//! Lines of pieces, written at the end of a text.
ghost use Rattle.std.specs.Prelude.{◌≡◌, ◌∷◌, [], map, OnOk};
ghost use Rattle.traffic_generator.specs.Texts.{and_lines};

use taxi_base::Memory;
use taxi_text::push_bytes;

/// Adds a line of the first piece and the others, with the separator between two, and ends it.
pub(crate) fn push_line(
    text: &mut Vec<u8>,
    separator: u8,
    first: &[u8],
    rest: &[&[u8]],
) -> Result<(), Memory>
    ensures { OnOk result (text.new.items ≡ and_lines separator text.old.items ((first.now ∷ map (λ p. p.now) rest.now) ∷ [])) }
{
    push_bytes(text, first)?;
    for piece in rest {
        push_bytes(text, &[separator])?;
        push_bytes(text, piece)?;
    }
    push_bytes(text, b"\n")
}
