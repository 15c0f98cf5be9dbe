//! Cutting a text at a byte.
ghost use Rattle.std.specs.Prelude.{◌≡◌, ◌∷◌, ◌==◌, ◌<◌, IfSome, length, position};
ghost use Rattle.taxi_text.specs.Parts.{parts_of, parts_left};

// The first part, and what comes after the byte that ends it.
pub(crate) fn first_part(byte: u8, bytes: &[u8]) -> (&[u8], Option<&[u8]>)
    ensures { parts_of byte bytes.now ≡ result.0.now ∷ parts_left byte result.1 }
{
    match place_of(byte, bytes) {
        Some(end) => (&bytes[..end], Some(&bytes[end + 1..])),
        None => (bytes, None),
    }
}

// Where the byte first stands.
pub(crate) fn place_of(byte: u8, bytes: &[u8]) -> Option<usize>
    ensures place { result ≡ position (λ b. b == byte) bytes.now }
    ensures within { IfSome result (λ at. at < length bytes.now) }
{
    bytes.iter().position(|b| *b == byte)
}
