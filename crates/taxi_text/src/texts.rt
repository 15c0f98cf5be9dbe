//! Bytes and numbers that are written.
ghost use Rattle.std.specs.Prelude.{◌≡◌, ◌+◌, ◌≤◌, ◌++◌, [], length, decimal, OnOk, OnErr};

use itoa::Buffer;
use std::marker::Model;
use taxi_base::Memory;

/// Adds the bytes at the end.
pub fn push_bytes(out: &mut Vec<u8>, piece: &[u8]) -> Result<(), Memory>
    ensures ok { OnOk result (out.new.items ≡ out.old.items ++ piece.now) }
    ensures err { OnErr result (out.new.items ≡ out.old.items) }
{
    out.extend_from_slice(piece)?;
    Ok(())
}

/// Adds the number's decimal digits at the end, with no leading zero.
pub fn push_number(out: &mut Vec<u8>, value: u64) -> Result<(), Memory>
    ensures ok { OnOk result (out.new.items ≡ out.old.items ++ decimal value) }
    ensures err { OnErr result (out.new.items ≡ out.old.items) }
{
    let mut digits = Buffer::new();
    push_bytes(out, digits.format(value).as_bytes())
}

/// At most 64 bytes, which take no memory of an allocator. Contracts see their list.
#[derive(Clone, Copy)]
pub struct ShortText {
    bytes: [u8; 64],
    len: usize,
}

impl Model for ShortText {
    ghost use Rattle.std.specs.Prelude.{List, ℕ, ◌≡◌, ◌-◌, ◌++◌, length, take, replicate};
    ghost use Rattle.taxi_text.specs.Texts.{with_zeros};

    ghost Value = { List ℕ };

    ghost view = { λ t. take t.len t.bytes };

    ghost invariant = { λ t. (with_zeros (take t.len t.bytes) ≡ t.bytes) × (length (take t.len t.bytes) ≡ t.len) };

    ghost inverse = { λ bytes. record { bytes = with_zeros bytes; len = length bytes } };

    ghost inverse_ok = { λ t h i. record { bytes = h.0 i; len = h.1 i } };
}

impl ShortText {
    /// No bytes.
    pub fn new() -> ShortText
        ensures { result ≡ [] }
    {
        ShortText {
            bytes: [0; 64],
            len: 0,
        }
    }

    /// Adds the piece at the end.
    pub fn push(&mut self, piece: &[u8])
        requires { length self.old + length piece.now ≤ 64 }
        ensures { self.new ≡ self.old ++ piece.now }
    {
        let end = self.len + piece.len();
        self.bytes[self.len..end].copy_from_slice(piece);
        self.len = end;
    }

    /// The bytes of the text, at most 64.
    pub fn bytes(&self) -> &[u8]
        ensures same { result.now ≡ self.now }
        ensures short { length self.now ≤ 64 }
    {
        &self.bytes[..self.len]
    }
}
