//! Writing a piece whole.
ghost use Rattle.std.specs.Prelude.{◌≤◌, OnOk, OnErr, IsErrOf};
ghost use Rattle.taxi_io.specs.Counts.{Rose};
ghost use Rattle.taxi_io.specs.Written.{Grew, GrewInPart, Handed, HandedInPart};

use crate::sink::Sink;
use crate::trouble::Trouble;

/// Writes all bytes of the piece, in as many writes as the sink wants. The first is handed the whole piece, and each other what is
/// left of it. After a refusal the sink has taken a front of the piece, and not the whole.
pub fn write_all<K: Sink>(sink: &mut K, piece: &[u8]) -> Result<(), Trouble>
    ensures ok { OnOk result (Grew (K.written sink.old) (K.written sink.new) piece.now) }
    ensures refused { OnErr result (GrewInPart (K.written sink.old) (K.written sink.new) piece.now) }
    ensures handed { OnOk result (Handed (K.written sink.old) (K.written sink.new) piece.now) }
    ensures in_part { OnErr result (HandedInPart (K.written sink.old) (K.written sink.new) piece.now) }
    ensures failed { IsErrOf result Trouble.Failed → Rose (K.faults sink.old) (K.faults sink.new) }
    ensures later { K.faults sink.old ≤ K.faults sink.new }
{
    let mut rest = piece;
    while !rest.is_empty() {
        let count = sink.write(rest)?;
        rest = &rest[count..];
    }
    Ok(())
}
