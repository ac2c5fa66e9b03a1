//! Output in pieces: what a run has written is put out from where the piece before it ended.
ghost use Rattle.std.specs.Prelude.{◌≡◌, ◌≤◌, length, drop, IfOk, OnErr, OnOk};
ghost use Rattle.au_io.specs.FaultCounts.{AppendedPrefix, HasCause};
ghost use Rattle.scheduler.specs.Pieces.{PutsOn};

use au_io::{Sink, WriteFault};

/// From so many bytes on, what waits is put out.
pub(crate) const PIECE: usize = 8_192;

/// Puts out what was written behind so many bytes, where that is at least so much, and gives how many bytes were put out.
pub(crate) fn put_on<K: Sink>(
    written: &[u8],
    put: usize,
    least: usize,
    out: &mut K,
) -> Result<usize, WriteFault>
    requires { 1 ≤ least }
    ensures ok { IfOk result (λ now. PutsOn written.now put least now (K.taken out.old) (K.taken out.new)) }
    ensures err { OnErr result ((put ≤ length written.now) × AppendedPrefix (K.taken out.old) (K.taken out.new) (drop put written.now)) }
    ensures quiet { OnOk result (K.faults out.new ≡ K.faults out.old) }
    ensures cause { HasCause (K.faults out.old) (K.faults out.new) result }
{
    if written.len().saturating_sub(put) < least {
        return Ok(put);
    }
    out.write_all(&written[put..])?;
    Ok(written.len())
}
