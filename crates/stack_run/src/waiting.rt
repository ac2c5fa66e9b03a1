//! Output that is put out in pieces.
ghost use Rattle.std.specs.Prelude.{◌≡◌, ◌≢◌, ◌≤◌, ◌++◌, [], OnOk, OnErr};
ghost use Rattle.au_io.specs.FaultCounts.{Appended, AppendedPrefix, HasCause, Increased};
ghost use Rattle.stack_run.specs.Pieces.{IsClosedWith, PutsOut};

use crate::ending::failed;
use au_io::{Sink, WriteFault};
use run_model::{RunEnd, RunEnding};
use std::alloc::Global;

/// From so many bytes on, what waits is put out.
const PIECE: usize = 8_192;

/// Bytes that were written and are not yet put out.
#[derive(Drop)]
pub(crate) struct Waiting {
    bytes: Vec<u8>,
}

impl Waiting {
    /// No bytes.
    pub(crate) fn new(alloc: Global) -> Waiting
        ensures { result.bytes.items ≡ [] }
    {
        Waiting {
            bytes: Vec::new(alloc),
        }
    }

    /// Takes written bytes after those that wait. Where they are many, or memory is short, they are put out at once.
    pub(crate) fn take<K: Sink>(&mut self, written: &[u8], out: &mut K) -> Result<(), WriteFault>
        ensures ok { OnOk result (PutsOut (K.taken out.old) (K.taken out.new) (self.old.bytes.items ++ written.now) self.new.bytes.items) }
        ensures err { OnErr result (AppendedPrefix (K.taken out.old) (K.taken out.new) (self.old.bytes.items ++ written.now)) }
        ensures quiet { OnOk result (K.faults out.new ≡ K.faults out.old) }
        ensures cause { HasCause (K.faults out.old) (K.faults out.new) result }
    {
        if written.len() >= PIECE {
            return self.put_out_with(written, out);
        }
        match self.bytes.extend_from_slice(written) {
            Ok(()) if self.bytes.len() < PIECE => Ok(()),
            Ok(()) => self.put_out(out),
            Err(_) => self.put_out_with(written, out),
        }
    }

    /// Puts out what waits.
    fn put_out<K: Sink>(&mut self, out: &mut K) -> Result<(), WriteFault>
        ensures ok { OnOk result (Appended (K.taken out.old) (K.taken out.new) self.old.bytes.items) }
        ensures empty { OnOk result (self.new.bytes.items ≡ []) }
        ensures err { OnErr result (AppendedPrefix (K.taken out.old) (K.taken out.new) self.old.bytes.items) }
        ensures quiet { OnOk result (K.faults out.new ≡ K.faults out.old) }
        ensures cause { HasCause (K.faults out.old) (K.faults out.new) result }
    {
        out.write_all(&self.bytes)?;
        self.bytes.clear();
        Ok(())
    }

    /// Puts out what waits, and these bytes after it.
    fn put_out_with<K: Sink>(&mut self, written: &[u8], out: &mut K) -> Result<(), WriteFault>
        ensures ok { OnOk result (Appended (K.taken out.old) (K.taken out.new) (self.old.bytes.items ++ written.now)) }
        ensures empty { OnOk result (self.new.bytes.items ≡ []) }
        ensures err { OnErr result (AppendedPrefix (K.taken out.old) (K.taken out.new) (self.old.bytes.items ++ written.now)) }
        ensures quiet { OnOk result (K.faults out.new ≡ K.faults out.old) }
        ensures cause { HasCause (K.faults out.old) (K.faults out.new) result }
    {
        self.put_out(out)?;
        out.write_all(written)
    }

    /// Puts out what still waits, and ends the run so, unless the write fails.
    pub(crate) fn close<K: Sink>(mut self, end: RunEnd, out: &mut K) -> RunEnd
        requires { end.end ≢ RunEnding.WriteFault }
        ensures closed { IsClosedWith self.bytes.items (K.taken out.old) (K.taken out.new) end result }
        ensures fault { result.end ≡ RunEnding.WriteFault → Increased (K.faults out.old) (K.faults out.new) }
        ensures quiet { result.end ≢ RunEnding.WriteFault → K.faults out.new ≡ K.faults out.old }
        ensures faults_stay { K.faults out.old ≤ K.faults out.new }
    {
        match self.put_out(out) {
            Ok(()) => end,
            Err(_) => failed(RunEnding::WriteFault),
        }
    }
}
