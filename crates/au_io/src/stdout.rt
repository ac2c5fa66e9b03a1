//! Writers of the machine.
ghost use Rattle.std.specs.Prelude.{◌≡◌, ℕ, Bool, true, OnOk, OnErr, take};
ghost use Rattle.std.specs.Io.KnownBytes.{Appends, Keeps};
ghost use Rattle.au_io.specs.FaultCounts.{Appended, AppendedPrefix, HasCause};

use crate::sink::{Sink, WriteFault};
use std::io::{self, ErrorKind, Write};
use std::rt::{Stderr, Stdout};

/// A writer that may tell whether what it took has left it.
pub trait Output: Write {
    /// Whether nothing that was taken waits, as far as the writer tells.
    ghost is_flushed: { Self → Bool };

    fn flush_all(&mut self) -> io::Result<()>
        ensures bytes { Keeps (Self.contents self.old) (Self.contents self.new) }
        ensures flushed { OnOk result (is_flushed self.new ≡ true) };
}

/// The machine tells nothing: its flush is believed.
impl Output for Stdout {
    ghost is_flushed = { λ _. true };

    fn flush_all(&mut self) -> io::Result<()> {
        self.flush()
    }
}

impl Output for Stderr {
    ghost is_flushed = { λ _. true };

    fn flush_all(&mut self) -> io::Result<()> {
        self.flush()
    }
}

impl<W: Output> Output for &mut W {
    ghost is_flushed = { λ w. W.is_flushed w.now };

    fn flush_all(&mut self) -> io::Result<()> {
        W::flush_all(&mut **self)
    }
}

/// An output as a sink, which tells the bytes that its writer tells. Its count stops at the greatest number.
#[derive(Drop)]
pub struct StdoutSink<W: Output + Drop> {
    out: W,
    faults: u64,
}

impl<W: Output + Drop> StdoutSink<W> {
    /// A sink over `rt.stdout()`, whose count is 0.
    pub fn new(out: W) -> StdoutSink<W>
        ensures out { result.out ≡ out }
        ensures faults { result.faults ≡ 0 }
    {
        StdoutSink { out, faults: 0 }
    }
}

impl<W: Output + Drop> Sink for StdoutSink<W> {
    ghost taken = { λ s. W.contents s.out };

    ghost faults = { λ s. s.faults };

    /// It succeeds only where nothing waits any more.
    fn write_all(&mut self, bytes: &[u8]) -> Result<(), WriteFault>
        ensures ok { OnOk result (Appended (W.contents self.old.out) (W.contents self.new.out) bytes.now) }
        ensures err { OnErr result (AppendedPrefix (W.contents self.old.out) (W.contents self.new.out) bytes.now) }
        ensures flushed { OnOk result (W.is_flushed self.new.out ≡ true) }
        ensures quiet { OnOk result (self.new.faults ≡ self.old.faults) }
        ensures cause { HasCause self.old.faults self.new.faults result }
    {
        let written = write_pieces(&mut self.out, bytes);
        if written.is_err() {
            self.faults = self.faults.saturating_add(1);
        }
        written
    }
}

/// Writes all the bytes, piece by piece, and flushes. A writer that takes nothing has failed.
fn write_pieces<W: Output>(out: &mut W, bytes: &[u8]) -> Result<(), WriteFault>
    ensures ok { OnOk result (Appends (W.contents out.old) (W.contents out.new) bytes.now) }
    ensures err { OnErr result ((n : ℕ) × Appends (W.contents out.old) (W.contents out.new) (take n bytes.now)) }
    ensures flushed { OnOk result (W.is_flushed out.new ≡ true) }
{
    let mut rest = bytes;
    for _ in 0..u64::MAX {
        if rest.is_empty() {
            return flush(out);
        }
        match out.write(rest) {
            Ok(0) => return Err(WriteFault),
            Ok(count) => rest = &rest[count..],
            Err(error) => {
                if error.kind() != ErrorKind::Interrupted {
                    return Err(WriteFault);
                }
            }
        }
    }
    Err(WriteFault)
}

/// Has the writer send what it took.
fn flush<W: Output>(out: &mut W) -> Result<(), WriteFault>
    ensures bytes { Keeps (W.contents out.old) (W.contents out.new) }
    ensures flushed { OnOk result (W.is_flushed out.new ≡ true) }
{
    match out.flush_all() {
        Ok(()) => Ok(()),
        Err(_) => Err(WriteFault),
    }
}
