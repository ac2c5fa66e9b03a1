//! Shelves and sinks in memory, which tell their bytes.
ghost use Rattle.std.specs.Prelude.{◌≡◌, ◌≢◌, ◌+◌, ◌-◌, ◌<◌, ◌≤◌, ◌↔◌, ◌++◌, [], ℕ, List, IfOk, IfSome, IsErrOf, IsTrue, IsOk, OnOk, OnErr, Some, Err, cond, false, length, option_map, take, vec_capacity, vec_len};
ghost use Rattle.au_io.specs.FaultCounts.{HasCause, Increased, IncreasedBy, Appended, AppendedPrefix, increased_count};
ghost use Rattle.au_io.specs.MemoryFiles.{file_of, is_fault};

use crate::shelf::{ReadRefusal, Shelf};
use crate::sink::{Sink, WriteFault};
use au_term::NoMemory;
use std::alloc::Global;

/// Files in memory. Each count stops at the greatest number.
#[derive(Drop)]
pub struct MemoryShelf {
    /// Names and bytes.
    pub files: Vec<(String, Vec<u8>)>,
    /// The numbers of the calls that fail, counted from 0.
    pub failing: Vec<u64>,
    pub calls: u64,
    pub faults: u64,
    pub drawn: u64,
}

impl Shelf for MemoryShelf {
    ghost held = { λ s name. file_of name s.files.items };

    ghost faults = { λ s. s.faults };

    ghost drawn = { λ s. s.drawn };

    /// It is a fault exactly where the call's number is a failing one or the name is not there.
    fn read_all(&mut self, alloc: Global, name: &str, most: usize) -> Result<Vec<u8>, ReadRefusal>
        ensures whole { IfOk result (λ bytes. IfSome (file_of name.now self.old.files.items) (λ told. bytes.items ≡ told)) }
        ensures within { IfOk result (λ bytes. vec_len bytes ≤ most) }
        ensures fault { IsErrOf result ReadRefusal.ReadFault ↔ IsTrue (is_fault self.old name.now) }
        ensures long { IsErrOf result ReadRefusal.TooLong → IfSome (file_of name.now self.old.files.items) (λ told. most < length told) }
        ensures told_long { is_fault self.old name.now ≡ false → IfSome (file_of name.now self.old.files.items) (λ told. most < length told → IsErrOf result ReadRefusal.TooLong) }
        ensures too_long { IsErrOf result ReadRefusal.TooLong → IncreasedBy (most + 1) self.old.drawn self.new.drawn }
        ensures faults { self.new.faults ≡ cond (is_fault self.old name.now) (increased_count 1 self.old.faults) self.old.faults }
        ensures quiet { result ≢ Err ReadRefusal.ReadFault → self.new.faults ≡ self.old.faults }
        ensures faults_stay { self.old.faults ≤ self.new.faults }
        ensures drawn { IfOk result (λ bytes. self.new.drawn ≡ increased_count (vec_len bytes) self.old.drawn) }
        ensures drawn_stay { self.old.drawn ≤ self.new.drawn }
        ensures least { self.new.drawn ≤ self.old.drawn + (most + 1) }
        ensures calls { self.new.calls ≡ increased_count 1 self.old.calls }
        ensures kept { (self.new.files ≡ self.old.files) × (self.new.failing ≡ self.old.failing) }
    {
        let call = self.calls;
        self.calls = call.saturating_add(1);
        let (Some(bytes), false) = (find(&self.files, name), self.failing.contains(&call)) else {
            self.faults = self.faults.saturating_add(1);
            return Err(ReadRefusal::ReadFault);
        };
        if bytes.len() > most {
            self.drawn = self.drawn.saturating_add(most as u64 + 1);
            return Err(ReadRefusal::TooLong);
        }
        let copy = Vec::from_slice(alloc, bytes)?;
        self.drawn = self.drawn.saturating_add(copy.len() as u64);
        Ok(copy)
    }
}

/// The bytes of the first file of this name.
fn find<'a>(files: &'a [(String, Vec<u8>)], name: &str) -> Option<&'a [u8]>
    ensures { option_map (λ bytes. bytes.now) result ≡ file_of name.now files.entry.now }
{
    for file in files {
        if file.0.as_str() == name {
            return Some(file.1.as_slice());
        }
    }
    None
}

/// A sink with so much room.
#[derive(Drop)]
pub struct MemorySink {
    bytes: Vec<u8>,
    room: usize,
    faults: u64,
    ghost within: { vec_len bytes ≤ room },
    ghost made: { room ≤ vec_capacity bytes },
}

impl MemorySink {
    /// A sink that takes this many bytes. Its room is made here.
    pub fn new(alloc: Global, room: usize) -> Result<MemorySink, NoMemory>
        ensures bytes { IfOk result (λ s. s.bytes.items ≡ []) }
        ensures room { IfOk result (λ s. s.room ≡ room) }
        ensures faults { IfOk result (λ s. s.faults ≡ 0) }
    {
        Ok(MemorySink {
            bytes: Vec::with_capacity(alloc, room)?,
            room,
            faults: 0,
        })
    }

    /// What was taken.
    pub fn taken(&self) -> &[u8]
        ensures { result.now ≡ self.now.bytes.items }
    {
        &self.bytes
    }
}

impl Sink for MemorySink {
    ghost taken = { λ s. Some s.bytes.items };

    ghost faults = { λ s. s.faults };

    /// The write that would pass the room takes what fits and is a fault. No other write is one.
    fn write_all(&mut self, bytes: &[u8]) -> Result<(), WriteFault>
        ensures ok { OnOk result (Appended (Some self.old.bytes.items) (Some self.new.bytes.items) bytes.now) }
        ensures err { OnErr result (AppendedPrefix (Some self.old.bytes.items) (Some self.new.bytes.items) bytes.now) }
        ensures cause { HasCause self.old.faults self.new.faults result }
        ensures room { self.new.room ≡ self.old.room }
        ensures fits { IsOk result ↔ (vec_len self.old.bytes + length bytes.now ≤ self.old.room) }
        ensures items { self.new.bytes.items ≡ self.old.bytes.items ++ take (self.old.room - vec_len self.old.bytes) bytes.now }
        ensures quiet { OnOk result (self.new.faults ≡ self.old.faults) }
    {
        let fits = bytes.len().min(self.room - self.bytes.len());
        let Ok(()) = self.bytes.extend_from_slice(&bytes[..fits]) else {
            unreachable!();
        };
        if fits < bytes.len() {
            self.faults = self.faults.saturating_add(1);
            return Err(WriteFault);
        }
        Ok(())
    }
}
