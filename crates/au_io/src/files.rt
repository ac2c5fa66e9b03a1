//! Files of the machine.
ghost use Rattle.std.specs.Prelude.{◌≡◌, ◌+◌, ◌<◌, ◌≤◌, ◌≢◌, ◌++◌, ℕ, Bool, true, false, List, Option, IsErr, IfOk, IfErr, IfSome, OnOk, IsErrOf, length, drop, vec_len, Some, None, Ok, Err};
ghost use Rattle.std.specs.Io.KnownBytes.{Consumes, IsAtEnd};
ghost use Rattle.au_io.specs.FaultCounts.{Increased, IncreasedBy};

use crate::shelf::{ReadRefusal, Shelf};
use std::alloc::Global;
use std::fs::File;
use std::io::{self, ErrorKind, Read};
use std::rt::Files;

/// How many bytes one read asks for at most.
const PIECE: usize = 65_536;

/// What opens a name for reading. It may tell what a name holds, and that a name is not there.
pub trait Opener {
    type File: Read + Drop;

    /// The bytes of a name, where the opener tells them.
    ghost held: { Self → List ℕ → Option (List ℕ) };

    /// Whether the opener tells that it finds nothing under a name.
    ghost is_missing: { Self → List ℕ → Bool };

    fn open(&self, name: &str) -> io::Result<Self::File>
        ensures held { IfOk result (λ file. IfSome (held self.now name.now) (λ told. Self.File.remaining file ≡ Some told)) }
        ensures missing { is_missing self.now name.now ≡ true → IsErr result };
}

/// The machine's files, of which nothing is told.
impl<R: Files> Opener for &R {
    type File = R::File;

    ghost held = { λ _ _. None };

    ghost is_missing = { λ _ _. false };

    fn open(&self, name: &str) -> io::Result<R::File> {
        File::open(*self, name)
    }
}

/// What an opener finds under a name. Its counts stop at the greatest number.
#[derive(Drop)]
pub struct FileShelf<O: Opener + Drop> {
    opener: O,
    tally: Tally,
}

/// The readings that failed, and the bytes that were taken.
#[derive(Drop)]
struct Tally {
    faults: u64,
    drawn: u64,
}

impl<O: Opener + Drop> FileShelf<O> {
    /// A shelf whose counts are 0.
    pub fn new(opener: O) -> FileShelf<O>
        ensures opener { result.opener ≡ opener }
        ensures counts { (result.tally.faults ≡ 0) × (result.tally.drawn ≡ 0) }
    {
        FileShelf {
            opener,
            tally: Tally {
                faults: 0,
                drawn: 0,
            },
        }
    }
}

impl<O: Opener + Drop> Shelf for FileShelf<O> {
    ghost held = { λ s name. O.held s.opener name };

    ghost faults = { λ s. s.tally.faults };

    ghost drawn = { λ s. s.tally.drawn };

    /// A name that is not there is a read fault.
    fn read_all(&mut self, alloc: Global, name: &str, most: usize) -> Result<Vec<u8>, ReadRefusal>
        ensures whole { IfOk result (λ bytes. IfSome (O.held self.old.opener name.now) (λ told. bytes.items ≡ told)) }
        ensures within { IfOk result (λ bytes. vec_len bytes ≤ most) }
        ensures missing { O.is_missing self.old.opener name.now ≡ true → result ≡ Err ReadRefusal.ReadFault }
        ensures fault { IsErrOf result ReadRefusal.ReadFault → Increased self.old.tally.faults self.new.tally.faults }
        ensures long { IsErrOf result ReadRefusal.TooLong → IfSome (O.held self.old.opener name.now) (λ told. most < length told) }
        ensures too_long { IsErrOf result ReadRefusal.TooLong → IncreasedBy (most + 1) self.old.tally.drawn self.new.tally.drawn }
        ensures quiet { result ≢ Err ReadRefusal.ReadFault → self.new.tally.faults ≡ self.old.tally.faults }
        ensures faults_stay { self.old.tally.faults ≤ self.new.tally.faults }
        ensures drawn_stay { self.old.tally.drawn ≤ self.new.tally.drawn }
        ensures least { self.new.tally.drawn ≤ self.old.tally.drawn + (most + 1) }
        ensures kept { self.new.opener ≡ self.old.opener }
    {
        match self.opener.open(name) {
            Ok(mut file) => self.tally.read_file(alloc, &mut file, most),
            Err(_) => Err(self.tally.fault()),
        }
    }
}

impl Tally {
    /// Counts a reading that failed.
    fn fault(&mut self) -> ReadRefusal
        ensures refusal { result ≡ ReadRefusal.ReadFault }
        ensures faults { Increased self.old.faults self.new.faults }
        ensures faults_stay { self.old.faults ≤ self.new.faults }
        ensures drawn { self.new.drawn ≡ self.old.drawn }
    {
        self.faults = self.faults.saturating_add(1);
        ReadRefusal::ReadFault
    }

    /// All bytes of the file, of which there are to be `most` at most.
    fn read_file<F: Read>(
        &mut self,
        alloc: Global,
        file: &mut F,
        most: usize,
    ) -> Result<Vec<u8>, ReadRefusal>
        ensures whole { IfOk result (λ bytes. IfSome (F.remaining file.old) (λ told. bytes.items ≡ told)) }
        ensures within { IfOk result (λ bytes. vec_len bytes ≤ most) }
        ensures fault { IsErrOf result ReadRefusal.ReadFault → Increased self.old.faults self.new.faults }
        ensures long { IsErrOf result ReadRefusal.TooLong → IfSome (F.remaining file.old) (λ told. most < length told) }
        ensures too_long { IsErrOf result ReadRefusal.TooLong → IncreasedBy (most + 1) self.old.drawn self.new.drawn }
        ensures quiet { result ≢ Err ReadRefusal.ReadFault → self.new.faults ≡ self.old.faults }
        ensures faults_stay { self.old.faults ≤ self.new.faults }
        ensures drawn_stay { self.old.drawn ≤ self.new.drawn }
        ensures least { self.new.drawn ≤ self.old.drawn + (most + 1) }
    {
        let mut bytes = Vec::new(alloc);
        let filled = fill(&mut bytes, file, most);
        self.drawn = self.drawn.saturating_add(bytes.len() as u64);
        match filled {
            Ok(()) => Ok(bytes),
            Err(ReadRefusal::ReadFault) => Err(self.fault()),
            Err(refusal) => Err(refusal),
        }
    }
}

/// Appends the bytes of the file up to its end, unless they are more than `most`.
fn fill<F: Read>(bytes: &mut Vec<u8>, file: &mut F, most: usize) -> Result<(), ReadRefusal>
    requires { vec_len bytes.old ≡ 0 }
    ensures ok { OnOk result (vec_len bytes.new ≤ most) }
    ensures whole { OnOk result (IfSome (F.remaining file.old) (λ told. bytes.new.items ≡ told)) }
    ensures long { IsErrOf result ReadRefusal.TooLong → vec_len bytes.new ≡ most + 1 }
    ensures taken { Consumes (F.remaining file.old) (F.remaining file.new) bytes.new.items }
    ensures least { vec_len bytes.new ≤ most + 1 }
{
    for _ in 0..u64::MAX {
        let length = bytes.len();
        if length > most {
            return Err(ReadRefusal::TooLong);
        }
        let room = (most - length).saturating_add(1).min(PIECE);
        if read_piece(bytes, file, room)? == Some(0) {
            return Ok(());
        }
    }
    Err(ReadRefusal::ReadFault)
}

/// Appends what one read gives, at most `room` bytes: how many, or `None` where the read is to
/// be tried again.
fn read_piece<F: Read>(
    bytes: &mut Vec<u8>,
    file: &mut F,
    room: usize,
) -> Result<Option<usize>, ReadRefusal>
    requires some { 0 < room }
    requires few { room ≤ PIECE }
    ensures kind { IfErr result (λ refusal. refusal ≢ ReadRefusal.TooLong) }
    ensures front { bytes.new.items ≡ bytes.old.items ++ drop (vec_len bytes.old) bytes.new.items }
    ensures taken { Consumes (F.remaining file.old) (F.remaining file.new) (drop (vec_len bytes.old) bytes.new.items) }
    ensures within { vec_len bytes.new ≤ vec_len bytes.old + room }
    ensures end { IfOk result (λ read. read ≡ Some 0 → (bytes.new.items ≡ bytes.old.items) × IsAtEnd (F.remaining file.new)) }
{
    let length = bytes.len();
    bytes.resize(length + room, 0)?;
    match file.read(&mut bytes[length..]) {
        Ok(count) => {
            bytes.truncate(length + count);
            Ok(Some(count))
        }
        Err(error) => {
            bytes.truncate(length);
            if error.kind() == ErrorKind::Interrupted {
                Ok(None)
            } else {
                Err(ReadRefusal::ReadFault)
            }
        }
    }
}
