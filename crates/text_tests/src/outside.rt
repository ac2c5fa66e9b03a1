//! Values that no clause gives: that calls succeed, and what files and writers do.
ghost use Rattle.std.specs.Prelude.{Some, None, cond, nat_eq, not};
ghost use Rattle.std.specs.Cmp.Lexicographic.{pointwise};

use crate::common::{expect, hold};
use au_io::{
    FileShelf, Gate, MemoryShelf, MemorySink, Moment, NoGate, Opener, Output, ReadRefusal, Shelf,
    Sink, StdoutSink, WriteFault,
};
use std::alloc::Global;
use std::io::{ErrorKind, Read, Write};
use std::process::Abort;
use std::test::Fail;
use std::{fs, io};

/// Reads names, with so many bytes at most, and compares what comes.
fn check<S: Shelf>(
    rt: &impl Abort,
    alloc: Global,
    shelf: &mut S,
    rows: &[(&str, usize, Result<&[u8], ReadRefusal>)],
) {
    for (name, most, wanted) in rows {
        hold(
            rt,
            is_wanted(shelf.read_all(alloc, name, *most), *wanted),
            name,
        );
    }
}

fn is_wanted(found: Result<Vec<u8>, ReadRefusal>, wanted: Result<&[u8], ReadRefusal>) -> bool {
    match (found, wanted) {
        (Ok(bytes), Ok(wanted)) => bytes.as_slice() == wanted,
        (Err(refusal), Err(wanted)) => refusal == wanted,
        _ => false,
    }
}

/// A name, and what it holds.
fn file(alloc: Global, name: &str, bytes: &[u8]) -> Result<(String, Vec<u8>), Fail> {
    Ok((
        String::from_str(alloc, name)?,
        Vec::from_slice(alloc, bytes)?,
    ))
}

fn two_files(alloc: Global) -> Result<Vec<(String, Vec<u8>)>, Fail> {
    let mut files = Vec::new(alloc);
    files.push(file(alloc, "a", b"abc")?)?;
    files.push(file(alloc, "b", b"abcd")?)?;
    Ok(files)
}

/// Two files, of which the first reading fails.
fn memory(alloc: Global) -> Result<MemoryShelf, Fail> {
    Ok(MemoryShelf {
        files: two_files(alloc)?,
        failing: Vec::from_slice(alloc, &[0])?,
        calls: 0,
        faults: 0,
        drawn: 0,
    })
}

#[test]
fn memory_shelf(rt: HostRuntime) -> Result<(), Fail> {
    let mut shelf = memory(rt.alloc())?;
    let rows = [
        ("a", 3, Err(ReadRefusal::ReadFault)),
        ("a", 3, Ok(b"abc".as_slice())),
        ("b", 3, Err(ReadRefusal::TooLong)),
        ("c", 3, Err(ReadRefusal::ReadFault)),
    ];
    check(&rt, rt.alloc(), &mut shelf, &rows);
    let counts = (shelf.calls, shelf.faults, shelf.drawn);
    expect(&rt, counts, (4, 2, 7), "counts");
    Ok(())
}

fn write<S: Sink>(sink: &mut S, bytes: &[u8]) -> Result<(), WriteFault> {
    sink.write_all(bytes)
}

#[test]
fn memory_sink(rt: HostRuntime) -> Result<(), Fail> {
    let mut sink = MemorySink::new(rt.alloc(), 2)?;
    expect(&rt, write(&mut sink, b"abc"), Err(WriteFault), "abc");
    hold(&rt, sink.taken() == b"ab".as_slice(), "ab");
    expect(&rt, write(&mut sink, b""), Ok(()), "nothing");
    Ok(())
}

#[test]
fn file_shelf(rt: HostRuntime) -> Result<(), Fail> {
    fs::write(&rt, "three", b"abc")?;
    let mut shelf = FileShelf::new(&rt);
    let rows = [
        ("three", 3, Ok(b"abc".as_slice())),
        ("three", 2, Err(ReadRefusal::TooLong)),
        ("none", 2, Err(ReadRefusal::ReadFault)),
    ];
    check(&rt, rt.alloc(), &mut shelf, &rows);
    fs::remove_file(&rt, "three")?;
    Ok(())
}

/// Bytes that are read to their end.
#[derive(Drop)]
struct Left {
    left: &'static [u8],
}

impl Read for Left {
    ghost remaining = { λ r. Some r.left.now };

    fn read(&mut self, buf: &mut [u8]) -> io::Result<usize> {
        self.left.read(buf)
    }
}

/// One name, and what it holds.
#[derive(Drop)]
struct Kept {
    name: &'static str,
    bytes: &'static [u8],
}

impl Opener for Kept {
    type File = Left;

    ghost held = { λ o name. cond (pointwise nat_eq o.name.now name) (Some o.bytes.now) None };

    ghost is_missing = { λ o name. not (pointwise nat_eq o.name.now name) };

    fn open(&self, name: &str) -> io::Result<Left> {
        if self.name == name {
            Ok(Left { left: self.bytes })
        } else {
            Err(io::Error::from(ErrorKind::NotFound))
        }
    }
}

#[test]
fn opened_names(rt: HostRuntime) {
    let kept = Kept {
        name: "a",
        bytes: b"abc",
    };
    let mut shelf = FileShelf::new(kept);
    let whole = shelf.read_all(rt.alloc(), "a", 3);
    hold(&rt, is_wanted(whole, Ok(b"abc".as_slice())), "whole");
    let long = shelf.read_all(rt.alloc(), "a", 2);
    hold(&rt, is_wanted(long, Err(ReadRefusal::TooLong)), "too long");
    let missing = shelf.read_all(rt.alloc(), "b", 3);
    hold(
        &rt,
        is_wanted(missing, Err(ReadRefusal::ReadFault)),
        "missing",
    );
}

/// It takes a byte at a time, and nothing once it is full. The first writes are interrupted, and where it leaks no
/// flush holds.
#[derive(Drop)]
struct Narrow {
    bytes: Vec<u8>,
    room: usize,
    interruptions: usize,
    leaks: bool,
    flushed: bool,
}

impl Write for Narrow {
    ghost contents = { λ w. Some w.bytes.items };

    fn write(&mut self, buf: &[u8]) -> io::Result<usize> {
        if self.interruptions > 0 {
            self.interruptions -= 1;
            return Err(io::Error::from(ErrorKind::Interrupted));
        }
        let room = self.room.saturating_sub(self.bytes.len());
        let count = buf.len().min(1).min(room);
        self.bytes.extend_from_slice(&buf[..count])?;
        self.flushed = false;
        Ok(count)
    }

    fn flush(&mut self) -> io::Result<()> {
        self.flush_all()
    }
}

impl Output for Narrow {
    ghost is_flushed = { λ w. w.flushed };

    fn flush_all(&mut self) -> io::Result<()> {
        if self.leaks {
            return Err(io::Error::from(ErrorKind::Other));
        }
        self.flushed = true;
        Ok(())
    }
}

/// What a narrow writer answers to three bytes, and how many of them it has then.
fn write_three(alloc: Global, room: usize, leaks: bool) -> (Result<(), WriteFault>, usize) {
    let mut narrow = Narrow {
        bytes: Vec::new(alloc),
        room,
        interruptions: 2,
        leaks,
        flushed: false,
    };
    let answer = write(&mut StdoutSink::new(&mut narrow), b"abc");
    (answer, narrow.bytes.len())
}

/// The room of a narrow writer, whether it leaks, its answer and how many bytes it has.
const NARROW: [(usize, bool, (Result<(), WriteFault>, usize)); 4] = [
    (3, false, (Ok(()), 3)),
    (2, false, (Err(WriteFault), 2)),
    (0, false, (Err(WriteFault), 0)),
    (3, true, (Err(WriteFault), 3)),
];

#[test]
fn standard_output(rt: HostRuntime) {
    let written = write(&mut StdoutSink::new(rt.stdout()), b"abc\n");
    expect(&rt, written, Ok(()), "output");
    for (room, leaks, wanted) in NARROW {
        expect(&rt, write_three(rt.alloc(), room, leaks), wanted, "narrow");
    }
    NoGate.at(&rt, 0, Moment::Idle);
}
