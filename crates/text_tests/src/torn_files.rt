//! Readings of a file that is interrupted, and of one that fails in mid-stream.
ghost use Rattle.std.specs.Prelude.{None, false};

use au_io::{FileShelf, Opener, ReadRefusal, Shelf};
use std::io::{self, ErrorKind, Read};
use std::test::Fail;

/// It gives a byte, is interrupted, gives another one, and then ends or fails.
#[derive(Drop)]
struct Torn {
    reads: u8,
    ends: bool,
}

impl Read for Torn {
    fn read(&mut self, buf: &mut [u8]) -> io::Result<usize> {
        self.reads = self.reads.saturating_add(1);
        match (self.reads, buf.first_mut()) {
            (1, Some(first)) => {
                *first = b'a';
                Ok(1)
            }
            (2, _) => Err(io::Error::from(ErrorKind::Interrupted)),
            (3, Some(first)) => {
                *first = b'b';
                Ok(1)
            }
            _ if self.ends => Ok(0),
            _ => Err(io::Error::from(ErrorKind::Other)),
        }
    }
}

/// Each name is such a file.
#[derive(Drop)]
struct TornFiles {
    end: bool,
}

impl Opener for TornFiles {
    type File = Torn;

    ghost held = { λ _ _. None };

    ghost is_missing = { λ _ _. false };

    fn open(&self, _name: &str) -> io::Result<Torn> {
        Ok(Torn {
            reads: 0,
            ends: self.end,
        })
    }
}

#[test]
fn reads_on_after_an_interruption(rt: HostRuntime) -> Result<(), Fail> {
    let mut shelf = FileShelf::new(TornFiles { end: true });
    let read = shelf.read_all(rt.alloc(), "any", 9);
    assert!(rt; read.is_ok_and(|bytes| bytes.as_slice() == b"ab".as_slice()));
    Ok(())
}

#[test]
fn fails_in_mid_stream(rt: HostRuntime) -> Result<(), Fail> {
    let mut shelf = FileShelf::new(TornFiles { end: false });
    let read = shelf.read_all(rt.alloc(), "any", 9);
    assert!(rt; matches!(read, Err(ReadRefusal::ReadFault)));
    Ok(())
}
