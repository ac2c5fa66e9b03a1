//! Where texts are read from.
ghost use Rattle.std.specs.Prelude.{◌≡◌, ◌≢◌, ◌+◌, ◌<◌, ◌≤◌, ℕ, List, Option, IfOk, IfSome, IsErrOf, Err, length, vec_len};
ghost use Rattle.au_io.specs.FaultCounts.{Increased, IncreasedBy};

use au_term::NoMemory;
use std::alloc::{AllocError, Global};

/// Why a name's bytes were not read.
#[derive(Clone, Copy, Debug, PartialEq, Eq)]
pub enum ReadRefusal {
    /// The reading failed, or the name is not there.
    ReadFault,
    /// There are more bytes than were asked for at most.
    TooLong,
    NoMemory,
}

impl From<AllocError> for ReadRefusal {
    ghost use Rattle.au_io.specs.declared.shelf.ReadRefusal.TheVariants.{NoMemory as WithoutMemory};

    ghost from_gives = { λ _ e. e ≡ WithoutMemory };

    fn from(_error: AllocError) -> ReadRefusal {
        ReadRefusal::NoMemory
    }
}

/// What gives the bytes of a name.
pub trait Shelf {
    /// The bytes of a name, where the shelf tells them.
    ghost held: { Self → List ℕ → Option (List ℕ) };

    /// How many readings have failed.
    ghost faults: { Self → ℕ };

    /// How many bytes were taken from the names.
    ghost drawn: { Self → ℕ };

    /// All bytes of the name, of which there are to be `most` at most. It takes one more at most.
    fn read_all(&mut self, alloc: Global, name: &str, most: usize) -> Result<Vec<u8>, ReadRefusal>
        ensures whole { IfOk result (λ bytes. IfSome (held self.old name.now) (λ told. bytes.items ≡ told)) }
        ensures within { IfOk result (λ bytes. vec_len bytes ≤ most) }
        ensures fault { IsErrOf result ReadRefusal.ReadFault → Increased (faults self.old) (faults self.new) }
        ensures long { IsErrOf result ReadRefusal.TooLong → IfSome (held self.old name.now) (λ told. most < length told) }
        ensures too_long { IsErrOf result ReadRefusal.TooLong → IncreasedBy (most + 1) (drawn self.old) (drawn self.new) }
        ensures faults_stay { faults self.old ≤ faults self.new }
        ensures drawn_stay { drawn self.old ≤ drawn self.new }
        ensures least { drawn self.new ≤ drawn self.old + (most + 1) }
        ensures quiet { result ≢ Err ReadRefusal.ReadFault → faults self.new ≡ faults self.old }
        ensures kept { (other : List ℕ) → held self.new other ≡ held self.old other };
}
