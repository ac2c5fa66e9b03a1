//! The program `aurora FILE BUDGET`.
#![tactic(auto)]

ghost use Rattle.std.specs.Prelude.{◌≡◌, ◌≢◌, IfOk, IfErr};
ghost use Rattle.std.specs.Vec.Iter.{into_iter_items};

#[cfg(test)]
mod faulty_texts;
pub mod finish;
mod job;
pub mod note;
#[cfg(test)]
mod programs;
#[cfg(test)]
mod round_trip;
#[cfg(test)]
mod tests;
pub mod top;
mod words;
#[cfg(test)]
mod worlds;

use crate::finish::finish;
use crate::top::aurora;
use au_io::{FileShelf, NoGate, StdoutSink};
use run_model::{Ending, UsageKind};
use std::alloc::Global;
use std::env::{self, Args};
use std::io::ErrorKind;
use std::process::ExitCode;
use std::rt::Env;

/// Prints the note of the program's ending on the standard error, and ends with its status.
fn main(rt: HostRuntime) -> ExitCode {
    let ending = match command_line(&rt) {
        Ok(words) => {
            let mut shelf = FileShelf::new(&rt);
            let mut out = StdoutSink::new(rt.stdout());
            aurora(&rt, rt.alloc(), &words, &mut shelf, &mut out, &NoGate)
        }
        Err(ending) => ending,
    };
    ExitCode::from(finish(&mut StdoutSink::new(rt.stderr()), &ending))
}

/// The words of the command line, the program's name first.
fn command_line<R: Env + AllocGlobal>(rt: &R) -> Result<Vec<String>, Ending> {
    match env::args(rt) {
        Ok(args) => words_of(rt.alloc(), args),
        Err(error) => Err(unread(error.kind())),
    }
}

/// The words, every one of them.
fn words_of(alloc: Global, args: Args) -> Result<Vec<String>, Ending>
    ensures ok { IfOk result (λ words. words.items ≡ into_iter_items args) }
    ensures err { IfErr result (λ ending. ending ≡ Ending.NoMemory) }
{
    match Vec::from_iter(alloc, args) {
        Ok(words) => Ok(words),
        Err(_) => Err(Ending::NoMemory),
    }
}

/// Why the words were not read: some are no text, or running out of memory.
fn unread(kind: ErrorKind) -> Ending
    ensures memory { kind ≡ ErrorKind.OutOfMemory → result ≡ Ending.NoMemory }
    ensures words { kind ≢ ErrorKind.OutOfMemory → result ≡ Ending.Usage UsageKind.Words }
{
    match kind {
        ErrorKind::OutOfMemory => Ending::NoMemory,
        _ => Ending::Usage(UsageKind::Words),
    }
}
