//! The job for which bytes stand.
ghost use Rattle.std.specs.Prelude.{◌≡◌, IfOk, IfErr};
ghost use Rattle.std.specs.Str.{IsValidUpTo};
ghost use Rattle.aurora_cli.specs.LoadFaults.{IsTextFault, refused_as};
ghost use Rattle.aurora_cli.specs.ProgramTexts.{StandsFor};

use au_model::FaultKind;
use run_model::Ending;
use std::alloc::Global;
use std::str;
use term_reader::line_and_column;
use text_load::{Job, LoadRefusal, load};
use toplevel::library;

/// The job for which bytes stand, or their refusal.
pub(crate) fn job_of(alloc: Global, bytes: &[u8]) -> Result<Job, Ending>
    ensures ok { IfOk result (λ job. StandsFor bytes.now job) }
    ensures err { IfErr result (IsTextFault bytes.now) }
{
    match str::from_utf8(bytes) {
        Ok(text) => match load(alloc, library(), text) {
            Ok(job) => Ok(job),
            Err(refusal) => Err(ending_of(refusal)),
        },
        Err(error) => Err(not_text(bytes, error.valid_up_to())),
    }
}

/// The ending for a refusal.
fn ending_of(refusal: LoadRefusal) -> Ending
    ensures { result ≡ refused_as refusal }
{
    match refusal {
        LoadRefusal::Refused { line, column, kind } => Ending::Refused { line, column, kind },
        LoadRefusal::NoMemory => Ending::NoMemory,
    }
}

/// The refusal of bytes that are no text after so many.
fn not_text(bytes: &[u8], valid: usize) -> Ending
    requires { IsValidUpTo bytes.now valid }
    ensures { IsTextFault bytes.now result }
{
    match str::from_utf8(&bytes[..valid]) {
        Ok(text) => {
            let (line, column) = line_and_column(text, text.len());
            Ending::Refused {
                line,
                column,
                kind: FaultKind::NotUtf8,
            }
        }
        Err(_) => unreachable!(),
    }
}
