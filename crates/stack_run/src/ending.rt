//! How a run ends.
ghost use Rattle.std.specs.Prelude.{◌≡◌, []};
ghost use Rattle.run_model.specs.Machine.Runs.{ending_by};

use run_model::{RunEnd, RunEnding};

/// The ending of a run of which nothing is left, by the status by which it was halted.
pub(crate) fn ending_by(halted: Option<u8>) -> RunEnding
    ensures { result ≡ ending_by [] halted }
{
    match halted {
        Some(status) => RunEnding::Halted(status),
        None => RunEnding::Finished,
    }
}

/// The end of a run with these numbers.
pub(crate) fn ended(end: RunEnding, answers: u64, inferences: u64) -> RunEnd
    ensures { result ≡ record { end = end; answers = answers; inferences = inferences } }
{
    RunEnd {
        end,
        answers,
        inferences,
    }
}

/// The end of a run that was cut short.
pub(crate) fn failed(end: RunEnding) -> RunEnd
    ensures { result ≡ record { end = end; answers = 0; inferences = 0 } }
{
    ended(end, 0, 0)
}
