//! Runs of one text that are compared.
use au_io::MemorySink;
use run_model::RunEnd;
use scheduler::drive;
use stack_run::run_job;
use std::alloc::Global;
use std::test::Fail;
use text_load::{Job, load};
use toplevel::library;

/// The room for what a run writes.
const ROOM: usize = 300_000;

/// A sink with room.
pub(crate) fn sink(alloc: Global) -> Result<MemorySink, Fail> {
    Ok(MemorySink::new(alloc, ROOM)?)
}

/// The job of a text, behind the library.
pub(crate) fn job_of(alloc: Global, text: &str) -> Result<Job, Fail> {
    match load(alloc, library(), text) {
        Ok(job) => Ok(job),
        Err(_) => Err("a job")?,
    }
}

/// Whether a text loads behind the library.
pub(crate) fn is_loaded(alloc: Global, text: &str) -> bool {
    load(alloc, library(), text).is_ok()
}

/// How the run of a text ends on the sequential machine.
pub(crate) fn run_in_turn(
    alloc: Global,
    text: &str,
    budget: u64,
    out: &mut MemorySink,
) -> Result<RunEnd, Fail> {
    let job = job_of(alloc, text)?;
    Ok(run_job(alloc, job, budget, out))
}

/// Whether the run of a text on its tree writes and ends as the sequential one.
pub(crate) fn is_driven_alike(alloc: Global, text: &str, budget: u64) -> Result<bool, Fail> {
    let mut out = sink(alloc)?;
    let mut wanted = sink(alloc)?;
    let job = job_of(alloc, text)?;
    let end = drive(alloc, job, budget, 10_000, &mut out);
    let want = run_in_turn(alloc, text, budget, &mut wanted)?;
    Ok(end == want && out.taken() == wanted.taken())
}

/// The number of these digits.
pub(crate) fn number(digits: &str) -> u64 {
    let mut number: u64 = 0;
    for byte in digits.bytes() {
        let digit = u64::from(byte.wrapping_sub(b'0'));
        number = number.saturating_mul(10).saturating_add(digit);
    }
    number
}
