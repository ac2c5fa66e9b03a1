//! Whole runs of small texts: how they end, their answers and inferences, and their bytes.
use au_io::MemorySink;
use run_model::{RunEnd, RunEnding};
use stack_run::run_job;
use std::alloc::Global;
use std::process::Abort;
use std::test::Fail;
use text_load::load;

/// A text, the budget, the room for bytes, the ending, the answers, the inferences, and the bytes.
type Row = (&'static str, u64, usize, RunEnding, u64, u64, &'static str);

static ROWS: [Row; 8] = [
    ("", 9, 9, RunEnding::Finished, 0, 0, ""),
    (
        "p(1). p(2). ?- p(X).",
        9,
        99,
        RunEnding::Finished,
        2,
        4,
        "X = 1\nX = 2\nno\n",
    ),
    (
        "p(1). p(2). ?- p(X).",
        3,
        99,
        RunEnding::Budget,
        2,
        3,
        "X = 1\nX = 2\n",
    ),
    (
        "p(1). p(2). q(X) :- p(X), !. ?- q(X).",
        9,
        99,
        RunEnding::Finished,
        1,
        5,
        "X = 1\nno\n",
    ),
    (
        "?- fail. ?- X = f(Y, Y).",
        9,
        99,
        RunEnding::Finished,
        1,
        5,
        "no\nX = f(_1,_1), Y = _1\nno\n",
    ),
    (
        ":- dynamic(q/1). q(X) :- r(X), !. q(3). r(1). r(2). ?- q(X).",
        9,
        99,
        RunEnding::Finished,
        1,
        5,
        "X = 1\nno\n",
    ),
    (
        ":- dynamic(p/1). p(1). p(2). ?- retract(p(X)), p(Y). ?- halt(7).",
        9,
        99,
        RunEnding::Halted(7),
        1,
        8,
        "X = 1, Y = 2\nno\n",
    ),
    ("?- X = 1.", 9, 3, RunEnding::WriteFault, 0, 0, "X ="),
];

/// How the run of a text ends, if the text loads.
fn end_of(alloc: Global, text: &str, budget: u64, out: &mut MemorySink) -> Option<RunEnd> {
    match load(alloc, "", text) {
        Ok(job) => Some(run_job(alloc, job, budget, out)),
        Err(_) => None,
    }
}

fn has_taken(out: &MemorySink, bytes: &[u8]) -> bool {
    out.taken() == bytes
}

/// Runs the text of a row, and compares how it ends and what it writes.
fn expect(rt: &impl Abort, alloc: Global, row: &Row, out: &mut MemorySink) {
    let (text, budget, _, end, answers, inferences, lines) = row;
    let want = RunEnd {
        end: *end,
        answers: *answers,
        inferences: *inferences,
    };
    let ended = end_of(alloc, text, *budget, out);
    assert!(rt; ended == Some(want), "{text}");
    assert!(rt; has_taken(out, lines.as_bytes()), "{text}");
}

#[test]
fn runs(rt: HostRuntime) -> Result<(), Fail> {
    for row in &ROWS {
        let mut out = MemorySink::new(rt.alloc(), row.2)?;
        expect(&rt, rt.alloc(), row, &mut out);
    }
    Ok(())
}

/// How long the atom is that is written three times, the room for bytes, the ending, and how many bytes are taken.
static PIECES: [(usize, usize, RunEnding, usize); 4] = [
    (5_000, 99_999, RunEnding::Finished, 15_006),
    (9_000, 99_999, RunEnding::Finished, 27_006),
    (5_000, 12_000, RunEnding::WriteFault, 12_000),
    (9_000, 12_000, RunEnding::WriteFault, 12_000),
];

/// A text that writes an atom of so many letters three times, and what it writes.
fn writer(alloc: Global, letters: usize) -> Result<(String, String), Fail> {
    let mut word = String::new(alloc);
    for _ in 0..letters {
        word.push('a')?;
    }
    let mut text = String::from_str(alloc, "p(1). p(2). p(3). ?- p(X), write(")?;
    text.push_str(word.as_str())?;
    text.push_str("), nl, fail.")?;
    let mut lines = String::new(alloc);
    for _ in 0..3 {
        lines.push_str(word.as_str())?;
        lines.push('\n')?;
    }
    lines.push_str("no\n")?;
    Ok((text, lines))
}

/// Whether so many bytes were taken, and are the front of these lines.
fn has_taken_front(out: &MemorySink, lines: &str, bytes: usize) -> bool {
    out.taken().len() == bytes && lines.as_bytes().starts_with(out.taken())
}

/// Runs the text of a row, and compares how it ends and what is taken.
fn expect_pieces(
    rt: &impl Abort,
    alloc: Global,
    row: &(usize, usize, RunEnding, usize),
    out: &mut MemorySink,
) -> Result<(), Fail> {
    let (letters, room, end, bytes) = row;
    let (text, lines) = writer(alloc, *letters)?;
    let is_ended = match end_of(alloc, text.as_str(), 99, out) {
        Some(ended) => ended.end == *end,
        None => false,
    };
    assert!(rt; is_ended, "{letters} letters, room {room}");
    assert!(rt;
        has_taken_front(out, lines.as_str(), *bytes),
        "{letters} letters, room {room}"
    );
    Ok(())
}

#[test]
fn pieces(rt: HostRuntime) -> Result<(), Fail> {
    for row in &PIECES {
        let mut out = MemorySink::new(rt.alloc(), row.1)?;
        expect_pieces(&rt, rt.alloc(), row, &mut out)?;
    }
    Ok(())
}
