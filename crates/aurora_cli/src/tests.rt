//! Texts run from words to bytes, by rows.
use crate::faulty_texts::{Bad, FAULTS};
use crate::note::note_line;
use crate::top::aurora;
use au_io::{MemoryShelf, MemorySink, NoGate};
use au_model::FaultKind;
use run_model::{Ending, UsageKind};
use sample_runs::control::CONTROL;
use sample_runs::predicates::{ERRORS, PREDICATES};
use sample_runs::rows::FINISHED;
use std::alloc::Global;
use std::sync::Wait;
use std::test::Fail;
use std::thread::Threads;

/// A shelf with the one file `f.pl`, of these bytes.
fn shelf_of(alloc: Global, text: &[u8]) -> Result<MemoryShelf, Fail> {
    let mut files = Vec::new(alloc);
    files.push((
        String::from_str(alloc, "f.pl")?,
        Vec::from_slice(alloc, text)?,
    ))?;
    Ok(MemoryShelf {
        files,
        failing: Vec::new(alloc),
        calls: 0,
        faults: 0,
        drawn: 0,
    })
}

/// `aurora f.pl BUDGET`, and more words if any.
fn words_of(alloc: Global, more: &[&str]) -> Result<Vec<String>, Fail> {
    let mut words = Vec::new(alloc);
    words.push(String::from_str(alloc, "aurora")?)?;
    for word in more {
        words.push(String::from_str(alloc, word)?)?;
    }
    Ok(words)
}

/// Whether a text, run for so many inferences into so much room, ends so and writes these bytes.
pub(crate) fn ends<R: Threads + Wait + Sync>(
    rt: &R,
    alloc: Global,
    text: &str,
    budget: &str,
    room: usize,
    ending: Ending,
    lines: &str,
) -> Result<bool, Fail> {
    let mut shelf = shelf_of(alloc, text.as_bytes())?;
    let mut out = MemorySink::new(alloc, room)?;
    let words = words_of(alloc, &["f.pl", budget])?;
    let ended = aurora(rt, alloc, &words, &mut shelf, &mut out, &NoGate);
    Ok(ended == ending && out.taken() == lines.as_bytes())
}

/// How the run of these bytes ends, and how many of them the shelf gave.
pub(crate) fn run_bytes<R: Threads + Wait + Sync>(
    rt: &R,
    alloc: Global,
    bytes: &[u8],
) -> Result<(Ending, u64), Fail> {
    let mut shelf = shelf_of(alloc, bytes)?;
    let mut out = MemorySink::new(alloc, 0)?;
    let words = words_of(alloc, &["f.pl", "9"])?;
    let ending = aurora(rt, alloc, &words, &mut shelf, &mut out, &NoGate);
    Ok((ending, shelf.drawn))
}

#[test]
fn predicates(rt: HostRuntime) -> Result<(), Fail> {
    for (text, lines) in PREDICATES {
        assert!(rt;
            ends(&rt, rt.alloc(), text, "1000000", 999, FINISHED, lines)?,
            "{text}"
        );
    }
    Ok(())
}

/// Whether a query of this goal alone ends with this error.
pub(crate) fn is_in_error<R: Threads + Wait + Sync>(
    rt: &R,
    alloc: Global,
    goal: &str,
    error: &str,
) -> Result<bool, Fail> {
    let text = format!(in alloc; "?- {goal}.")?;
    let line = format!(in alloc; "error: error({error})\n")?;
    ends(rt, alloc, text.as_str(), "9", 99, FINISHED, line.as_str())
}

#[test]
fn errors(rt: HostRuntime) -> Result<(), Fail> {
    for (goal, error) in ERRORS {
        assert!(rt; is_in_error(&rt, rt.alloc(), goal, error)?, "{goal}");
    }
    Ok(())
}

#[test]
fn control(rt: HostRuntime) -> Result<(), Fail> {
    for (text, budget, ending, lines) in CONTROL {
        assert!(rt;
            ends(&rt, rt.alloc(), text, budget, 999, ending, lines)?,
            "{text} {budget}"
        );
    }
    Ok(())
}

/// Whether a text is refused so, with nothing written, and with this note.
fn is_refused<R: Threads + Wait + Sync>(rt: &R, alloc: Global, bad: &Bad) -> Result<bool, Fail> {
    let (text, line, column, kind, words) = *bad;
    let ending = Ending::Refused { line, column, kind };
    let note = format!(in alloc; "aurora: line {line}, column {column}: {words}\n")?;
    Ok(ends(rt, alloc, text, "9", 99, ending, "")? && is_note(&ending, note.as_str()))
}

/// Whether this is the note for an ending.
fn is_note(ending: &Ending, note: &str) -> bool {
    let mut line = [0; 160];
    let length = note_line(ending, &mut line);
    &line[..length] == note.as_bytes()
}

#[test]
fn faults_of_texts(rt: HostRuntime) -> Result<(), Fail> {
    for bad in &FAULTS {
        assert!(rt; is_refused(&rt, rt.alloc(), bad)?, "{}", bad.0);
    }
    Ok(())
}

const TWO: &str = "p(1). p(2). ?- p(X).";

#[test]
fn words(rt: HostRuntime) -> Result<(), Fail> {
    let alloc = rt.alloc();
    for budget in ["0", "", "+1", "-1", "1a", "4294967296", "00000000001", " 1"] {
        assert!(rt;
            ends(
                &rt,
                alloc,
                TWO,
                budget,
                99,
                Ending::Usage(UsageKind::Words),
                ""
            )?,
            "{budget}"
        );
    }
    assert!(rt;
        ends(
            &rt,
            alloc,
            TWO,
            "4294967295",
            99,
            Ending::Finished,
            "X = 1\nX = 2\nno\n"
        )?
    );
    assert!(rt;
        ends(
            &rt,
            alloc,
            TWO,
            "0000000004",
            99,
            Ending::Finished,
            "X = 1\nX = 2\nno\n"
        )?
    );
    for more in [[].as_slice(), &["f.pl"], &["f.pl", "9", "9"]] {
        let words = words_of(alloc, more)?;
        let mut shelf = shelf_of(alloc, TWO.as_bytes())?;
        let mut out = MemorySink::new(alloc, 99)?;
        let ending = aurora(&rt, alloc, &words, &mut shelf, &mut out, &NoGate);
        assert_eq!(rt; ending, Ending::Usage(UsageKind::Words));
        assert!(rt; out.taken().is_empty());
        assert_eq!(rt; (shelf.calls, shelf.faults), (0, 0));
    }
    Ok(())
}

#[test]
fn faults(rt: HostRuntime) -> Result<(), Fail> {
    let alloc = rt.alloc();
    assert!(rt; ends(&rt, alloc, TWO, "9", 3, Ending::WriteFault, "X =")?);
    let mut shelf = shelf_of(alloc, TWO.as_bytes())?;
    shelf.failing.push(0)?;
    let mut out = MemorySink::new(alloc, 99)?;
    let words = words_of(alloc, &["f.pl", "9"])?;
    assert_eq!(rt;
        aurora(&rt, alloc, &words, &mut shelf, &mut out, &NoGate),
        Ending::ReadFault
    );
    assert!(rt; out.taken().is_empty());
    Ok(())
}

#[test]
fn bytes_that_are_no_text(rt: HostRuntime) -> Result<(), Fail> {
    let alloc = rt.alloc();
    let mut shelf = shelf_of(alloc, &[b'p', b'(', 255])?;
    let mut out = MemorySink::new(alloc, 99)?;
    let words = words_of(alloc, &["f.pl", "9"])?;
    let ending = aurora(&rt, alloc, &words, &mut shelf, &mut out, &NoGate);
    let expected = Ending::Refused {
        line: 1,
        column: 3,
        kind: FaultKind::NotUtf8,
    };
    assert_eq!(rt; ending, expected);
    assert!(rt; out.taken().is_empty());
    assert!(rt; is_note(&ending, "aurora: line 1, column 3: not UTF-8\n"));
    Ok(())
}

/// A query that calls a compound of so many arguments with one more.
fn wide_call(alloc: Global, arguments: usize) -> Result<String, Fail> {
    let mut text = String::from_str(alloc, "?- call(f(a")?;
    for _ in 1..arguments {
        text.push_str(",a")?;
    }
    text.push_str("), a).")?;
    Ok(text)
}

#[test]
fn widest_compounds(rt: HostRuntime) -> Result<(), Fail> {
    let alloc = rt.alloc();
    for (arguments, line) in [
        (
            65_534,
            "error: error(existence_error(procedure,f/65535),f/65535)\n",
        ),
        (
            65_535,
            "error: error(representation_error(max_arity),call/2)\n",
        ),
    ] {
        let text = wide_call(alloc, arguments)?;
        assert!(rt;
            ends(&rt, alloc, text.as_str(), "9", 99, FINISHED, line)?,
            "{line}"
        );
    }
    Ok(())
}
