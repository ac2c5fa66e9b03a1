//! Jobs that one worker drives.
use crate::alike::{is_driven_alike, is_loaded, job_of, number, sink};
use crate::random::random_text;
use au_io::MemorySink;
use run_model::{RunEnd, RunEnding};
use sample_runs::control::CONTROL;
use sample_runs::numbers::Numbers;
use sample_runs::predicates::{ERRORS, PREDICATES};
use sample_runs::programs::PROGRAMS;
use sample_runs::terms::TERMS;
use sample_runs::worlds::{WORLD, WORLD_ERRORS};
use scheduler::drive;
use std::alloc::Global;
use std::test::Fail;

#[test]
fn control(rt: HostRuntime) -> Result<(), Fail> {
    for (text, budget, _, _) in CONTROL {
        assert!(rt;
            is_driven_alike(rt.alloc(), text, number(budget))?,
            "{text} {budget}"
        );
    }
    Ok(())
}

#[test]
fn worlds(rt: HostRuntime) -> Result<(), Fail> {
    for (text, budget, _, _) in WORLD {
        assert!(rt;
            is_driven_alike(rt.alloc(), text, number(budget))?,
            "{text} {budget}"
        );
    }
    Ok(())
}

#[test]
fn predicates(rt: HostRuntime) -> Result<(), Fail> {
    for (text, _) in PREDICATES {
        assert!(rt; is_driven_alike(rt.alloc(), text, 1_000_000)?, "{text}");
    }
    Ok(())
}

/// Whether a query of this goal alone is driven as it runs.
fn is_goal_driven_alike(alloc: Global, goal: &str) -> Result<bool, Fail> {
    let text = format!(in alloc; "?- {goal}. ?- catch(({goal}), E, true).")?;
    is_driven_alike(alloc, text.as_str(), 99)
}

#[test]
fn errors(rt: HostRuntime) -> Result<(), Fail> {
    for (goal, _) in ERRORS {
        assert!(rt; is_goal_driven_alike(rt.alloc(), goal)?, "{goal}");
    }
    for (goal, _) in WORLD_ERRORS {
        assert!(rt; is_goal_driven_alike(rt.alloc(), goal)?, "{goal}");
    }
    Ok(())
}

#[test]
fn programs(rt: HostRuntime) -> Result<(), Fail> {
    for (text, lines) in PROGRAMS {
        assert!(rt; is_driven_alike(rt.alloc(), text, 100_000)?, "{lines}");
    }
    Ok(())
}

/// Terms of all kinds of operators, written and read as terms of a query; and texts made at random.
#[test]
fn terms_and_random_texts(rt: HostRuntime) -> Result<(), Fail> {
    for term in TERMS {
        let goals = format!(in rt.alloc(); "X = ({term}), writeq(X), nl, write_canonical(X)")?;
        let text = format!(in rt.alloc(); "?- {goals}.")?;
        // Some have operators that a text does not begin with.
        if is_loaded(rt.alloc(), text.as_str()) {
            assert!(rt; is_driven_alike(rt.alloc(), text.as_str(), 99)?, "{term}");
        }
    }
    let mut numbers = Numbers::from(1990);
    for _ in 0..100 {
        let text = random_text(&mut numbers, rt.alloc())?;
        assert!(rt;
            is_driven_alike(rt.alloc(), text.as_str(), 1_000)?,
            "{text}"
        );
    }
    Ok(())
}

/// Answers after catches whose goals have ended.
static AFTER_CATCHES: [&str; 5] = [
    "?- catch(true, _, true).",
    "?- catch(catch(true, _, true), _, true), catch(true, _, true). ?- X = 1.",
    "p(1). p(2). ?- catch(p(X), _, true). ?- catch((p(X), X > 1), _, true).",
    "?- catch(true, _, true), write(a), catch(true, _, true).",
    "?- findall(X, catch(X = 1, _, true), L), catch(L = [Y], _, true).",
];

/// With every budget up to where the run finishes, and past that.
#[test]
fn answers_after_catches(rt: HostRuntime) -> Result<(), Fail> {
    for text in AFTER_CATCHES {
        for budget in 1..24 {
            assert!(rt;
                is_driven_alike(rt.alloc(), text, budget)?,
                "{text} {budget}"
            );
        }
    }
    Ok(())
}

/// Loops that write a line at each step: a recursion, one behind a cut, one over a list, and facts that are tried one after another.
static LINES: [&str; 4] = [
    "l(0). l(N) :- N > 0, write(N), nl, M is N - 1, l(M). ?- l(2000).",
    "l(0) :- !. l(N) :- write(N), nl, M is N - 1, l(M). ?- l(2000), write(end).",
    "w([]). w([X|L]) :- write(X), nl, w(L). l(0, []). l(N, [N|L]) :- N > 0, M is N - 1, l(M, L). ?- l(500, L), w(L), L = [X|_].",
    "p(1, a). p(2, b). p(3, c). p(4, d). ?- p(X, Y), write(X), nl, write(Y), nl, fail. ?- p(X, _), write(X), nl, X > 2.",
];

/// A worker's region goes down with the loop.
#[test]
fn lines_in_loops(rt: HostRuntime) -> Result<(), Fail> {
    for text in &LINES {
        assert!(rt; is_driven_alike(rt.alloc(), text, 20_000)?, "{text}");
    }
    Ok(())
}

/// The same, where the budget stops them on the way.
#[test]
fn lines_under_budgets(rt: HostRuntime) -> Result<(), Fail> {
    for text in &LINES {
        for budget in 1..60 {
            assert!(rt;
                is_driven_alike(rt.alloc(), text, budget)?,
                "{text} {budget}"
            );
        }
    }
    Ok(())
}

/// How the run of a text ends, and how many bytes its sink takes, which has room for so many.
fn end_in_room(alloc: Global, text: &str, out: &mut MemorySink) -> Result<(RunEnd, usize), Fail> {
    let job = job_of(alloc, text)?;
    let end = drive(alloc, job, 99, 10_000, out);
    Ok((end, out.taken().len()))
}

/// A failed write ends the run, with no numbers.
#[test]
fn short_of_room(rt: HostRuntime) -> Result<(), Fail> {
    let mut out = MemorySink::new(rt.alloc(), 3)?;
    let ended = end_in_room(rt.alloc(), "?- X = 1.", &mut out)?;
    let want = RunEnd {
        end: RunEnding::WriteFault,
        answers: 0,
        inferences: 0,
    };
    assert_eq!(rt; ended, (want, 3));
    Ok(())
}

/// Output is put out in pieces, and none is lost or put out twice.
#[test]
fn pieces(rt: HostRuntime) -> Result<(), Fail> {
    let text = "?- between(1, 300, X), write(' a long enough line, written many times '), fail.";
    assert!(rt; is_driven_alike(rt.alloc(), text, 10_000)?, "{text}");
    let mut out = sink(rt.alloc())?;
    assert_eq!(rt; end_in_room(rt.alloc(), "?- true.", &mut out)?.1, 8);
    Ok(())
}
