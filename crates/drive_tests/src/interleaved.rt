//! Jobs that several workers run on one tree, whose tasks come back in any order.
ghost use Rattle.std.specs.Prelude.{◌≡◌, ◌≤◌};
ghost use Rattle.scheduler.specs.JobRuns.{IsJobRun};

use crate::alike::{job_of, number, run_in_turn, sink};
use crate::random::random_text;
use crate::workers::{Seen, Turns, take_turns};
use run_model::{RunEnd, RunEnding};
use sample_runs::control::CONTROL;
use sample_runs::numbers::Numbers;
use sample_runs::predicates::PREDICATES;
use sample_runs::programs::PROGRAMS;
use sample_runs::worlds::WORLD;
use scheduler::{JobRun, open};
use std::alloc::Global;
use std::marker::Brand;
use std::process::Abort;
use std::test::Fail;
use text_load::Job;
use tree_core::{JobBrand, Tree};

/// More rounds than any of the texts takes.
const ROUNDS: u32 = 1_000_000;

/// How a run by workers has ended, its numbers, and the bytes.
#[derive(Drop)]
struct RunByWorkers {
    end: RunEnding,
    answers: u64,
    inferences: u64,
    written: Vec<u8>,
}

/// Goes on until the tree has ended, and tells how.
fn run_to_end<J: JobBrand>(
    alloc: Global,
    tree: &mut Tree<J>,
    run: &mut JobRun,
    turns: Turns,
    seen: &mut Seen,
) -> Result<RunEnding, Fail>
    requires run { IsJobRun tree.old.history run.old }
    requires some { 1 ≤ turns.limit }
{
    for _ in 0..ROUNDS {
        if let Some(end) = tree.ended() {
            return Ok(end);
        }
        take_turns(alloc, tree, run, turns, seen)?;
    }
    Err("an end")?
}

/// Runs a job by workers on a tree with such a window.
fn run_by_workers<J: JobBrand>(
    alloc: Global,
    job: Job,
    budget: u64,
    window: u64,
    turns: Turns,
    seen: &mut Seen,
) -> Result<RunByWorkers, Fail>
    requires job { J.job ≡ job }
    requires some { 1 ≤ turns.limit }
{
    let (tree, run) = open::<J>(alloc, job, budget, window)?;
    let mut tree = tree;
    let mut run = run;
    let end = run_to_end(alloc, &mut tree, &mut run, turns, seen)?;
    let (answers, inferences) = tree.counts();
    let written = run.world.out;
    Ok(RunByWorkers {
        end,
        answers,
        inferences,
        written,
    })
}

/// Whether that is the sequential run. Where the budget stopped it, tasks may have gone on beyond.
fn is_sequential(ran: &RunByWorkers, want: &RunEnd, bytes: &[u8]) -> bool {
    let counted = ran.inferences == want.inferences || ran.end == RunEnding::Budget;
    ran.end == want.end && ran.answers == want.answers && counted && ran.written.as_slice() == bytes
}

/// Whether the run of a text by workers is the sequential one.
fn is_run_alike(
    alloc: Global,
    text: &str,
    budget: u64,
    window: u64,
    turns: Turns,
    seen: &mut Seen,
) -> Result<bool, Fail>
    requires { 1 ≤ turns.limit }
{
    let job = job_of(alloc, text)?;
    let ran = run_by_workers::<Brand>(alloc, job, budget, window, turns, seen)?;
    let mut wanted = sink(alloc)?;
    let want = run_in_turn(alloc, text, budget, &mut wanted)?;
    Ok(is_sequential(&ran, &want, wanted.taken()))
}

/// How many workers there are, how many inferences a task takes by itself, whether the last serves first, and the window.
static PLANS: [(u32, u64, bool, u64); 5] = [
    (1, 256, false, 1),
    (2, 1, true, 2),
    (3, 2, false, 10_000),
    (5, 1, true, 10_000),
    (5, 256, true, 10_000),
];

/// Runs a text by all plans.
fn expect_alike(
    rt: &impl Abort,
    alloc: Global,
    text: &str,
    budget: u64,
    seen: &mut Seen,
) -> Result<(), Fail> {
    for (workers, inferences, backwards, window) in PLANS {
        let limit = inferences.max(1);
        let turns = Turns {
            workers,
            limit,
            backwards,
        };
        assert!(rt;
            is_run_alike(alloc, text, budget, window, turns, seen)?,
            "{text} {workers} {limit}"
        );
    }
    Ok(())
}

/// Tasks are out together, wait for one another, and are pruned while they are out; and nobody can tell.
#[test]
fn control(rt: HostRuntime) -> Result<(), Fail> {
    let mut seen = Seen::nothing();
    for (text, budget, _, _) in CONTROL {
        expect_alike(&rt, rt.alloc(), text, number(budget), &mut seen)?;
    }
    assert!(rt; seen.shared > 0 && seen.resumed > 0 && seen.lost > 0);
    Ok(())
}

/// The rows that end soon.
#[test]
fn worlds(rt: HostRuntime) -> Result<(), Fail> {
    let mut seen = Seen::nothing();
    for (text, budget, _, _) in WORLD {
        if number(budget) < 1_000 {
            expect_alike(&rt, rt.alloc(), text, number(budget), &mut seen)?;
        }
    }
    assert!(rt; seen.shared > 0 && seen.resumed > 0);
    Ok(())
}

#[test]
fn predicates(rt: HostRuntime) -> Result<(), Fail> {
    let mut seen = Seen::nothing();
    for (text, _) in PREDICATES {
        expect_alike(&rt, rt.alloc(), text, 10_000, &mut seen)?;
    }
    Ok(())
}

/// A text whose alternatives cut, throw, gather and write while others are out.
static BUSY: [&str; 6] = [
    "p(1). p(2). p(3). q(X) :- p(X), X > 1, !. ?- q(X). ?- p(X), \\+ X = 2.",
    "p(1). p(2). p(3). ?- catch((p(X), X > 1, throw(b(X, Y))), b(Z, W), true). ?- p(X), throw(X). ?- p(X).",
    "p(1). p(2). p(3). ?- findall(X-Y-Z, (p(X), p(Y), X < Y), L). ?- findall(L, (p(X), findall(Y, (p(Y), Y < X), L)), Ls).",
    ":- dynamic(n/1). n(0). p(1). p(2). p(3). ?- p(X), retract(n(N)), M is N + X, assertz(n(M)), write(M), nl, fail. ?- n(N).",
    "p(1). p(2). p(3). ?- p(X), (p(Y), Y >= X -> true ; Y = none), write(X-Y), nl, once((p(Z), Z > Y)).",
    "p(1). p(2). t(X) :- catch(p(X), _, true), !, t2(X). t2(X) :- p(Y), write(Y), Y > X. ?- t(X). ?- findall(X, t(X), L), halt(3).",
];

#[test]
fn busy(rt: HostRuntime) -> Result<(), Fail> {
    let mut seen = Seen::nothing();
    for text in BUSY {
        expect_alike(&rt, rt.alloc(), text, 1_000, &mut seen)?;
    }
    assert!(rt; seen.shared > 0 && seen.resumed > 0 && seen.lost > 0);
    Ok(())
}

/// Texts made at random.
#[test]
fn random_texts(rt: HostRuntime) -> Result<(), Fail> {
    let mut seen = Seen::nothing();
    let mut numbers = Numbers::from(1987);
    for _ in 0..30 {
        let text = random_text(&mut numbers, rt.alloc())?;
        expect_alike(&rt, rt.alloc(), text.as_str(), 300, &mut seen)?;
    }
    assert!(rt; seen.shared > 0 && seen.resumed > 0 && seen.lost > 0);
    Ok(())
}

#[test]
fn programs(rt: HostRuntime) -> Result<(), Fail> {
    let mut seen = Seen::nothing();
    // All but the first worker stop after 256 inferences, since others wait.
    let turns = Turns {
        workers: 3,
        limit: 100_000,
        backwards: true,
    };
    for (text, lines) in PROGRAMS {
        assert!(rt;
            is_run_alike(rt.alloc(), text, 100_000, 100, turns, &mut seen)?,
            "{lines}"
        );
    }
    assert!(rt; seen.shared > 0);
    Ok(())
}
