//! What single calls give on the trees of small jobs: what is handed out, what waits, and what is pruned while it is out.
ghost use Rattle.std.specs.Prelude.{◌≡◌, OnOk};
ghost use Rattle.scheduler.specs.JobRuns.{IsJobRun};

use crate::alike::job_of;
use crate::workers::{Seen, Turns, claimed, resumed, serve_one, take_turns};
use run_model::RunEnding;
use scheduler::{JobRun, open};
use std::alloc::Global;
use std::marker::Brand;
use std::process::Abort;
use std::test::Fail;
use text_load::Job;
use tree_core::{JobBrand, Tree};
use tree_model::AltRef;

/// A place by its node and its alternative.
type Named = (u64, u32);

/// What a worker does, and what it is to find.
#[derive(Clone, Copy, Debug)]
enum Step {
    /// It asks for something that is ready.
    Claims(u32, Option<Named>),
    /// It asks for something that has waited.
    Resumes(u32, Option<Named>),
    /// It serves this with so many inferences, or gives it up where that was pruned.
    Serves(u32, Named, u64),
}

fn place(named: Named) -> AltRef {
    AltRef {
        node: named.0,
        alternative: named.1,
    }
}

fn same_place(found: Option<AltRef>, wanted: Option<Named>) -> bool {
    match (found, wanted) {
        (Some(at), Some(named)) => at == place(named),
        (None, None) => true,
        _ => false,
    }
}

/// What a worker finds in a step is what it is to find.
fn take_step<J: JobBrand>(
    alloc: Global,
    tree: &mut Tree<J>,
    run: &mut JobRun,
    step: Step,
    seen: &mut Seen,
) -> Result<bool, Fail>
    requires { IsJobRun tree.old.history run.old }
    ensures { OnOk result (IsJobRun tree.new.history run.new) }
{
    match step {
        Step::Claims(worker, wanted) => Ok(same_place(claimed(tree, run, worker)?, wanted)),
        Step::Resumes(worker, wanted) => Ok(same_place(resumed(tree, run, worker)?, wanted)),
        Step::Serves(worker, at, most) => {
            serve_one(alloc, tree, run, (worker, place(at)), most.max(1), seen)?;
            Ok(true)
        }
    }
}

/// Takes steps on the tree of a job, and gives what was written and how many tasks were lost.
fn take_steps<J: JobBrand>(
    rt: &impl Abort,
    alloc: Global,
    job: Job,
    steps: &[Step],
) -> Result<(Vec<u8>, u32), Fail>
    requires { J.job ≡ job }
{
    let (tree, run) = open::<J>(alloc, job, 9, 5)?;
    let mut tree = tree;
    let mut run = run;
    let mut seen = Seen::nothing();
    for step in steps {
        let found = take_step(alloc, &mut tree, &mut run, *step, &mut seen)?;
        assert!(rt; found, "{step:?}");
    }
    Ok((run.world.out, seen.lost))
}

/// Both answers of two facts are out: the second waits for the first one, and goes out again once that was taken.
static SECOND_WAITS: [Step; 10] = [
    Step::Claims(0, Some((0, 0))),
    Step::Claims(1, None),
    Step::Serves(0, (0, 0), 9),
    Step::Claims(0, Some((1, 0))),
    Step::Claims(1, Some((1, 1))),
    Step::Serves(1, (1, 1), 9),
    Step::Resumes(1, None),
    Step::Serves(0, (1, 0), 9),
    Step::Resumes(1, Some((1, 1))),
    Step::Serves(1, (1, 1), 9),
];

#[test]
fn answers_in_order(rt: HostRuntime) -> Result<(), Fail> {
    let job = job_of(rt.alloc(), "p(1). p(2). ?- p(X).")?;
    let (written, lost) = take_steps::<Brand>(&rt, rt.alloc(), job, &SECOND_WAITS)?;
    assert_eq!(rt; written.as_slice(), "X = 1\nX = 2\n".as_bytes());
    assert_eq!(rt; lost, 0);
    Ok(())
}

/// After one inference there are two alternatives. The first one cuts while the second is out, which is lost.
static SECOND_IS_PRUNED: [Step; 6] = [
    Step::Claims(0, Some((0, 0))),
    Step::Serves(0, (0, 0), 1),
    Step::Claims(0, Some((1, 0))),
    Step::Claims(1, Some((1, 1))),
    Step::Serves(0, (1, 0), 9),
    Step::Serves(1, (1, 1), 9),
];

#[test]
fn cut_while_out(rt: HostRuntime) -> Result<(), Fail> {
    let job = job_of(rt.alloc(), "p(1). p(2) :- q. q. ?- p(X), !.")?;
    let (_written, lost) = take_steps::<Brand>(&rt, rt.alloc(), job, &SECOND_IS_PRUNED)?;
    assert_eq!(rt; lost, 1);
    Ok(())
}

/// How many turns one worker takes to the end, how that is, and what was written. In a turn an alternative goes out and comes back:
/// two events, or four where an answer is taken at once.
fn turns_taken<J: JobBrand>(
    alloc: Global,
    job: Job,
    budget: u64,
) -> Result<(u32, RunEnding, Vec<u8>), Fail>
    requires { J.job ≡ job }
{
    let (tree, run) = open::<J>(alloc, job, budget, 10_000)?;
    let mut tree = tree;
    let mut run = run;
    let mut seen = Seen::nothing();
    let turns = Turns {
        workers: 1,
        limit: 10_000,
        backwards: false,
    };
    for taken in 0..100 {
        if let Some(end) = tree.ended() {
            return Ok((taken, end, run.world.out));
        }
        take_turns(alloc, &mut tree, &mut run, turns, &mut seen)?;
    }
    Err("an end")?
}

/// A recursion of 1,000 goals takes eight events: the goal is run to the answer and is two alternatives then, the answer is taken, the
/// last clause fails, and the query ends. Its 3,002nd inference is the answer, its 3,004th the end of the query.
static COUNTED: [(u64, u32, RunEnding, &str); 2] = [
    (3_004, 4, RunEnding::Finished, "true\nno\n"),
    (3_003, 3, RunEnding::Budget, "true\n"),
];

/// An answer after a catch whose goal has ended is taken in the turn that runs up to it, where the budget lasts to that, its fourth
/// inference.
static AFTER_CATCH: [(u64, u32, RunEnding, &str); 3] = [
    (5, 2, RunEnding::Finished, "true\nno\n"),
    (4, 1, RunEnding::Budget, "true\n"),
    (3, 1, RunEnding::Budget, ""),
];

/// Whether the run of a text within a budget takes so many turns, ends so, and writes this.
fn is_counted(
    alloc: Global,
    text: &str,
    budget: u64,
    turns: u32,
    end: RunEnding,
    lines: &str,
) -> Result<bool, Fail> {
    let job = job_of(alloc, text)?;
    let (taken, ended, written) = turns_taken::<Brand>(alloc, job, budget)?;
    Ok(taken == turns && ended == end && written.as_slice() == lines.as_bytes())
}

#[test]
fn turns_to_the_end(rt: HostRuntime) -> Result<(), Fail> {
    let text = "c(0). c(N) :- N > 0, M is N - 1, c(M). ?- c(1000).";
    for (budget, turns, end, lines) in COUNTED {
        assert!(rt;
            is_counted(rt.alloc(), text, budget, turns, end, lines)?,
            "{budget}"
        );
    }
    for (budget, turns, end, lines) in AFTER_CATCH {
        assert!(rt;
            is_counted(
                rt.alloc(),
                "?- catch(true, _, true).",
                budget,
                turns,
                end,
                lines
            )?,
            "{budget}"
        );
    }
    Ok(())
}
