//! Texts made at random: goals over a few facts, put together by control constructs.
use sample_runs::numbers::Numbers;
use std::alloc::Global;
use std::test::Fail;

static GOALS: [&str; 24] = [
    "p(X)",
    "p(Y)",
    "q(X)",
    "q(Y)",
    "d(X)",
    "d(Y)",
    "X = Y",
    "X = 1",
    "Y = f(X)",
    "X == Y",
    "X > 1",
    "!",
    "!",
    "fail",
    "true",
    "write(X-Y)",
    "write(Y)",
    "throw(X)",
    "throw(e(X, Y))",
    "assertz(d(Y))",
    "asserta(d(X))",
    "retract(d(X))",
    "r(X)",
    "(p(Z), X = Z)",
];

/// What stands before, between and after two goals.
static OF_TWO: [(&str, &str, &str); 8] = [
    ("(", ", ", ")"),
    ("(", ", ", ")"),
    ("(", " ; ", ")"),
    ("(", " -> ", " ; Y = 0)"),
    ("(", " -> ", " ; p(Y))"),
    ("catch(", ", X, ", ")"),
    ("catch((", ", throw(Y)), e(_, Y), ", ")"),
    ("(findall(X-Y, ", ", Y), ", ")"),
];

/// What stands before and after one.
static OF_ONE: [(&str, &str); 6] = [
    ("\\+ ", ""),
    ("once((", "))"),
    ("call((", ", !))"),
    ("findall(X-Z, (", ", Z = W), Y)"),
    ("catch((", "), _, true)"),
    ("(", ", write(X), nl)"),
];

/// One of the goals.
fn goal(numbers: &mut Numbers) -> &'static str {
    GOALS[numbers.below(24)]
}

/// Two goals as one.
fn both(numbers: &mut Numbers, alloc: Global, first: &str, second: &str) -> Result<String, Fail> {
    let (before, between, after) = OF_TWO[numbers.below(8)];
    Ok(format!(in alloc; "{before}{first}{between}{second}{after}")?)
}

/// A goal inside another one.
fn inside(numbers: &mut Numbers, alloc: Global, goal: &str) -> Result<String, Fail> {
    let (before, after) = OF_ONE[numbers.below(6)];
    Ok(format!(in alloc; "{before}{goal}{after}")?)
}

/// So many constructs round a goal.
fn nested(numbers: &mut Numbers, alloc: Global, constructs: u32) -> Result<String, Fail> {
    let mut inner = String::from_str(alloc, goal(numbers))?;
    for _ in 0..constructs {
        let other = goal(numbers);
        inner = match numbers.below(3) {
            0 => both(numbers, alloc, inner.as_str(), other)?,
            1 => both(numbers, alloc, other, inner.as_str())?,
            _ => inside(numbers, alloc, inner.as_str())?,
        };
    }
    Ok(inner)
}

/// A text of facts, a rule and two queries.
pub(crate) fn random_text(numbers: &mut Numbers, alloc: Global) -> Result<String, Fail> {
    let body = nested(numbers, alloc, 2)?;
    let first = nested(numbers, alloc, 4)?;
    let second = nested(numbers, alloc, 3)?;
    let query = both(numbers, alloc, first.as_str(), second.as_str())?;
    let facts = ":- dynamic(d/1). p(1). p(2). p(3). q(3). q(X) :- p(X), X > 1. d(1). d(2).";
    Ok(format!(in alloc; "{facts} r(X) :- {body}. ?- {query}. ?- {second}.")?)
}
