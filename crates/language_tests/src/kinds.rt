//! What goals are, by their names.
use crate::common::Part::A;
use crate::common::{expect, term};
use au_term::NoMemory;
use clause_compile::Code;
use goal_kinds::{GoalKind, GoalKinds, kind_of_name};
use std::alloc::Global;
use std::process::Abort;
use std::test::Fail;
use std_builtins::{Builtin, Control, WorldGoal};

/// What a goal is.
#[derive(Clone, Copy, Debug, PartialEq, Eq)]
enum Seen {
    Control(Control),
    Builtin(Builtin),
    World(WorldGoal),
    Call,
}

fn seen_of(kind: GoalKind) -> Seen {
    match kind {
        GoalKind::Control(control) => Seen::Control(control),
        GoalKind::Builtin(builtin) => Seen::Builtin(builtin),
        GoalKind::World(goal) => Seen::World(goal),
        GoalKind::Call => Seen::Call,
    }
}

static NAMES: [(&str, u32, Seen); 4] = [
    ("!", 0, Seen::Control(Control::Cut)),
    ("is", 2, Seen::Builtin(Builtin::Is)),
    ("nl", 0, Seen::World(WorldGoal::Nl)),
    ("is", 3, Seen::Call),
];

#[test]
fn goals_are_told_by_name_and_number_of_arguments(rt: HostRuntime) {
    for (name, arity, wanted) in &NAMES {
        expect(&rt, seen_of(kind_of_name(name, *arity)), *wanted, name);
    }
}

/// A text of one name.
fn named(alloc: Global, name: &'static str) -> Result<Code, NoMemory> {
    let mut code = Code::new(alloc);
    code.push_term(alloc, &term(alloc, &[A(name)])?)?;
    Ok(code)
}

/// What the first name of a text is as a goal with so many arguments.
fn first_kind(rt: &impl Abort, alloc: Global, code: &Code, arity: u32) -> Result<Seen, NoMemory> {
    assert!(rt; code.names() > 0);
    let kinds = GoalKinds::new(alloc, code)?;
    Ok(seen_of(kinds.kind(0, arity)))
}

fn check_first(rt: &impl Abort, alloc: Global, code: &Code) -> Result<(), Fail> {
    for (arity, wanted) in [(0, Seen::Control(Control::Fail)), (1, Seen::Call)] {
        expect(rt, first_kind(rt, alloc, code, arity)?, wanted, "fail");
    }
    Ok(())
}

#[test]
fn the_names_of_a_text_are_known(rt: HostRuntime) -> Result<(), Fail> {
    let code = named(rt.alloc(), "fail")?;
    check_first(&rt, rt.alloc(), &code)
}
