//! What no clause says: that calls succeed, and what small terms come to.
ghost use Rattle.std.specs.Prelude.{◌≡◌, IfOk};
ghost use Rattle.au_term.specs.Term.{VarTerm};
ghost use Rattle.cell_store.specs.StoreView.{IsValueIn};

use crate::common::{expect, values};
use au_model::build::{atom, binary, unary};
use au_term::{Cell, FlatTerm, NoMemory, VarNo};
use binding_array::BindingCell;
use cell_store::Store;
use clause_compile::Code;
use std::alloc::Global;
use std::process::Abort;
use std::sync::Arc;
use std::test::Fail;

fn variable(alloc: Global, number: VarNo) -> Result<FlatTerm, NoMemory>
    ensures { IfOk result (λ t. t ≡ VarTerm number) }
{
    if number == VarNo::MAX {
        return Err(NoMemory);
    }
    FlatTerm::from_slice(alloc, &[Cell::Var(number)])
}

/// A variable, bare or as the argument of `g`.
type Side = (bool, VarNo);

pub(crate) fn side(alloc: Global, side: Side) -> Result<FlatTerm, NoMemory> {
    let bare = variable(alloc, side.1)?;
    if side.0 {
        unary(alloc, "g", &bare)
    } else {
        Ok(bare)
    }
}

pub(crate) fn both(alloc: Global, sides: &[Side; 2]) -> Result<FlatTerm, NoMemory> {
    binary(alloc, "p", &side(alloc, sides[0])?, &side(alloc, sides[1])?)
}

/// The code of `p(g(V0), V1)`.
fn code(alloc: Global) -> Result<Code, Fail> {
    let mut code = Code::new(alloc);
    code.push_term(alloc, &both(alloc, &[(true, 0), (false, 1)])?)?;
    Ok(code)
}

/// A store over that text, with four variables.
pub(crate) fn store(alloc: Global) -> Result<Store, Fail> {
    let mut store = Store::new(alloc, Arc::new(alloc, code(alloc)?)?)?;
    store.fresh(4)?;
    Ok(store)
}

/// Whether two values unify.
fn unify_values(store: &mut Store, left: BindingCell, right: BindingCell) -> Result<bool, NoMemory>
    requires left { IsValueIn store.old left }
    requires right { IsValueIn store.old right }
    ensures left { IsValueIn store.new left }
    ensures right { IsValueIn store.new right }
{
    store.unify(left, right)
}

/// Whether two values stand for the same.
fn are_same(store: &Store, left: BindingCell, right: BindingCell) -> Result<bool, NoMemory>
    requires left { IsValueIn store.now left }
    requires right { IsValueIn store.now right }
{
    Ok(store.resolve(left)?.cells() == store.resolve(right)?.cells())
}

/// Whether two terms unify. Where they do they stand for the same.
fn unify(
    rt: &impl Abort,
    alloc: Global,
    store: &mut Store,
    a: FlatTerm,
    b: FlatTerm,
) -> Result<bool, Fail> {
    let (left, right) = values(rt, alloc, store, a, b)?;
    let unified = unify_values(store, left, right)?;
    expect(rt, !unified || are_same(store, left, right)?, true);
    Ok(unified)
}

pub(crate) fn unifies(
    rt: &impl Abort,
    alloc: Global,
    store: &mut Store,
    a: &[Side; 2],
    b: &[Side; 2],
) -> Result<bool, Fail> {
    unify(rt, alloc, store, both(alloc, a)?, both(alloc, b)?)
}

/// Terms over four variables, and whether they unify.
const ROWS: [([Side; 2], [Side; 2], bool); 7] = [
    ([(false, 0), (false, 1)], [(false, 2), (false, 2)], true),
    ([(true, 0), (false, 1)], [(false, 2), (false, 3)], true),
    ([(true, 0), (true, 1)], [(false, 2), (false, 2)], true),
    ([(true, 0), (false, 0)], [(false, 2), (false, 2)], false),
    ([(false, 0), (true, 0)], [(true, 2), (true, 3)], true),
    ([(false, 0), (false, 0)], [(true, 2), (false, 2)], false),
    ([(true, 0), (true, 1)], [(true, 0), (true, 1)], true),
];

fn row_unifies(rt: &impl Abort, alloc: Global, a: &[Side; 2], b: &[Side; 2]) -> Result<bool, Fail> {
    let mut store = store(alloc)?;
    unifies(rt, alloc, &mut store, a, b)
}

#[test]
fn unification(rt: HostRuntime) -> Result<(), Fail> {
    for (a, b, unifies) in ROWS {
        expect(&rt, row_unifies(&rt, rt.alloc(), &a, &b)?, unifies);
    }
    Ok(())
}

/// What `V0` is unified with, whose arguments are `g(a)` or `V0`, and whether they unify.
static ARGUMENTS: [(bool, bool, bool); 4] = [
    (true, true, true),
    (true, false, false),
    (false, true, false),
    (false, false, false),
];

fn argument(alloc: Global, is_ground: bool) -> Result<FlatTerm, NoMemory> {
    if is_ground {
        unary(alloc, "g", &atom(alloc, "a")?)
    } else {
        variable(alloc, 0)
    }
}

fn pair(alloc: Global, first: bool, second: bool) -> Result<FlatTerm, NoMemory> {
    binary(
        alloc,
        "p",
        &argument(alloc, first)?,
        &argument(alloc, second)?,
    )
}

fn unify_pair(
    rt: &impl Abort,
    alloc: Global,
    store: &mut Store,
    first: bool,
    second: bool,
) -> Result<bool, Fail> {
    unify(
        rt,
        alloc,
        store,
        variable(alloc, 0)?,
        pair(alloc, first, second)?,
    )
}

fn variable_unifies(
    rt: &impl Abort,
    alloc: Global,
    first: bool,
    second: bool,
) -> Result<bool, Fail> {
    let mut store = store(alloc)?;
    unify_pair(rt, alloc, &mut store, first, second)
}

#[test]
fn ground_arguments(rt: HostRuntime) -> Result<(), Fail> {
    for (first, second, unifies) in &ARGUMENTS {
        let unified = variable_unifies(&rt, rt.alloc(), *first, *second)?;
        expect(&rt, unified, *unifies);
    }
    Ok(())
}

/// Goals over two variables, heads over the two that come after them, and whether they unify. In the last two an older
/// variable is bound to a compound first, and then the head's own variable has to be searched in it.
const HEADS: [([Side; 2], [Side; 2], bool); 6] = [
    ([(false, 0), (false, 1)], [(false, 2), (false, 2)], true),
    ([(true, 0), (true, 1)], [(false, 2), (false, 2)], true),
    ([(true, 0), (false, 0)], [(false, 2), (false, 2)], false),
    ([(false, 0), (true, 0)], [(true, 2), (true, 3)], true),
    ([(false, 0), (false, 0)], [(true, 2), (false, 2)], false),
    ([(false, 0), (false, 0)], [(true, 2), (false, 3)], true),
];

/// Whether a goal over the first two variables unifies with a head over the others.
fn unify_head(
    rt: &impl Abort,
    store: &mut Store,
    goal: BindingCell,
    head: BindingCell,
) -> Result<bool, NoMemory>
    requires goal { IsValueIn store.old goal }
    requires head { IsValueIn store.old head }
{
    assert!(rt; store.resolve(goal)?.bound() <= 2);
    store.unify_head(goal, head, 2)
}

fn unify_both(
    rt: &impl Abort,
    alloc: Global,
    store: &mut Store,
    goal: &[Side; 2],
    head: &[Side; 2],
) -> Result<bool, Fail> {
    let (goal, head) = values(rt, alloc, store, both(alloc, goal)?, both(alloc, head)?)?;
    Ok(unify_head(rt, store, goal, head)?)
}

fn head_unifies(
    rt: &impl Abort,
    alloc: Global,
    goal: &[Side; 2],
    head: &[Side; 2],
) -> Result<bool, Fail> {
    let mut store = store(alloc)?;
    unify_both(rt, alloc, &mut store, goal, head)
}

#[test]
fn heads(rt: HostRuntime) -> Result<(), Fail> {
    for (goal, head, unifies) in HEADS {
        expect(&rt, head_unifies(&rt, rt.alloc(), &goal, &head)?, unifies);
    }
    Ok(())
}

/// What is done with a store.
#[derive(Clone, Copy)]
enum Step {
    Mark,
    Fresh,
    Unify([Side; 2], [Side; 2]),
    UndoTo(usize),
    KeepMarks(usize),
    RaiseFloor,
    Expect(u32, Side),
}

fn undo_to(rt: &impl Abort, store: &mut Store, mark: usize) {
    assert!(rt; mark < store.marks());
    store.undo_to(mark);
}

/// Whether a variable stands for this.
fn stands_for(
    rt: &impl Abort,
    alloc: Global,
    store: &Store,
    number: u32,
    value: Side,
) -> Result<bool, NoMemory> {
    assert!(rt; number < store.next());
    let term = store.resolve(BindingCell::Var(number))?;
    Ok(term.cells() == side(alloc, value)?.cells())
}

fn mark(store: &mut Store) -> Result<usize, NoMemory> {
    store.mark()
}

fn fresh(store: &mut Store) -> Result<u32, NoMemory> {
    store.fresh(2)
}

/// Takes a step, and says whether what was to hold does.
fn run(rt: &impl Abort, alloc: Global, store: &mut Store, step: &Step) -> Result<bool, Fail> {
    match step {
        Step::Mark => {
            mark(store)?;
            Ok(true)
        }
        Step::Fresh => {
            fresh(store)?;
            Ok(true)
        }
        Step::Unify(a, b) => unifies(rt, alloc, store, a, b),
        Step::UndoTo(mark) => {
            undo_to(rt, store, *mark);
            Ok(true)
        }
        Step::KeepMarks(count) => {
            store.keep_marks(*count);
            Ok(true)
        }
        Step::RaiseFloor => {
            store.raise_floor()?;
            Ok(true)
        }
        Step::Expect(number, value) => Ok(stands_for(rt, alloc, store, *number, *value)?),
    }
}

/// Bindings between two marks and after them, and what is left once they are undone.
const STEPS: [Step; 15] = [
    Step::Mark,
    Step::Unify([(false, 0), (false, 3)], [(true, 1), (false, 2)]),
    Step::Expect(0, (true, 1)),
    Step::Mark,
    Step::Fresh,
    Step::Unify([(false, 4), (false, 5)], [(false, 1), (true, 1)]),
    Step::Expect(4, (false, 1)),
    Step::Expect(5, (true, 1)),
    Step::UndoTo(1),
    Step::Fresh,
    Step::Expect(4, (false, 4)),
    Step::Expect(3, (false, 2)),
    Step::KeepMarks(1),
    Step::UndoTo(0),
    Step::Expect(3, (false, 3)),
];

/// What is bound and marked where the floor is raised stays, whichever of the older marks is gone back to.
const RAISED: [Step; 14] = [
    Step::Mark,
    Step::Unify([(false, 0), (false, 0)], [(true, 1), (true, 1)]),
    Step::Mark,
    Step::Fresh,
    Step::RaiseFloor,
    Step::Mark,
    Step::Unify([(false, 1), (false, 4)], [(false, 2), (false, 5)]),
    Step::UndoTo(2),
    Step::Expect(0, (true, 1)),
    Step::Expect(4, (false, 4)),
    Step::UndoTo(0),
    Step::Expect(0, (true, 1)),
    Step::Expect(5, (false, 5)),
    Step::KeepMarks(0),
];

fn run_all(rt: &impl Abort, alloc: Global, store: &mut Store, steps: &[Step]) -> Result<(), Fail> {
    for step in steps {
        expect(rt, run(rt, alloc, store, step)?, true);
    }
    Ok(())
}

#[test]
fn marks(rt: HostRuntime) -> Result<(), Fail> {
    let mut store = store(rt.alloc())?;
    run_all(&rt, rt.alloc(), &mut store, &STEPS)
}

#[test]
fn raised_floors(rt: HostRuntime) -> Result<(), Fail> {
    let mut store = store(rt.alloc())?;
    run_all(&rt, rt.alloc(), &mut store, &RAISED)
}

fn made_since(
    rt: &impl Abort,
    store: &Store,
    mark: usize,
) -> Result<Vec<(u32, BindingCell)>, NoMemory> {
    assert!(rt; mark < store.marks());
    store.made_since(mark)
}

fn older_since(rt: &impl Abort, store: &Store, mark: usize) -> Result<Vec<u32>, NoMemory> {
    assert!(rt; mark < store.marks());
    store.older_since(mark)
}

/// Two older variables were bound since a mark, the first and the last one.
fn expect_older(rt: &impl Abort, store: &Store, mark: usize) -> Result<(), Fail> {
    let older = older_since(rt, store, mark)?;
    expect(rt, matches!(older.as_slice(), [0, 3]), true);
    Ok(())
}

/// Two bindings since a mark: that of the first variable, and that of the last one to the third.
fn expect_two(rt: &impl Abort, store: &Store, mark: usize) -> Result<(), Fail> {
    match made_since(rt, store, mark)?.as_slice() {
        [(first, _), second] => {
            expect(rt, *first, 0);
            expect(rt, *second, (3, BindingCell::Var(2)));
        }
        _ => Err("two bindings")?,
    }
    Ok(())
}

fn bind_two(rt: &impl Abort, alloc: Global, store: &mut Store) -> Result<(), Fail> {
    let mark = mark(store)?;
    let (left, right) = ([(false, 0), (false, 3)], [(true, 1), (false, 2)]);
    expect(rt, unifies(rt, alloc, store, &left, &right)?, true);
    expect_older(rt, store, mark)?;
    expect_two(rt, store, mark)
}

#[test]
fn bindings_since_a_mark(rt: HostRuntime) -> Result<(), Fail> {
    let mut store = store(rt.alloc())?;
    bind_two(&rt, rt.alloc(), &mut store)
}

/// The state of a store that has no mark is its floor.
fn floor(rt: &impl Abort, store: &mut Store) {
    assert!(rt; store.marks() == 0);
    store.set_floor();
}

fn bind_over_the_floor(rt: &impl Abort, alloc: Global, store: &mut Store) -> Result<(), Fail> {
    let (under, over) = ([(false, 3), (false, 3)], [(false, 0), (false, 0)]);
    expect(
        rt,
        unifies(rt, alloc, store, &under, &[(false, 2), (false, 2)])?,
        true,
    );
    floor(rt, store);
    expect(
        rt,
        unifies(rt, alloc, store, &over, &[(true, 1), (true, 1)])?,
        true,
    );
    let since = store.made_since_floor()?;
    expect(rt, since.len(), 1);
    match since.first() {
        Some((variable, BindingCell::Compound(_, _))) => expect(rt, *variable, 0),
        _ => Err("a compound")?,
    }
    Ok(())
}

#[test]
fn bindings_since_the_floor(rt: HostRuntime) -> Result<(), Fail> {
    let mut store = store(rt.alloc())?;
    bind_over_the_floor(&rt, rt.alloc(), &mut store)
}
