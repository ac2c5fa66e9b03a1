//! What the tests share. A call of a region has its clauses in every later goal of its function, so each test calls small
//! functions that have none.
ghost use Rattle.std.specs.Prelude.{IfOk};
ghost use Rattle.cell_store.specs.StoreView.{IsValueIn};
ghost use Rattle.region_control.specs.Controls.{IsGoalPlace};

use au_model::build::single;
use au_term::{Atom, Cell, FlatTerm, NoMemory, Shared, VarNo};
use binding_array::BindingCell;
use region_control::GoalPlace;
use region_split::{Left, Position, Region, Resumed, Text};
use std::alloc::Global;
use std::fmt::Debug;
use std::process::Abort;
use std::sync::Arc;
use std::test::Fail;

pub(crate) const NOTHING: Position = Position { frame: 0, at: 0 };

/// What is found is what is wanted.
pub(crate) fn expect<T: PartialEq + Debug + Drop>(rt: &impl Abort, found: T, wanted: T) {
    assert_eq!(rt; found, wanted);
}

/// The region of a text.
pub(crate) fn region_of(alloc: Global, text: Text) -> Result<Region, Fail> {
    Ok(Region::new(alloc, Arc::new(alloc, text)?)?)
}

/// A region without clauses.
pub(crate) fn region(alloc: Global) -> Result<Region, Fail> {
    region_of(alloc, Text::new(alloc, Vec::new(alloc))?)
}

/// There are so many choice points.
pub(crate) fn expect_height(rt: &impl Abort, region: &Region, wanted: usize) {
    expect(rt, region.height(), wanted);
}

pub(crate) fn integer(alloc: Global, value: i64) -> Result<FlatTerm, NoMemory> {
    single(alloc, Cell::Int(value))
}

pub(crate) fn atom(alloc: Global, name: &str) -> Result<FlatTerm, NoMemory> {
    single(alloc, Cell::Atom(Atom::new(alloc, name)?))
}

/// The value of a term.
pub(crate) fn value(
    rt: &impl Abort,
    alloc: Global,
    region: &mut Region,
    term: FlatTerm,
) -> Result<BindingCell, Fail>
    ensures { IfOk result (IsValueIn region.new.store) }
{
    let term = Shared::from_term(alloc, term)?;
    assert!(rt; term.to_term(alloc)?.bound() <= VarNo::from(region.store().next()));
    Ok(region.copy_in(&term)?)
}

/// A variable leads to this.
pub(crate) fn expect_reached(rt: &impl Abort, region: &Region, variable: u32, wanted: BindingCell) {
    assert!(rt; variable < region.store().next());
    expect(
        rt,
        region.store().dereference(BindingCell::Var(variable)),
        wanted,
    );
}

/// What is gone on with is that nothing is left.
pub(crate) fn expect_nothing_left(rt: &impl Abort, found: Option<Position>) {
    expect(rt, found, Some(NOTHING));
}

/// A goal after which nothing follows.
pub(crate) fn last(region: &Region) -> Result<GoalPlace, NoMemory>
    ensures { IfOk result (IsGoalPlace region.now) }
{
    let cut = region.scope()?;
    let after = region.nothing_left();
    Ok(GoalPlace { cut, after })
}

/// What comes back where a branch has ended.
#[derive(Clone, Copy, Debug, PartialEq, Eq)]
pub(crate) enum Back {
    /// This is left at a position.
    Left(Position, Left),
    /// The list of a findall, and where what follows it is.
    Findall(BindingCell, Position),
    QueryDone,
    AllDone,
}

pub(crate) fn backtrack(region: &mut Region) -> Result<Back, NoMemory> {
    Ok(match region.backtrack()? {
        Resumed::At(position) => Back::Left(position, region.left_at(position)),
        Resumed::FindallDone {
            list,
            results: _,
            after,
        } => Back::Findall(list, after),
        Resumed::QueryDone => Back::QueryDone,
        Resumed::AllDone => Back::AllDone,
    })
}

/// The newest choice point comes back as this.
pub(crate) fn expect_back(rt: &impl Abort, region: &mut Region, wanted: Back) -> Result<(), Fail> {
    expect(rt, backtrack(region)?, wanted);
    Ok(())
}

/// Nothing is left at the newest choice point.
pub(crate) fn expect_back_at_nothing(rt: &impl Abort, region: &mut Region) -> Result<(), Fail> {
    expect_back(rt, region, Back::Left(NOTHING, Left::Nothing))
}
