//! Balls: a thrown ball goes down from catch to catch, to one that takes a copy of it (ISO/IEC 13211-1, 7.8.9 and 7.8.10).
ghost use Rattle.std.specs.Prelude.{◌≡◌, IfOk, OnOk};
ghost use Rattle.cell_store.specs.StoreView.{IsValueIn};
ghost use Rattle.region_split.specs.ChoicePoints.{IsCatchAt};
ghost use Rattle.region_split.specs.Regions.{IsPositionIn};
ghost use Rattle.region_control.specs.Balls.{is_catch_end, HasFirstCatch, TakesCatch, RecoversOr, Lands};

use au_model::copies::copy_term;
use au_term::{FlatTerm, NoMemory, Shared, VarNo};
use binding_array::BindingCell;
use region_split::{Alternatives, ChoicePoint, FrameItem, Left, Position, Region};
use std::alloc::Global;

/// What a catch takes, its recovery, and where what follows it is left.
#[derive(Clone, Copy, Debug)]
pub struct Catch {
    pub catcher: BindingCell,
    pub recovery: BindingCell,
    pub after: Position,
}

/// Throws a ball at a position, and gives the position at which the recovery goes on, unless no catch takes the ball: then
/// no choice point is left.
pub fn throw(
    region: &mut Region,
    alloc: Global,
    ball: &FlatTerm,
    position: Position,
) -> Result<Option<Position>, NoMemory>
    requires { IsPositionIn region.old position }
    ensures lands { IfOk result (Lands region.old region.new ball.now position) }
    ensures text { OnOk result (region.new.text ≡ region.old.text) }
    ensures floor { OnOk result (region.new.store.floor ≡ region.old.store.floor) }
{
    let mut mark = first_catch(region, position)?;
    while let Some(over) = mark {
        let catch = take_catch(region, over)?;
        match recover(region, alloc, ball, catch)? {
            Some(position) => return Ok(Some(position)),
            None => mark = first_catch(region, catch.after)?,
        }
    }
    region.cut_to(0);
    Ok(None)
}

/// How many choice points are under the catch whose mark comes first at a position.
fn first_catch(region: &Region, position: Position) -> Result<Option<u32>, NoMemory>
    requires { IsPositionIn region.now position }
    ensures { IfOk result (HasFirstCatch region.now position) }
{
    let mut next = position;
    loop {
        match region.left_at(next) {
            Left::First(item, cut) => {
                if ends_catch(item) {
                    return Ok(Some(cut - 1));
                }
                let Some(at) = next.at.checked_add(1) else {
                    return Err(NoMemory);
                };
                next.at = at;
            }
            Left::GoesOnAt(older) => next = older,
            Left::Nothing => return Ok(None),
        }
    }
}

/// Whether an item is the end of what a catch guards.
fn ends_catch(item: FrameItem) -> bool
    ensures { result ≡ is_catch_end item }
{
    match item {
        FrameItem::CatchEnd => true,
        _ => false,
    }
}

/// Takes a catch off, and all choice points above it.
fn take_catch(region: &mut Region, over: u32) -> Result<Catch, NoMemory>
    requires { IsCatchAt region.old.choices over }
    ensures taken { IfOk result (TakesCatch region.old region.new over) }
    ensures text { OnOk result (region.new.text ≡ region.old.text) }
    ensures floor { OnOk result (region.new.store.floor ≡ region.old.store.floor) }
{
    region.cut_to(over as usize + 1);
    let ChoicePoint {
        alternatives,
        after,
        frames: _,
    } = region.take_newest();
    let _height = region.scope()?;
    match alternatives {
        Alternatives::Catch { catcher, recovery } => Ok(Catch {
            catcher,
            recovery,
            after,
        }),
        _ => unreachable!(),
    }
}

/// Where a catch takes a copy of the ball, its recovery goes on before what follows the catch.
fn recover(
    region: &mut Region,
    alloc: Global,
    ball: &FlatTerm,
    catch: Catch,
) -> Result<Option<Position>, NoMemory>
    requires catcher { IsValueIn region.old.store catch.catcher }
    requires recovery { IsValueIn region.old.store catch.recovery }
    requires after { IsPositionIn region.old catch.after }
    ensures recovers { IfOk result (RecoversOr region.old region.new ball.now catch) }
    ensures text { OnOk result (region.new.text ≡ region.old.text) }
    ensures floor { OnOk result (region.new.store.floor ≡ region.old.store.floor) }
{
    let (copy, takes) = copy_term(alloc, ball, VarNo::from(region.store().next()))?;
    let Ok(takes) = u32::try_from(takes) else {
        return Err(NoMemory);
    };
    region.fresh(takes)?;
    let term = Shared::from_term(alloc, copy)?;
    let value = region.copy_in(&term)?;
    if !region.unify(catch.catcher, value)? {
        return Ok(None);
    }
    let cut = region.scope()?;
    let position = region.push_item(FrameItem::Call(catch.recovery), cut, catch.after)?;
    Ok(Some(position))
}
