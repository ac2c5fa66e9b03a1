//! The region.
ghost use Rattle.std.specs.Prelude.{◌≡◌, ◌<◌, ◌≤◌, ◌∷◌, IfOk, OnOk, OnErr, MatchOption, IsTrue, ◌↔◌, List, [], length};
ghost use Rattle.std.specs.Arc.{arc_value};
ghost use Rattle.au_term.specs.Term.{var_bound};
ghost use Rattle.cell_store.specs.ListGoals.{list_goal};
ghost use Rattle.cell_store.specs.StoreView.{AddsText, BindsFurther, CanBeBound, IsValueIn, meaning, text_in, value_term, with_numbers, over_floor, raised};
ghost use Rattle.au_model.specs.Terms.Each.{Each};
ghost use Rattle.run_model.specs.Programs.Clauses.{is_defined};
ghost use Rattle.clause_compile.specs.AtomNumbers.{name_at};
ghost use Rattle.region_split.specs.CompoundGoals.{HasNoCompoundFirst, IsCompoundFirst};
ghost use Rattle.cell_store.specs.UnificationSteps.{IsUnified, OnlyBinds};
ghost use Rattle.au_model.specs.Terms.Named.{NamedTerm};
ghost use Rattle.region_split.specs.ChoicePoints.{frames_kept, height_of_cut, IsCatchAt};
ghost use Rattle.region_split.specs.QueryEnds.{AreEndsAtFloor, AreEndsOldest, IsEnd, MayComeOver};
ghost use Rattle.region_split.specs.Regions.{entries_of, heights_of, items_here, IsLeftAt, IsPositionIn, AreAlternativesIn};
ghost use Rattle.region_split.specs.StackOperations.{new_region, KeepsPositions, AddsFrame, AddsChoice, CutsTo, TakesNewest, DropsNewest, HasNoClauseOnTop, TakesClause, HasNoSolutionOnTop, TakesSolution, HasFindallAt, AddsResult, StaysStanding};

use crate::candidates::match_after;
use crate::choice::{Alternatives, ChoicePoint, Trial};
use crate::frame::{CompoundFirst, Frame, FrameBody, FrameItem, Left, Position};
use crate::solution::Solution;
use crate::text::{BodyItem, Text};
use au_term::{FlatTerm, NoMemory, Shared};
use binding_array::BindingCell;
use cell_store::Store;
use std::alloc::Global;
use std::marker::Model;
use std::sync::Arc;

/// Frames and choice points over a store, each choice point with its mark.
#[derive(Drop)]
pub struct Region {
    text: Arc<Text>,
    store: Store,
    frames: Vec<Frame>,
    choices: Vec<ChoicePoint>,
}

impl Model for Region {
    ghost use Rattle.std.specs.Arc.{arc_value};
    ghost use Rattle.std.specs.Coded.{codes};
    ghost use Rattle.au_term.specs.PrefixOrder.{term_code};
    ghost use Rattle.region_split.specs.Regions.{RegionView, IsConsistentRegion};

    ghost Value = { RegionView };

    ghost coded = { Prim.hlevel (codes, term_code) };

    ghost view = { λ r. record { text = arc_value r.text; store = r.store; frames = r.frames.items; choices = r.choices.items } };

    ghost invariant = { λ r. IsConsistentRegion (record { text = arc_value r.text; store = r.store; frames = r.frames.items; choices = r.choices.items }) };
}

impl Region {
    /// No frame and no choice point.
    pub fn new(alloc: Global, text: Arc<Text>) -> Result<Region, NoMemory>
        ensures { IfOk result (λ r. r ≡ new_region (arc_value text)) }
    {
        let store = Store::new(alloc, text.code()?)?;
        Ok(Region {
            text,
            store,
            frames: Vec::new(alloc),
            choices: Vec::new(alloc),
        })
    }

    /// The program's text.
    #[inline(always)]
    pub fn text(&self) -> &Text
        ensures { result.now ≡ self.entry.now.text }
    {
        &self.text
    }

    /// The store. Its text is the program's.
    #[inline(always)]
    pub fn store(&self) -> &Store
        ensures store { result.now ≡ self.entry.now.store }
        ensures program { result.now.program ≡ self.entry.now.text.code }
    {
        &self.store
    }

    /// Whether there is a findall over so many choice points.
    pub fn is_findall(&self, over: usize) -> bool
        ensures { IsTrue result ↔ HasFindallAt self.now over }
    {
        match self.choices.get(over) {
            Some(choice) => choice.is_findall(),
            None => false,
        }
    }

    /// Whether there is a catch over so many choice points.
    pub fn is_catch(&self, over: usize) -> bool
        ensures { IsTrue result ↔ IsCatchAt self.now.choices over }
    {
        match self.choices.get(over) {
            Some(choice) => choice.is_catch(),
            None => false,
        }
    }

    /// How many choice points there are.
    #[inline(always)]
    pub fn height(&self) -> usize
        ensures { result ≡ length self.now.choices }
    {
        self.choices.len()
    }

    /// The ends of queries are under all other choice points, each of which has its mark, and came at the floor. Does nothing.
    #[inline(always)]
    pub fn ends_are_oldest(&self)
        ensures ends { AreEndsOldest self.now.choices }
        ensures floor { AreEndsAtFloor self.now.store.floor self.now.choices self.now.store.marks }
        ensures marks { length self.now.store.marks ≡ length self.now.choices }
    {
        // The proof reads off what holds of each region.
        let _count = self.choices.len();
    }

    /// How many choice points a cut in what is called now leaves: all.
    #[inline(always)]
    pub fn scope(&self) -> Result<u32, NoMemory>
        ensures count { IfOk result (λ cut. cut ≡ length self.now.choices) }
        ensures height { IfOk result (λ cut. (named : List NamedTerm) → height_of_cut (heights_of named self.now) cut ≡ length (entries_of named self.now)) }
    {
        match u32::try_from(self.choices.len()) {
            Ok(count) => Ok(count),
            Err(_) => Err(NoMemory),
        }
    }

    /// Takes the state of the store as its floor, where there is no choice point.
    pub fn set_floor(&mut self)
        requires { self.old.choices ≡ [] }
        ensures { self.new ≡ record self.old { store = over_floor self.old.store } }
    {
        self.store.set_floor();
    }

    /// Takes the state of the store as its floor, where all choice points are ends of queries: they have come there now.
    pub fn raise_floor(&mut self) -> Result<(), NoMemory>
        requires { Each (λ c. IsEnd c.alternatives) self.old.choices }
        ensures ok { OnOk result (self.new ≡ record self.old { store = raised self.old.store }) }
        ensures err { OnErr result (self.new ≡ self.old) }
    {
        self.store.raise_floor()?;
        Ok(())
    }

    /// The position at which nothing is left to do.
    pub fn nothing_left(&self) -> Position
        ensures items { items_here self.now result ≡ [] }
        ensures position { IsPositionIn self.now result }
    {
        Position { frame: 0, at: 0 }
    }

    /// What is left at a position, by its first item.
    #[inline(always)]
    pub fn left_at(&self, position: Position) -> Left
        requires { IsPositionIn self.now position }
        ensures { IsLeftAt self.now position result }
    {
        if position.frame == 0 {
            return Left::Nothing;
        }
        let frame = &self.frames[position.frame as usize - 1];
        match frame.body {
            FrameBody::Text(base) => match self.text.get(position.at) {
                Some(BodyItem::Goal(place)) => {
                    let goal = self.store.value(place, base);
                    Left::First(FrameItem::Goal(goal), frame.cut)
                }
                Some(BodyItem::BodyEnd) => Left::GoesOnAt(frame.after),
                None => Left::GoesOnAt(frame.after),
            },
            FrameBody::One(item) => {
                if position.at == 0 {
                    return Left::First(item, frame.cut);
                }
                Left::GoesOnAt(frame.after)
            }
        }
    }

    /// The compound that stands first at a position as a goal of the position's own frame, if one does; none at the last place
    /// that has a number. It is read at once with where what follows is left: where the frame ends there, that is where it goes
    /// on. So no later goal walks over the frame of a last goal, which is kept for choice points alone.
    #[inline(always)]
    pub fn compound_at(&self, position: Position) -> Option<CompoundFirst>
        requires { IsPositionIn self.now position }
        ensures { MatchOption result (HasNoCompoundFirst self.now position) (IsCompoundFirst self.now position) }
    {
        if position.frame == 0 {
            return None;
        }
        let next = position.at.checked_add(1)?;
        let frame = &self.frames[position.frame as usize - 1];
        match frame.body {
            FrameBody::Text(base) => match self.text.get(position.at) {
                Some(BodyItem::Goal(place)) => {
                    let Some((at, base)) = self.store.any_compound(place, base) else {
                        return None;
                    };
                    let after = match self.text.get(next) {
                        Some(BodyItem::BodyEnd) => frame.after,
                        _ => Position {
                            frame: position.frame,
                            at: next,
                        },
                    };
                    let cut = frame.cut;
                    Some(CompoundFirst {
                        at,
                        base,
                        cut,
                        after,
                    })
                }
                Some(BodyItem::BodyEnd) => None,
                None => None,
            },
            FrameBody::One(item) => {
                if position.at != 0 {
                    return None;
                }
                let Some((at, base)) = item.compound() else {
                    return None;
                };
                Some(CompoundFirst {
                    at,
                    base,
                    cut: frame.cut,
                    after: frame.after,
                })
            }
        }
    }

    /// Makes a frame, and gives its number. A frame that no choice point keeps, and that is younger than the one in which the
    /// new frame goes on, is written over.
    #[inline(always)]
    pub fn push_frame(&mut self, frame: Frame) -> Result<u32, NoMemory>
        requires { frame.after.frame ≤ length self.old.frames }
        ensures ok { IfOk result (AddsFrame self.old self.new frame) }
        ensures err { OnErr result (self.new ≡ self.old) }
    {
        let kept = frames_kept_by(&self.choices).max(frame.after.frame);
        let Some(number) = kept.checked_add(1) else {
            return Err(NoMemory);
        };
        let at = kept as usize;
        if at < self.frames.len() {
            self.frames[at] = frame;
            self.frames.truncate(number as usize);
        } else {
            self.frames.push(frame)?;
        }
        Ok(number)
    }

    /// Puts a choice point on top, whose alternatives go on at a position.
    #[inline(always)]
    pub fn push_choice(
        &mut self,
        alternatives: Alternatives,
        after: Position,
    ) -> Result<(), NoMemory>
        requires position { IsPositionIn self.old after }
        requires values { AreAlternativesIn self.old alternatives }
        requires over { MayComeOver self.old.choices alternatives }
        ensures ok { OnOk result (AddsChoice self.old self.new alternatives after) }
        ensures err { OnErr result (self.new ≡ self.old) }
    {
        let frames = frames_kept_by(&self.choices).max(after.frame);
        self.choices.reserve(1)?;
        self.store.mark()?;
        self.choices
            .push(ChoicePoint {
                alternatives,
                after,
                frames,
            })
            .unwrap();
        Ok(())
    }

    /// Cuts down to so many choice points, the oldest. Nothing is undone.
    #[inline(always)]
    pub fn cut_to(&mut self, count: usize)
        requires { count ≤ length self.old.choices }
        ensures { CutsTo self.old self.new count }
    {
        self.choices.truncate(count);
        self.store.keep_marks(count);
    }

    /// Takes the newest choice point off, and undoes all that was bound and made since it came.
    pub fn take_newest(&mut self) -> ChoicePoint
        requires { 0 < length self.old.choices }
        ensures { TakesNewest self.old self.new result }
    {
        let newest = self.choices.len() - 1;
        self.store.undo_to(newest);
        self.store.keep_marks(newest);
        match self.choices.pop() {
            Some(choice) => choice,
            None => unreachable!(),
        }
    }

    /// Takes the newest choice point off, and undoes nothing: a cursor with no clause left, or a catch at its end.
    pub fn drop_newest(&mut self) -> ChoicePoint
        requires { 0 < length self.old.choices }
        ensures { DropsNewest self.old self.new result }
    {
        let newest = self.choices.len() - 1;
        self.store.keep_marks(newest);
        match self.choices.pop() {
            Some(choice) => choice,
            None => unreachable!(),
        }
    }

    /// Takes the clause that is next off the newest choice point, and undoes all that was bound and made since that came. Where
    /// no further clause may match, the choice point is dropped.
    #[inline(always)]
    pub fn next_clause(&mut self) -> Option<Trial>
        ensures { MatchOption result (HasNoClauseOnTop self.old × (self.new ≡ self.old)) (TakesClause self.old self.new) }
    {
        let count = self.choices.len();
        if count == 0 {
            return None;
        }
        let newest = &self.choices[count - 1];
        let after = newest.after;
        let Some((goal, clause, mut left)) = newest.alternatives.clauses() else {
            return None;
        };
        let trial = Trial {
            goal,
            clause,
            after,
        };
        self.store.undo_to(count - 1);
        let Some(clause) = match_after(&self.text, &self.store, goal, clause, &mut left) else {
            let _last = self.take_newest();
            return Some(trial);
        };
        self.choices[count - 1].alternatives = Alternatives::Clauses { goal, clause, left };
        Some(trial)
    }

    /// Takes the first solution that is left off the newest choice point, and undoes all that was bound and made since that
    /// came. Where it was the last, the choice point is dropped.
    pub fn next_solution(&mut self) -> Option<(Solution, Position)>
        ensures { MatchOption result (HasNoSolutionOnTop self.old × (self.new ≡ self.old)) (λ t. TakesSolution self.old self.new t.0 t.1) }
    {
        let count = self.choices.len();
        if count == 0 {
            return None;
        }
        let newest = &mut self.choices[count - 1];
        let after = newest.after;
        let Some((solution, is_last)) = newest.alternatives.next_solution() else {
            return None;
        };
        self.store.undo_to(count - 1);
        if is_last {
            let _last = self.take_newest();
            return Some((solution, after));
        }
        Some((solution, after))
    }

    /// Whether a procedure has a clause in the text, by the number of its name in the store.
    #[inline(always)]
    pub fn is_defined(&self, name: u32, arity: u32) -> bool
        requires { name < length (text_in self.now.store).names }
        ensures { result ≡ is_defined self.now.text.clauses (name_at (text_in self.now.store).names name) arity }
    {
        // The proof reads off that no two names are the same.
        let _next = self.store.next();
        self.text.has_head(name, arity)
    }

    /// Adds a copy of a term to the results of the findall over so many choice points.
    pub fn add_result(&mut self, alloc: Global, over: usize, term: FlatTerm) -> Result<(), NoMemory>
        requires { HasFindallAt self.old over }
        ensures ok { OnOk result (AddsResult self.old self.new over term) }
        ensures err { OnErr result (self.new ≡ self.old) }
    {
        self.choices[over].alternatives.add_result(alloc, term)
    }

    /// Takes so many new variable numbers, and gives the first.
    #[inline]
    pub fn fresh(&mut self, count: u32) -> Result<u32, NoMemory>
        ensures ok { OnOk result (self.new ≡ record self.old { store = with_numbers count self.old.store }) }
        ensures first { IfOk result (λ first. first ≡ self.old.store.now.next) }
        ensures stays { StaysStanding self.old self.new }
        ensures err { OnErr result (self.new ≡ self.old) }
    {
        self.store.fresh(count)
    }

    /// Binds a free variable.
    pub fn bind(&mut self, variable: u32, value: BindingCell) -> Result<(), NoMemory>
        requires { CanBeBound self.old.store variable value }
        ensures ok { OnOk result (BindsFurther self.old.store self.new.store ((variable, meaning self.old.store value) ∷ [])) }
        ensures stays { StaysStanding self.old self.new }
        ensures err { OnErr result (self.new ≡ self.old) }
    {
        self.store.bind(variable, value)
    }

    /// The value that a term is, whose variables are there: it is put behind the text.
    pub fn copy_in(&mut self, term: &Shared) -> Result<BindingCell, NoMemory>
        requires { var_bound term.now ≤ self.old.store.now.next }
        ensures there { IfOk result (IsValueIn self.new.store) }
        ensures term { IfOk result (λ value. value_term self.new.store value ≡ term.now) }
        ensures text { AddsText self.old.store self.new.store }
        ensures stays { StaysStanding self.old self.new }
        ensures keeps { KeepsPositions self.old self.new (length self.old.frames) }
    {
        self.store.copy_in(term)
    }

    /// The value of the goal that unifies a term with the list of others, whose variables are there: it is put behind the text.
    pub fn list_goal(
        &mut self,
        term: &FlatTerm,
        items: &[FlatTerm],
    ) -> Result<BindingCell, NoMemory>
        requires { var_bound (list_goal term.now items.now) ≤ self.old.store.now.next }
        ensures there { IfOk result (IsValueIn self.new.store) }
        ensures term { IfOk result (λ value. value_term self.new.store value ≡ list_goal term.now items.now) }
        ensures text { AddsText self.old.store self.new.store }
        ensures stays { StaysStanding self.old self.new }
        ensures keeps { KeepsPositions self.old self.new (length self.old.frames) }
    {
        self.store.list_goal(term, items)
    }

    /// Makes two values one by further bindings, or answers that none do. Where none do, or out of memory, some bindings may
    /// be left: the newest choice point can be taken.
    pub fn unify(&mut self, a: BindingCell, b: BindingCell) -> Result<bool, NoMemory>
        requires left { IsValueIn self.old.store a }
        requires right { IsValueIn self.old.store b }
        ensures unified { IfOk result (IsUnified a b self.old.store self.new.store) }
        ensures kept { OnlyBinds self.old.store self.new.store }
        ensures stays { StaysStanding self.old self.new }
    {
        self.store.unify(a, b)
    }

    /// The same, of a goal and the head of a clause whose variables are numbered from `base` on and are in nothing that the
    /// goal stands for.
    #[inline]
    pub fn unify_head(
        &mut self,
        goal: BindingCell,
        head: BindingCell,
        base: u32,
    ) -> Result<bool, NoMemory>
        requires goal { IsValueIn self.old.store goal }
        requires head { IsValueIn self.old.store head }
        requires older { var_bound (meaning self.old.store goal) ≤ base }
        ensures unified { IfOk result (IsUnified goal head self.old.store self.new.store) }
        ensures kept { OnlyBinds self.old.store self.new.store }
        ensures stays { StaysStanding self.old self.new }
    {
        self.store.unify_head(goal, head, base)
    }
}

/// How many frames the newest choice point keeps.
#[inline(always)]
fn frames_kept_by(choices: &[ChoicePoint]) -> u32
    ensures { result ≡ frames_kept 0 choices.now }
{
    match choices.last() {
        Some(choice) => choice.frames,
        None => 0,
    }
}
