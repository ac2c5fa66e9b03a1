//! Program text: bodies as places, and clauses.
ghost use Rattle.std.specs.Prelude.{◌≡◌, ◌∷◌, ◌<◌, [], ◌++◌, OnOk, IfOk, IfSome, MatchOption, Some, length, map, slice_get};
ghost use Rattle.std.specs.Arc.{arc_value};
ghost use Rattle.run_model.specs.Programs.Clauses.{Clause as ClauseTerms};
ghost use Rattle.au_term.specs.Term.{argument};
ghost use Rattle.proc_index.specs.Keys.{key_of};
ghost use Rattle.clause_index.specs.HeadKeys.{IsKeyAmong, named_key};
ghost use Rattle.clause_compile.specs.Places.{AreSound, IsPlaceOf, meaning_in};
ghost use Rattle.std.specs.List.{list_any};
ghost use Rattle.clause_index.specs.Classes.{can_match, is_head_of};
ghost use Rattle.clause_index.specs.Cursors.{IsCursorOf, numbers_left, TakesLeast};
ghost use Rattle.clause_index.specs.Numbers.{numbers, only_of};
ghost use Rattle.region_split.specs.Texts.{body_items, IsArgumentPlace, IsInnerConstant, IsKeyedArgument, IsPlacedClause, ArePlacedClauses, AreHeadKeys, AddsClause};

use au_term::NoMemory;
use clause_compile::{Clause, Code, Place};
use clause_index::{ClauseIndex, Cursor, HeadKey, NumberKey};
use std::alloc::Global;
use std::marker::Model;
use std::sync::Arc;

/// An item of a body. Bodies stand one after another, each with its end.
#[derive(Clone, Copy, Debug, PartialEq, Eq)]
pub enum BodyItem {
    Goal(Place),
    BodyEnd,
}

/// An argument of an argument of a head that is a constant, both counted from 0, and its key.
#[derive(Clone, Copy, Debug, PartialEq, Eq)]
pub struct InnerConstant {
    pub of: u32,
    pub number: u32,
    pub key: NumberKey,
}

/// An argument of a head that has a key, counted from 0.
#[derive(Clone, Copy, Debug, PartialEq, Eq)]
pub struct KeyedArgument {
    pub number: u32,
    pub key: NumberKey,
}

/// Where a clause is: the place of its head, and where its body begins among the bodies; and how many variables it has. What
/// is looked at to tell a goal apart: the first of the head's second to fourth arguments that has a key; those of them from
/// `keyed_from` on and before `keyed_to`, counted from 0, which has all others that have one; and the first constant that
/// stands inside of one of the first four. Where it is alike, the clause before it is of its procedure and has the same there.
#[derive(Clone, Copy, Debug, PartialEq, Eq)]
pub struct PlacedClause {
    pub head: Place,
    pub body: u32,
    pub vars: u32,
    pub keyed: Option<KeyedArgument>,
    pub keyed_from: u32,
    pub keyed_to: u32,
    pub inner: Option<InnerConstant>,
    pub is_alike: bool,
}

/// A head's functor and what tells the heads of one procedure apart, but for the first argument.
#[derive(Clone, Copy, PartialEq, Eq)]
struct LaterKeys {
    functor: Option<NumberKey>,
    second: Option<NumberKey>,
    third: Option<NumberKey>,
    fourth: Option<NumberKey>,
    inner: Option<InnerConstant>,
}

/// A program's text: its places, its bodies, and its clauses. It knows where each clause is, and finds those that a goal may
/// match.
#[derive(Drop)]
pub struct Text {
    code: Arc<Code>,
    bodies: Vec<BodyItem>,
    clauses: Vec<Arc<Clause>>,
    placed: Vec<PlacedClause>,
    index: ClauseIndex,
}

impl Model for Text {
    ghost use Rattle.std.specs.Prelude.{map};
    ghost use Rattle.std.specs.Arc.{arc_value};
    ghost use Rattle.std.specs.Coded.{codes};
    ghost use Rattle.au_term.specs.PrefixOrder.{term_code};
    ghost use Rattle.region_split.specs.Texts.{TextView, ArePlacedClauses, AreHeadKeys};

    ghost Value = { TextView };

    ghost coded = { Prim.hlevel (codes, term_code) };

    ghost view = { λ t. record { code = arc_value t.code; bodies = t.bodies.items; clauses = map arc_value t.clauses.items; heads = t.index } };

    ghost invariant = { λ t. ArePlacedClauses (arc_value t.code) t.bodies.items (map arc_value t.clauses.items) t.placed.items × AreHeadKeys (arc_value t.code).names (map arc_value t.clauses.items) t.index };
}

impl Text {
    /// The text of these clauses.
    pub fn new(alloc: Global, clauses: Vec<Arc<Clause>>) -> Result<Text, NoMemory>
        ensures { IfOk result (λ text. text.clauses ≡ map arc_value clauses.items) }
    {
        let mut code = Code::new(alloc);
        let mut bodies = Vec::new(alloc);
        let mut heads = Vec::new(alloc);
        let placed = place_clauses(alloc, &clauses, &mut code, &mut bodies, &mut heads)?;
        let index = ClauseIndex::new(alloc, heads)?;
        Ok(Text {
            code: Arc::new(alloc, code)?,
            bodies,
            clauses,
            placed,
            index,
        })
    }

    /// The places, shared.
    pub fn code(&self) -> Result<Arc<Code>, NoMemory>
        ensures { IfOk result (λ code. arc_value code ≡ self.now.code) }
    {
        Ok(Arc::try_clone(&self.code)?)
    }

    /// How many clauses there are.
    pub fn clauses(&self) -> usize
        ensures { result ≡ length self.now.clauses }
    {
        self.clauses.len()
    }

    /// Where a clause is, by its number. Each compound's arguments stand before it.
    #[inline(always)]
    pub fn placed(&self, number: u32) -> PlacedClause
        requires { number < length self.now.clauses }
        ensures clause { (c : ClauseTerms) → slice_get self.now.clauses number ≡ Some c → IsPlacedClause self.now.code self.now.bodies c result }
        ensures sound { AreSound (length self.now.code.names) self.now.code.places }
    {
        // The proof reads off that the arguments of compounds stand before them.
        let _places = self.code.len();
        self.placed[number as usize]
    }

    /// Whether a clause's head has this name and number of arguments.
    #[inline(always)]
    pub(crate) fn has_head(&self, name: u32, arity: u32) -> bool
        ensures any { result ≡ list_any (is_head_of name arity) self.now.heads }
        ensures heads { AreHeadKeys self.now.code.names self.now.clauses self.now.heads }
    {
        self.index.is_defined(name, arity)
    }

    /// The clauses that a goal with this name, number of arguments and first key may match.
    #[inline(always)]
    pub(crate) fn candidates(&self, name: u32, arity: u32, key: Option<NumberKey>) -> Cursor
        ensures numbers { numbers_left self.now.heads result ≡ numbers (can_match name arity key) self.now.heads }
        ensures cursor { IsCursorOf self.now.heads result }
        ensures heads { AreHeadKeys self.now.code.names self.now.clauses self.now.heads }
    {
        self.index.candidates(name, arity, key)
    }

    /// The clause that a cursor has left, where that is one alone.
    #[inline(always)]
    pub(crate) fn only(&self, left: Cursor) -> Option<u32>
        requires { IsCursorOf self.now.heads left }
        ensures only { result ≡ only_of (numbers_left self.now.heads left) }
        ensures there { IfSome result (λ clause. clause < length self.now.clauses) }
    {
        self.index.only(left)
    }

    /// Takes the first clause off those that a cursor has left.
    #[inline]
    pub fn take(&self, left: &mut Cursor) -> Option<u32>
        requires { IsCursorOf self.now.heads left.old }
        ensures taken { MatchOption result ((numbers_left self.now.heads left.old ≡ []) × (left.new ≡ left.old)) (TakesLeast self.now.heads left.old left.new) }
        ensures many { length self.now.heads ≡ length self.now.clauses }
    {
        self.index.take(left)
    }

    /// The key of an argument of a clause's head, counted from 0; none for a variable, and where there is no such argument.
    #[inline]
    pub(crate) fn argument_key(&self, clause: u32, i: u32) -> Option<NumberKey>
        requires { clause < length self.now.clauses }
        ensures there { IsKeyAmong self.now.code.names result }
        ensures key { (c : ClauseTerms) → slice_get self.now.clauses clause ≡ Some c → named_key self.now.code.names result ≡ key_of (argument i c.head) }
    {
        argument_key(&self.code, self.placed(clause).head, i)
    }

    /// The item at a place of the bodies, if it is there.
    #[inline(always)]
    pub fn get(&self, at: u32) -> Option<BodyItem>
        ensures { result ≡ slice_get self.now.bodies at }
    {
        self.bodies.get(at as usize).copied()
    }
}

/// Adds clauses with the numbers of their heads, and gives where each is.
fn place_clauses(
    alloc: Global,
    clauses: &[Arc<Clause>],
    code: &mut Code,
    bodies: &mut Vec<BodyItem>,
    heads: &mut Vec<HeadKey>,
) -> Result<Vec<PlacedClause>, NoMemory>
    requires { heads.old.items ≡ [] }
    ensures placed { IfOk result (λ placed. ArePlacedClauses code.new bodies.new.items (map arc_value clauses.now) placed.items) }
    ensures heads { OnOk result (AreHeadKeys code.new.names (map arc_value clauses.now) heads.new.items) }
{
    let mut placed = Vec::new(alloc);
    let mut last = None;
    for clause in clauses {
        let place = place_clause(alloc, clause, code, bodies, &mut last)?;
        heads.push(HeadKey::of_head(code, place.head))?;
        placed.push(place)?;
    }
    Ok(placed)
}

/// Adds a clause, and gives where it is. The keys are those of the last one that was added.
fn place_clause(
    alloc: Global,
    clause: &Clause,
    code: &mut Code,
    bodies: &mut Vec<BodyItem>,
    last: &mut Option<LaterKeys>,
) -> Result<PlacedClause, NoMemory>
    ensures { IfOk result (AddsClause code.old code.new bodies.old.items bodies.new.items clause.now) }
{
    let body = bodies.len();
    // The proof reads off that a head is callable.
    let _head = clause.head();
    let places = code.push_clause(alloc, clause)?;
    if body > u32::MAX as usize || places.vars > u32::MAX as u64 {
        return Err(NoMemory);
    }
    push_body(&places.goals, bodies)?;
    let keyed = first_keyed_argument(code, places.head);
    let (keyed_from, keyed_to) = arguments_after(code, places.head, keyed);
    let inner = first_inner_constant(code, places.head);
    let is_alike = is_like_last(code, places.head, inner, last);
    Ok(PlacedClause {
        head: places.head,
        body: body as u32,
        vars: places.vars as u32,
        keyed,
        keyed_from,
        keyed_to,
        inner,
        is_alike,
    })
}

/// Whether the head at a place has the keys of the last one, in whose place it stands then.
fn is_like_last(
    code: &Code,
    head: Place,
    inner: Option<InnerConstant>,
    last: &mut Option<LaterKeys>,
) -> bool
    requires { IsPlaceOf code.now head }
{
    let keys = Some(later_keys(code, head, inner));
    let is_same = *last == keys;
    *last = keys;
    is_same
}

/// The functor of the head at a place, and what else tells it apart.
fn later_keys(code: &Code, head: Place, inner: Option<InnerConstant>) -> LaterKeys
    requires { IsPlaceOf code.now head }
{
    LaterKeys {
        functor: NumberKey::of_place(code, head),
        second: argument_key(code, head, 1),
        third: argument_key(code, head, 2),
        fourth: argument_key(code, head, 3),
        inner,
    }
}

/// The first of a head's second to fourth arguments that has a key, if one has.
fn first_keyed_argument(code: &Code, head: Place) -> Option<KeyedArgument>
    requires { IsPlaceOf code.now head }
    ensures { IsKeyedArgument code.now.names (meaning_in code.now head) result }
{
    for number in 1..4 {
        if let Some(key) = argument_key(code, head, number) {
            return Some(KeyedArgument { number, key });
        }
    }
    None
}

/// The first of a head's arguments after that one which has a key, counted from 0, and the one after the last that has.
fn arguments_after(code: &Code, head: Place, keyed: Option<KeyedArgument>) -> (u32, u32)
    requires { IsPlaceOf code.now head }
{
    let Some(first) = keyed else {
        return (0, 0);
    };
    let mut from = 4;
    let mut to = 0;
    for i in 2..4 {
        if i > first.number && argument_key(code, head, i).is_some() {
            from = from.min(i);
            to = i + 1;
        }
    }
    (from, to)
}

/// The first constant among the arguments of the first four arguments of a head, if there is one.
fn first_inner_constant(code: &Code, head: Place) -> Option<InnerConstant>
    requires { IsPlaceOf code.now head }
    ensures { IsInnerConstant code.now.names (meaning_in code.now head) result }
{
    for of in 0..4 {
        for number in 0..arguments_of_argument(code, head, of) {
            if let Some(key) = inner_key(code, head, of, number) {
                if is_constant(key) {
                    return Some(InnerConstant { of, number, key });
                }
            }
        }
    }
    None
}

/// How many arguments an argument of the term at a place has.
fn arguments_of_argument(code: &Code, term: Place, of: u32) -> u32
    requires { IsPlaceOf code.now term }
{
    match argument_key(code, term, of) {
        Some(NumberKey::Functor(_, count)) => count,
        _ => 0,
    }
}

/// Whether a key is that of an integer or an atom.
fn is_constant(key: NumberKey) -> bool {
    match key {
        NumberKey::Int(_) | NumberKey::Atom(_) => true,
        NumberKey::Functor(_, _) => false,
    }
}

/// Adds the body of these goals.
fn push_body(goals: &[Place], bodies: &mut Vec<BodyItem>) -> Result<(), NoMemory>
    ensures { OnOk result (bodies.new.items ≡ bodies.old.items ++ body_items goals.now) }
{
    for goal in goals {
        bodies.push(BodyItem::Goal(*goal))?;
    }
    bodies.push(BodyItem::BodyEnd)?;
    Ok(())
}

/// The key of an argument of the term at a place, counted from 0; none for a variable, and where there is no such argument.
#[inline]
fn argument_key(code: &Code, term: Place, i: u32) -> Option<NumberKey>
    requires { IsPlaceOf code.now term }
    ensures there { IsKeyAmong code.now.names result }
    ensures key { named_key code.now.names result ≡ key_of (argument i (meaning_in code.now term)) }
{
    match argument_place(code, term, i) {
        Some(place) => NumberKey::of_place(code, place),
        None => None,
    }
}

/// The key of an argument of an argument of the term at a place.
fn inner_key(code: &Code, term: Place, of: u32, number: u32) -> Option<NumberKey>
    requires { IsPlaceOf code.now term }
    ensures there { IsKeyAmong code.now.names result }
    ensures key { named_key code.now.names result ≡ key_of (argument number (argument of (meaning_in code.now term))) }
{
    match argument_place(code, term, of) {
        Some(place) => argument_key(code, place, number),
        None => None,
    }
}

/// The place of an argument of the term at a place, counted from 0, if there is such an argument.
#[inline(always)]
fn argument_place(code: &Code, term: Place, i: u32) -> Option<Place>
    requires { IsPlaceOf code.now term }
    ensures { IsArgumentPlace code.now (meaning_in code.now term) i result }
{
    match term {
        Place::Sub(at) | Place::Ground(at) => argument_place_in(code, at, i),
        _ => None,
    }
}

/// The place of an argument of the compound at a place.
#[inline(always)]
fn argument_place_in(code: &Code, at: usize, i: u32) -> Option<Place>
    requires { IsPlaceOf code.now (Place.Sub at) }
    ensures { IsArgumentPlace code.now (meaning_in code.now (Place.Sub at)) i result }
{
    // The proof reads off that the arguments of compounds stand before them.
    let _places = code.len();
    let Place::Functor(_, count) = code.place(at) else {
        unreachable!()
    };
    if i >= count {
        return None;
    }
    Some(code.place(at + 1 + i as usize))
}
