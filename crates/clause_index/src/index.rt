//! The index.
ghost use Rattle.std.specs.Prelude.{◌≡◌, ◌<◌, ◌∷◌, [], IfOk, IfSome, OnOk, MatchOption, Some, None, false, length, slice_get, slice_set};
ghost use Rattle.std.specs.List.{list_any};
ghost use Rattle.clause_index.specs.Classes.{is_of, is_head_of, can_match, procedure_class, key_class};
ghost use Rattle.clause_index.specs.Numbers.{first_from, numbers, only_of};
ghost use Rattle.clause_index.specs.Cursors.{IsCursorOf, IsNumberBelow, chain, numbers_left, TakesLeast};
ghost use Rattle.clause_index.specs.declared.cursor.Cursor.{Cursor as CursorValue};
ghost use Rattle.clause_index.specs.Chains.{IsChained, AreFirstsIn, AreFirstsOf, AreNamedFirsts, HasKeyed, is_one_of_two, LearnsKey, KnowKeysOf, LearnKeyOf};

use crate::cursor::Cursor;
use crate::key::{Class, HeadKey, NumberKey};
use au_term::NoMemory;
use std::alloc::Global;
use std::collections::BTreeMap;
use std::marker::Model;

/// The first clause of each class, by its number.
type Firsts = BTreeMap<Class, u32>;

/// The first clauses of a procedure of a name, with so many arguments: of all, of those without a first key, and of those
/// with two of its keys; and whether it has other keys than these.
#[derive(Clone, Copy, Debug)]
pub(crate) struct NamedFirsts {
    pub(crate) arity: u32,
    pub(crate) all: Option<u32>,
    pub(crate) without_key: Option<u32>,
    pub(crate) one: Option<(NumberKey, u32)>,
    pub(crate) other: Option<(NumberKey, u32)>,
    pub(crate) has_more: bool,
}

impl NamedFirsts {
    /// The first clause with a key, where the key is one of the two.
    #[inline(always)]
    fn with_key(&self, key: NumberKey) -> Option<u32>
        ensures some { IfSome result (λ number. HasKeyed self.now (key, number)) }
        ensures none { result ≡ None → is_one_of_two self.now key ≡ false }
    {
        match (self.one, self.other) {
            (Some((known, number)), _) if known == key => Some(number),
            (_, Some((known, number))) if known == key => Some(number),
            _ => None,
        }
    }

    /// The same, with a key of the procedure's: as one of the two, or it has more.
    fn and_key(self, name: u32, key: NumberKey, firsts: &Firsts) -> NamedFirsts
        requires { AreFirstsOf firsts.now name self }
        ensures firsts { AreFirstsOf firsts.now name result }
        ensures key { LearnsKey self key result }
    {
        if self.with_key(key).is_some() {
            return self;
        }
        let first = firsts.get(&Class::WithKey(name, self.arity, key)).copied();
        let mut more = self;
        match (self.one, self.other, first) {
            (None, _, Some(number)) => more.one = Some((key, number)),
            (_, None, Some(number)) => more.other = Some((key, number)),
            _ => more.has_more = true,
        }
        more
    }
}

/// An index of clauses. Contracts see the keys of their heads, in the order of the text.
#[derive(Drop)]
pub struct ClauseIndex {
    heads: Vec<HeadKey>,
    next_of_procedure: Vec<Option<u32>>,
    next_of_class: Vec<Option<u32>>,
    firsts: Firsts,
    /// For each name by its number one of its procedures, which is looked at before the map is searched.
    named: Vec<NamedFirsts>,
}

impl Model for ClauseIndex {
    ghost use Rattle.std.specs.Prelude.{List};
    ghost use Rattle.std.specs.Coded.{codes};
    ghost use Rattle.au_term.specs.PrefixOrder.{term_code};
    ghost use Rattle.clause_index.specs.declared.key.HeadKey.{HeadKey as HeadKeyValue};
    ghost use Rattle.clause_index.specs.Chains.{IsClauseIndexOf};

    ghost Value = { List HeadKeyValue };

    ghost coded = { Prim.hlevel (codes, term_code) };

    ghost view = { λ i. i.heads.items };

    ghost invariant = { λ i. IsClauseIndexOf i.heads.items i.next_of_procedure.items i.next_of_class.items i.firsts i.named.items };
}

impl ClauseIndex {
    /// The index of clauses with these heads.
    pub fn new(alloc: Global, heads: Vec<HeadKey>) -> Result<ClauseIndex, NoMemory>
        ensures { IfOk result (λ index. index ≡ heads.items) }
    {
        if heads.len() > u32::MAX as usize {
            return Err(NoMemory);
        }
        let mut next_of_procedure = Vec::new(alloc);
        let mut next_of_class = Vec::new(alloc);
        let mut firsts = BTreeMap::new(alloc);
        let mut from = heads.len();
        while from > 0 {
            from -= 1;
            let head = heads[from];
            let procedure = Class::Procedure(head.name, head.arity);
            link(from as u32, procedure, &mut firsts, &mut next_of_procedure)?;
            link(from as u32, head.class(), &mut firsts, &mut next_of_class)?;
        }
        next_of_procedure.reverse();
        next_of_class.reverse();
        let named = named_firsts(alloc, &heads, &firsts)?;
        Ok(ClauseIndex {
            heads,
            next_of_procedure,
            next_of_class,
            firsts,
            named,
        })
    }

    /// How many clauses there are.
    pub fn len(&self) -> usize
        ensures { result ≡ length self.now }
    {
        self.heads.len()
    }

    /// Whether a clause's head has this name and number of arguments.
    #[inline(always)]
    pub fn is_defined(&self, name: u32, arity: u32) -> bool
        ensures { result ≡ list_any (is_head_of name arity) self.now }
    {
        match self.entry(name, arity) {
            Some(firsts) => firsts.all.is_some(),
            None => self.first(Class::Procedure(name, arity)).is_some(),
        }
    }

    /// The clauses that a goal with this name, number of arguments and first key may match. A goal whose first argument is a
    /// variable, or that has none, has no key.
    #[inline(always)]
    pub fn candidates(&self, name: u32, arity: u32, key: Option<NumberKey>) -> Cursor
        ensures numbers { numbers_left self.now result ≡ numbers (can_match name arity key) self.now }
        ensures cursor { IsCursorOf self.now result }
    {
        match self.entry(name, arity) {
            Some(firsts) => self.candidates_among(name, arity, key, firsts),
            None => self.candidates_searched(name, arity, key),
        }
    }

    /// The same, by what is known at once of the procedure.
    #[inline(always)]
    fn candidates_among(
        &self,
        name: u32,
        arity: u32,
        key: Option<NumberKey>,
        firsts: &NamedFirsts,
    ) -> Cursor
        requires { AreFirstsIn self.now name arity firsts.now }
        ensures numbers { numbers_left self.now result ≡ numbers (can_match name arity key) self.now }
        ensures cursor { IsCursorOf self.now result }
    {
        match key {
            None => Cursor::All(firsts.all),
            Some(key) => Cursor::ByKey(
                firsts.without_key,
                self.first_with_key(name, arity, key, firsts),
            ),
        }
    }

    /// The same, by the map.
    #[inline(never)]
    fn candidates_searched(&self, name: u32, arity: u32, key: Option<NumberKey>) -> Cursor
        ensures numbers { numbers_left self.now result ≡ numbers (can_match name arity key) self.now }
        ensures cursor { IsCursorOf self.now result }
    {
        match key {
            None => Cursor::All(self.first(Class::Procedure(name, arity))),
            Some(key) => Cursor::ByKey(
                self.first(Class::WithoutKey(name, arity)),
                self.first(Class::WithKey(name, arity, key)),
            ),
        }
    }

    /// The number that a cursor has left, where that is one alone.
    #[inline(always)]
    pub fn only(&self, left: Cursor) -> Option<u32>
        requires { IsCursorOf self.now left }
        ensures only { result ≡ only_of (numbers_left self.now left) }
        ensures there { IfSome result (λ number. number < length self.now) }
    {
        match left {
            Cursor::All(None) => None,
            Cursor::All(Some(number)) => self.alone_in_procedure(number),
            Cursor::ByKey(without_key, with_key) => match (without_key, with_key) {
                (None, None) => None,
                (Some(number), None) => self.alone_in_class(number),
                (None, Some(number)) => self.alone_in_class(number),
                (Some(_first), Some(_other)) => None,
            },
        }
    }

    /// A clause, if it is the last of its procedure.
    #[inline(always)]
    fn alone_in_procedure(&self, number: u32) -> Option<u32>
        requires { number < length self.now }
        ensures only { result ≡ only_of (chain procedure_class self.now (Some number)) }
        ensures there { IfSome result (λ number. number < length self.now) }
    {
        match self.next_in_procedure(number) {
            Some(_) => None,
            None => Some(number),
        }
    }

    /// A clause, if it is the last of its class.
    #[inline(always)]
    fn alone_in_class(&self, number: u32) -> Option<u32>
        requires { number < length self.now }
        ensures only { result ≡ only_of (chain key_class self.now (Some number)) }
        ensures there { IfSome result (λ number. number < length self.now) }
    {
        match self.next_in_class(number) {
            Some(_) => None,
            None => Some(number),
        }
    }

    /// Takes the least number off those that a cursor has left.
    #[inline]
    pub fn take(&self, cursor: &mut Cursor) -> Option<u32>
        requires { IsCursorOf self.now cursor.old }
        ensures { MatchOption result ((numbers_left self.now cursor.old ≡ []) × (cursor.new ≡ cursor.old)) (TakesLeast self.now cursor.old cursor.new) }
    {
        match *cursor {
            Cursor::All(None) => None,
            Cursor::All(Some(number)) => {
                *cursor = Cursor::All(self.next_in_procedure(number));
                Some(number)
            }
            Cursor::ByKey(None, None) => None,
            Cursor::ByKey(Some(number), None) => {
                *cursor = Cursor::ByKey(self.next_in_class(number), None);
                Some(number)
            }
            Cursor::ByKey(None, Some(number)) => {
                *cursor = Cursor::ByKey(None, self.next_in_class(number));
                Some(number)
            }
            Cursor::ByKey(Some(left), Some(right)) => {
                let (number, rest) = self.least_of(left, right);
                *cursor = rest;
                Some(number)
            }
        }
    }

    /// The lesser of two clauses that are the first of their chains, and what is left after it.
    fn least_of(&self, left: u32, right: u32) -> (u32, Cursor)
        requires left { left < length self.now }
        requires right { right < length self.now }
        ensures { TakesLeast self.now (CursorValue.ByKey (Some left) (Some right)) result.1 result.0 }
    {
        if left < right {
            let next = self.next_in_class(left);
            return (left, Cursor::ByKey(next, Some(right)));
        }
        let next = self.next_in_class(right);
        (right, Cursor::ByKey(Some(left), next))
    }

    /// The next clause of a clause's procedure.
    #[inline(always)]
    fn next_in_procedure(&self, number: u32) -> Option<u32>
        requires { number < length self.now }
        ensures next { chain procedure_class self.now (Some number) ≡ number ∷ chain procedure_class self.now result }
        ensures below { IsNumberBelow (length self.now) result }
    {
        self.next_of_procedure[number as usize]
    }

    /// The next clause of a clause's class.
    #[inline(always)]
    fn next_in_class(&self, number: u32) -> Option<u32>
        requires { number < length self.now }
        ensures next { chain key_class self.now (Some number) ≡ number ∷ chain key_class self.now result }
        ensures below { IsNumberBelow (length self.now) result }
    {
        self.next_of_class[number as usize]
    }

    /// What is known at once of a procedure, if it is.
    #[inline(always)]
    fn entry(&self, name: u32, arity: u32) -> Option<&NamedFirsts>
        ensures { IfSome result (λ firsts. AreFirstsIn self.entry.now name arity firsts.now) }
    {
        match self.named.get(name as usize) {
            Some(firsts) if firsts.arity == arity => Some(firsts),
            _ => None,
        }
    }

    /// The first clause of a procedure whose head has a key, by what is known at once of the procedure.
    #[inline(always)]
    fn first_with_key(
        &self,
        name: u32,
        arity: u32,
        key: NumberKey,
        firsts: &NamedFirsts,
    ) -> Option<u32>
        requires { AreFirstsIn self.now name arity firsts.now }
        ensures { result ≡ first_from 0 (is_of (Class.WithKey name arity key)) self.now }
    {
        match firsts.with_key(key) {
            Some(number) => Some(number),
            None if firsts.has_more => self.first(Class::WithKey(name, arity, key)),
            None => None,
        }
    }

    /// The first clause of a class.
    #[inline(never)]
    fn first(&self, class: Class) -> Option<u32>
        ensures { result ≡ first_from 0 (is_of class) self.now }
    {
        self.firsts.get(&class).copied()
    }
}

/// Puts a clause in front of those of a class, and links it to the one that was the first.
fn link(
    number: u32,
    class: Class,
    firsts: &mut Firsts,
    links: &mut Vec<Option<u32>>,
) -> Result<(), NoMemory>
    ensures { OnOk result (IsChained number class firsts.old firsts.new links.old.items links.new.items) }
{
    let next = firsts.insert(class, number)?;
    links.push(next)?;
    Ok(())
}

/// The first clauses of one procedure of each name, up to the greatest number of a head's.
fn named_firsts(
    alloc: Global,
    heads: &[HeadKey],
    firsts: &Firsts,
) -> Result<Vec<NamedFirsts>, NoMemory>
    ensures firsts { IfOk result (λ named. AreNamedFirsts firsts.now named.items) }
    ensures keys { IfOk result (λ named. KnowKeysOf heads.now named.items) }
{
    let mut named = firsts_of_atoms(alloc, names_among(heads), firsts)?;
    for head in heads {
        put_firsts(
            head.name,
            firsts_of(head.name, head.arity, firsts),
            &mut named,
        );
    }
    put_keys(heads, firsts, &mut named);
    Ok(named)
}

/// Those of a name, if it has an entry.
fn firsts_at(named: &[NamedFirsts], name: u32) -> Option<NamedFirsts>
    ensures { result ≡ slice_get named.now name }
{
    named.get(name as usize).copied()
}

/// Puts these in place of those of a name, if it has an entry.
fn put_firsts(name: u32, firsts: NamedFirsts, named: &mut Vec<NamedFirsts>)
    ensures { named.new.items ≡ slice_set named.old.items name firsts }
{
    let at = name as usize;
    if at < named.len() {
        named[at] = firsts;
    }
}

/// Puts the first keys of procedures beside them.
fn put_keys(heads: &[HeadKey], firsts: &Firsts, named: &mut Vec<NamedFirsts>)
    requires { AreNamedFirsts firsts.now named.old.items }
    ensures firsts { AreNamedFirsts firsts.now named.new.items }
    ensures keys { KnowKeysOf heads.now named.new.items }
{
    for head in heads {
        put_key(*head, firsts, named);
    }
}

/// Puts the first key of a head beside those of its procedure, if that has an entry.
fn put_key(head: HeadKey, firsts: &Firsts, named: &mut Vec<NamedFirsts>)
    requires { AreNamedFirsts firsts.now named.old.items }
    ensures firsts { AreNamedFirsts firsts.now named.new.items }
    ensures key { LearnKeyOf head named.old.items named.new.items }
{
    let Some(key) = head.first else {
        return;
    };
    let Some(known) = firsts_at(named, head.name) else {
        return;
    };
    if known.arity == head.arity {
        put_firsts(head.name, known.and_key(head.name, key, firsts), named);
    }
}

/// A number that is greater than those of all heads' names, if there is one.
fn names_among(heads: &[HeadKey]) -> u32 {
    let mut names = 0;
    for head in heads {
        names = names.max(head.name.saturating_add(1));
    }
    names
}

/// The first clauses of the procedures without arguments.
fn firsts_of_atoms(alloc: Global, names: u32, firsts: &Firsts) -> Result<Vec<NamedFirsts>, NoMemory>
    ensures { IfOk result (λ named. AreNamedFirsts firsts.now named.items) }
{
    let mut named = Vec::new(alloc);
    for name in 0..names {
        named.push(firsts_of(name, 0, firsts))?;
    }
    Ok(named)
}

/// The first clauses of a procedure.
fn firsts_of(name: u32, arity: u32, firsts: &Firsts) -> NamedFirsts
    ensures { AreFirstsOf firsts.now name result }
{
    NamedFirsts {
        arity,
        all: firsts.get(&Class::Procedure(name, arity)).copied(),
        without_key: firsts.get(&Class::WithoutKey(name, arity)).copied(),
        one: None,
        other: None,
        has_more: false,
    }
}
