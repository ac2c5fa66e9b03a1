//! Directives (ISO/IEC 13211-1, 7.4.2).
ghost use Rattle.std.specs.Prelude.{◌≡◌, ◌<◌, ◌≤◌, IfOk, length, option_map};
ghost use Rattle.std.specs.Str.{IsAscii};
ghost use Rattle.au_term.specs.Term.{argument, argument_count};
ghost use Rattle.au_term.specs.PrefixOrder.{cells_of, subterm, top_of};
ghost use Rattle.run_model.specs.Programs.Bodies.{goals_of};
ghost use Rattle.text_load.specs.Directives.{MakesDynamic, LetsStandApart, definable, directive_of, indicator_in, indicator_with, indicators_in, has_indicator, listed_parts, quotes_named};
ghost use Rattle.text_load.specs.DirectiveCells.{quotes_by};
ghost use Rattle.text_load.specs.LoadedSentences.{directive_meant};

use au_model::DoubleQuotes;
use au_model::lists::{ListForm, list_form};
use au_term::{Atom, Cell, FlatTerm, NoMemory};
use clause_compile::goal_places;
use dyn_clauses::Indicator;
use std::alloc::Global;
use std_builtins::is_reserved;

/// What a directive asks for.
#[derive(Drop)]
pub(crate) enum Directive {
    Dynamic(Vec<Indicator>),
    Discontiguous(Vec<Indicator>),
    Op {
        priority: FlatTerm,
        specifier: FlatTerm,
        names: FlatTerm,
    },
    Quotes(DoubleQuotes),
}

/// The greatest number of arguments.
const MAX_ARITY: i64 = 65_535;

/// What a term asks for as a directive; none where it is none.
pub(crate) fn directive_of(alloc: Global, term: &FlatTerm) -> Result<Option<Directive>, NoMemory>
    ensures { IfOk result (λ d. option_map directive_meant d ≡ directive_of term.now) }
{
    if has_indicator(term, "dynamic", 1) {
        let procedures = indicators_in(alloc, &argument(alloc, term, 0)?)?;
        return Ok(dynamic(procedures));
    }
    if has_indicator(term, "discontiguous", 1) {
        let procedures = indicators_in(alloc, &argument(alloc, term, 0)?)?;
        return Ok(discontiguous(procedures));
    }
    if has_indicator(term, "op", 3) {
        return Ok(Some(Directive::Op {
            priority: argument(alloc, term, 0)?,
            specifier: argument(alloc, term, 1)?,
            names: argument(alloc, term, 2)?,
        }));
    }
    if has_indicator(term, "set_prolog_flag", 2) {
        return Ok(quotes_set(argument_top(term, 0), argument_top(term, 1)));
    }
    Ok(None)
}

/// Whether a term is a compound of this name with so many arguments.
fn has_indicator(term: &FlatTerm, name: &str, arity: u32) -> bool
    requires ascii { IsAscii name.now }
    requires some { 0 < arity }
    ensures { result ≡ has_indicator term.now name.now arity }
{
    match term.top() {
        Cell::Functor(own, count) => *count == arity && own.is_text(name),
        _ => false,
    }
}

/// An argument, with cells of its own.
pub(crate) fn argument(alloc: Global, term: &FlatTerm, i: u32) -> Result<FlatTerm, NoMemory>
    requires { i < argument_count term.now }
    ensures { IfOk result (λ t. t ≡ argument i term.now) }
{
    FlatTerm::from_slice(alloc, term.arg(i))
}

/// The first cell of an argument.
fn argument_top(term: &FlatTerm, i: u32) -> &Cell
    requires { i < argument_count term.now }
    ensures { result.now ≡ top_of (argument i term.now) }
{
    &term.arg(i)[0]
}

/// The directive that makes procedures dynamic.
fn dynamic(procedures: Option<Vec<Indicator>>) -> Option<Directive>
    ensures { option_map directive_meant result ≡ option_map MakesDynamic (option_map (λ is. is.items) procedures) }
{
    match procedures {
        Some(procedures) => Some(Directive::Dynamic(procedures)),
        None => None,
    }
}

/// The directive that lets clauses of procedures stand apart.
fn discontiguous(procedures: Option<Vec<Indicator>>) -> Option<Directive>
    ensures { option_map directive_meant result ≡ option_map LetsStandApart (option_map (λ is. is.items) procedures) }
{
    match procedures {
        Some(procedures) => Some(Directive::Discontiguous(procedures)),
        None => None,
    }
}

/// The directive that sets the flag `double_quotes`, by the first cells of its arguments.
fn quotes_set(flag: &Cell, value: &Cell) -> Option<Directive>
    ensures { option_map directive_meant result ≡ quotes_by flag.now value.now }
{
    match (flag, value) {
        (Cell::Atom(flag), Cell::Atom(value)) if flag.is_text("double_quotes") => {
            match quotes_named(value) {
                Some(quotes) => Some(Directive::Quotes(quotes)),
                None => None,
            }
        }
        _ => None,
    }
}

/// The value of the flag `double_quotes` with this name.
fn quotes_named(name: &Atom) -> Option<DoubleQuotes>
    ensures { result ≡ quotes_named name.now }
{
    if name.is_text("codes") {
        Some(DoubleQuotes::Codes)
    } else if name.is_text("chars") {
        Some(DoubleQuotes::Chars)
    } else if name.is_text("atom") {
        Some(DoubleQuotes::Atom)
    } else {
        None
    }
}

/// The procedures of one indicator, of a conjunction or of a list of them; none where a part is no indicator.
fn indicators_in(alloc: Global, term: &FlatTerm) -> Result<Option<Vec<Indicator>>, NoMemory>
    ensures { IfOk result (λ is. option_map (λ v. v.items) is ≡ indicators_in term.now) }
{
    let parts = listed_parts(alloc, term)?;
    let mut procedures = Vec::new(alloc);
    for part in &parts {
        let Some(procedure) = indicator_in(part)? else {
            return Ok(None);
        };
        procedures.push(procedure)?;
    }
    Ok(Some(procedures))
}

/// The items of a list, or else the parts of a conjunction.
fn listed_parts(alloc: Global, term: &FlatTerm) -> Result<Vec<FlatTerm>, NoMemory>
    ensures { IfOk result (λ parts. parts.items ≡ listed_parts term.now) }
{
    match list_form(alloc, term)? {
        ListForm::Proper(items) => Ok(items),
        ListForm::Partial(_items) => conjuncts(alloc, term),
        ListForm::NoList => conjuncts(alloc, term),
    }
}

/// The parts of a conjunction.
fn conjuncts(alloc: Global, term: &FlatTerm) -> Result<Vec<FlatTerm>, NoMemory>
    ensures { IfOk result (λ parts. parts.items ≡ goals_of term.now) }
{
    let places = goal_places(alloc, term)?;
    let mut parts = Vec::new(alloc);
    for place in &places {
        parts.push(part_at(alloc, term, *place)?)?;
    }
    Ok(parts)
}

/// The subterm at a place, with cells of its own.
fn part_at(alloc: Global, term: &FlatTerm, at: usize) -> Result<FlatTerm, NoMemory>
    requires { at < length (cells_of term.now) }
    ensures { IfOk result (λ t. t ≡ subterm at term.now) }
{
    FlatTerm::from_slice(alloc, term.subterm(at))
}

/// The procedure of an indicator.
fn indicator_in(part: &FlatTerm) -> Result<Option<Indicator>, NoMemory>
    ensures { IfOk result (λ i. i ≡ indicator_in part.now) }
{
    if !has_indicator(part, "/", 2) {
        return Ok(None);
    }
    match (argument_top(part, 0), argument_top(part, 1)) {
        (Cell::Atom(name), Cell::Int(arity)) => indicator_with(name, arity),
        _ => Ok(None),
    }
}

/// The procedure with this name and number of arguments, where a text may define it.
fn indicator_with(name: &Atom, arity: &i64) -> Result<Option<Indicator>, NoMemory>
    ensures { IfOk result (λ i. i ≡ indicator_with name.now arity.now) }
{
    let arity = *arity;
    if arity < 0 || arity > MAX_ARITY {
        return Ok(None);
    }
    definable(name, arity as u32)
}

/// The procedure, where it is none of those that no text may define.
fn definable(name: &Atom, arity: u32) -> Result<Option<Indicator>, NoMemory>
    requires { arity ≤ 65535 }
    ensures { IfOk result (λ i. i ≡ definable name.now arity) }
{
    if is_reserved(name.text(), arity) {
        return Ok(None);
    }
    let name = name.share()?;
    Ok(Some(Indicator { name, arity }))
}
