//! Terms as sentences of a text.
ghost use Rattle.std.specs.Prelude.{◌≡◌, ◌<◌, IfOk, map};
ghost use Rattle.run_model.specs.Programs.Jobs.{names_bound};
ghost use Rattle.au_term.specs.Term.{argument, argument_count};
ghost use Rattle.au_model.specs.Terms.Named.{variable_meant};
ghost use Rattle.text_load.specs.LoadedSentences.{IsSentenceOf};
ghost use Rattle.text_load.specs.SentenceForms.{sentence_form_of_cell, compound_form};
ghost use Rattle.text_load.specs.Sentences.{may_head, clause_of, directive_with, query_with, sentence_of};
ghost use Rattle.text_load.specs.Directives.{directive_of};
ghost use Rattle.run_model.specs.Programs.Bodies.{called_goals};

use crate::directive::{Directive, argument, directive_of};
use crate::query::Query;
use au_model::build::atom;
use au_model::{FaultKind, VarName};
use au_term::{Atom, Cell, FlatTerm, NoMemory, Shared, VarNo};
use clause_compile::{Clause, ClauseRefusal, Goals, Scope, body_goals, compile};
use std::alloc::Global;
use std::sync::Arc;
use std_builtins::is_reserved;

/// What a term of a text is.
#[derive(Drop)]
pub(crate) enum Sentence {
    Clause(Arc<Clause>),
    Query(Query),
    Directive(Directive),
    Refused(FaultKind),
}

/// What a term with its end is, and its named variables.
pub(crate) fn sentence_of(
    alloc: Global,
    term: FlatTerm,
    names: Vec<VarName>,
) -> Result<Sentence, NoMemory>
    ensures { IfOk result (IsSentenceOf (sentence_of (map variable_meant names.items) term)) }
{
    let form = form_of(term.top());
    match form {
        Form::Query => asked(alloc, term, names),
        Form::Directive => directive(alloc, &term),
        Form::Rule => rule(alloc, term),
        Form::Fact => clause(alloc, &term, &atom(alloc, "true")?),
    }
}

/// How a term of a text is written.
#[derive(Clone, Copy)]
pub(crate) enum Form {
    Query,
    Directive,
    Rule,
    Fact,
}

/// The form of a term by its first cell.
fn form_of(top: &Cell) -> Form
    ensures { result ≡ sentence_form_of_cell top.now }
{
    match top {
        Cell::Functor(name, arity) => {
            compound_form(*arity, name.is_text("?-"), name.is_text(":-"))
        }
        _ => Form::Fact,
    }
}

/// The form of a compound, by its number of arguments, and by whether its name asks or is that of a rule.
fn compound_form(arity: u32, asks: bool, rules: bool) -> Form
    ensures { result ≡ compound_form arity asks rules }
{
    if arity == 1 && asks {
        Form::Query
    } else if arity == 1 && rules {
        Form::Directive
    } else if arity == 2 && rules {
        Form::Rule
    } else {
        Form::Fact
    }
}

/// The query that is in a term.
fn asked(alloc: Global, term: FlatTerm, names: Vec<VarName>) -> Result<Sentence, NoMemory>
    requires { 0 < argument_count term }
    ensures { IfOk result (IsSentenceOf (query_with (map variable_meant names.items) (called_goals (argument 0 term)))) }
{
    let term = Shared::from_term(alloc, term)?;
    let body = term.argument(0)?;
    query(alloc, &body, names)
}

/// The directive that is in a term.
fn directive(alloc: Global, term: &FlatTerm) -> Result<Sentence, NoMemory>
    requires { 0 < argument_count term.now }
    ensures { IfOk result (IsSentenceOf (directive_with (directive_of (argument 0 term.now)))) }
{
    match directive_of(alloc, &argument(alloc, term, 0)?)? {
        Some(directive) => Ok(Sentence::Directive(directive)),
        None => Ok(Sentence::Refused(FaultKind::BadDirective)),
    }
}

/// The clause of a head and a body that are in one term.
fn rule(alloc: Global, term: FlatTerm) -> Result<Sentence, NoMemory>
    requires { 1 < argument_count term }
    ensures { IfOk result (IsSentenceOf (clause_of (argument 0 term) (argument 1 term))) }
{
    let term = Shared::from_term(alloc, term)?;
    let head = term.argument(0)?.to_term(alloc)?;
    let body = term.argument(1)?.to_term(alloc)?;
    clause(alloc, &head, &body)
}

/// The clause of a head and a body.
fn clause(alloc: Global, head: &FlatTerm, body: &FlatTerm) -> Result<Sentence, NoMemory>
    ensures { IfOk result (IsSentenceOf (clause_of head.now body.now)) }
{
    if !may_head(head) {
        return Ok(Sentence::Refused(FaultKind::BadClause));
    }
    match compile(alloc, head, body) {
        Ok(clause) => Ok(Sentence::Clause(clause)),
        Err(ClauseRefusal::NoMemory) => Err(NoMemory),
        Err(_) => Ok(Sentence::Refused(FaultKind::BadClause)),
    }
}

/// Whether a text may define the procedure of a head.
fn may_head(head: &FlatTerm) -> bool
    ensures { result ≡ may_head head.now }
{
    match head.top() {
        Cell::Atom(name) => !is_reserved(name.text(), 0),
        Cell::Functor(name, arity) => !is_reserved(name.text(), *arity),
        _ => false,
    }
}

/// The query of a body and its named variables.
fn query(alloc: Global, body: &Shared, names: Vec<VarName>) -> Result<Sentence, NoMemory>
    ensures { IfOk result (IsSentenceOf (query_with (map variable_meant names.items) (called_goals body.now))) }
{
    match body_goals(alloc, body, Scope::Local(0), &Goals::empty()) {
        Ok(goals) => {
            let vars = body.to_term(alloc)?.bound().max(names_bound(&names)?);
            Ok(Sentence::Query(Query::new(goals, names, vars)))
        }
        Err(ClauseRefusal::NoMemory) => Err(NoMemory),
        Err(_) => Ok(Sentence::Refused(FaultKind::BadClause)),
    }
}

/// The least number above all named variables.
fn names_bound(names: &[VarName]) -> Result<VarNo, NoMemory>
    ensures { IfOk result (λ bound. bound ≡ names_bound (map variable_meant names.now)) }
{
    let mut bound = 0;
    for name in names {
        bound = name.number.checked_add(1).ok_or(NoMemory)?.max(bound);
    }
    Ok(bound)
}
