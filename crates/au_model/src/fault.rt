//! The errors that a goal raises (ISO/IEC 13211-1, 7.12.2).

ghost use Rattle.std.specs.Prelude.{◌≡◌, IfOk};
ghost use Rattle.std.specs.Str.{IsAscii};
ghost use Rattle.au_term.specs.Term.{AtomTerm};
ghost use Rattle.au_model.specs.Terms.Forms.{binary};
ghost use Rattle.au_model.specs.Terms.ErrorTerms.{error_term, permission_error};
ghost use Rattle.au_model.specs.Terms.Faults.{type_word, domain_word, permission_error_of, limit_word, evaluation_word, error_term_of};

use crate::build::{atom, binary, compound, indicator, unary};
use au_term::{Atom, FlatTerm, NoMemory};
use std::alloc::Global;

/// What a term should have been.
#[derive(Clone, Copy, Debug, PartialEq, Eq)]
pub enum TypeName {
    Callable,
    Atom,
    Atomic,
    Integer,
    CompoundTerm,
    ProperList,
    Pair,
    Character,
    PredicateIndicator,
    Evaluable,
}

/// The set that a term of the right type should have been in.
#[derive(Clone, Copy, Debug, PartialEq, Eq)]
pub enum DomainName {
    Order,
    NotLessThanZero,
    NonEmptyList,
    OperatorPriority,
    OperatorSpecifier,
    ExitStatus,
}

/// What may not be done, and to what.
#[derive(Clone, Copy, Debug, PartialEq, Eq)]
pub enum PermissionName {
    ModifyStaticProcedure,
    AccessPrivateProcedure,
    ModifyOperator,
    CreateOperator,
}

/// The limit that was passed.
#[derive(Clone, Copy, Debug, PartialEq, Eq)]
pub enum LimitName {
    MaxArity,
    CharacterCode,
}

/// Why an expression has no value.
#[derive(Clone, Copy, Debug, PartialEq, Eq)]
pub enum EvalName {
    IntOverflow,
    ZeroDivisor,
    Undefined,
}

/// An error, with its culprit where it has one: a term, or a procedure's name and number of
/// arguments. `Syntax` is of a text that is no number.
#[derive(Drop)]
pub enum Fault {
    Instantiation,
    WrongType(TypeName, FlatTerm),
    Domain(DomainName, FlatTerm),
    Existence(Atom, u32),
    Permission(PermissionName, FlatTerm),
    Representation(LimitName),
    Evaluation(EvalName),
    Syntax,
}

impl TypeName {
    /// The word for it in an error term.
    fn word(self) -> &'static str
        ensures word { result.now ≡ type_word self }
        ensures ascii { IsAscii result.now }
    {
        match self {
            TypeName::Callable => "callable",
            TypeName::Atom => "atom",
            TypeName::Atomic => "atomic",
            TypeName::Integer => "integer",
            TypeName::CompoundTerm => "compound",
            TypeName::ProperList => "list",
            TypeName::Pair => "pair",
            TypeName::Character => "character",
            TypeName::PredicateIndicator => "predicate_indicator",
            TypeName::Evaluable => "evaluable",
        }
    }
}

impl DomainName {
    /// The word for it in an error term.
    fn word(self) -> &'static str
        ensures word { result.now ≡ domain_word self }
        ensures ascii { IsAscii result.now }
    {
        match self {
            DomainName::Order => "order",
            DomainName::NotLessThanZero => "not_less_than_zero",
            DomainName::NonEmptyList => "non_empty_list",
            DomainName::OperatorPriority => "operator_priority",
            DomainName::OperatorSpecifier => "operator_specifier",
            DomainName::ExitStatus => "exit_status",
        }
    }
}

impl LimitName {
    /// The word for it in an error term.
    fn word(self) -> &'static str
        ensures word { result.now ≡ limit_word self }
        ensures ascii { IsAscii result.now }
    {
        match self {
            LimitName::MaxArity => "max_arity",
            LimitName::CharacterCode => "character_code",
        }
    }
}

impl EvalName {
    /// The word for it in an error term.
    fn word(self) -> &'static str
        ensures word { result.now ≡ evaluation_word self }
        ensures ascii { IsAscii result.now }
    {
        match self {
            EvalName::IntOverflow => "int_overflow",
            EvalName::ZeroDivisor => "zero_divisor",
            EvalName::Undefined => "undefined",
        }
    }
}

impl Fault {
    /// The error term, with the name and number of arguments of the goal that raised it.
    pub fn term(&self, alloc: Global, name: &Atom, arity: u32) -> Result<FlatTerm, NoMemory>
        ensures { IfOk result (λ t. t ≡ error_term (error_term_of self.now) name.now arity) }
    {
        let error = self.error(alloc)?;
        binary(alloc, "error", &error, &indicator(alloc, name, arity)?)
    }

    /// The error term without the goal that raised it.
    fn error(&self, alloc: Global) -> Result<FlatTerm, NoMemory>
        ensures { IfOk result (λ t. t ≡ error_term_of self.now) }
    {
        match self {
            Fault::Instantiation => atom(alloc, "instantiation_error"),
            Fault::WrongType(name, culprit) => about(alloc, "type_error", name.word(), culprit),
            Fault::Domain(name, culprit) => about(alloc, "domain_error", name.word(), culprit),
            Fault::Existence(name, arity) => about(
                alloc,
                "existence_error",
                "procedure",
                &indicator(alloc, name, *arity)?,
            ),
            Fault::Permission(name, culprit) => refused(alloc, *name, culprit),
            Fault::Representation(name) => unary(
                alloc,
                "representation_error",
                &atom(alloc, name.word())?,
            ),
            Fault::Evaluation(name) => {
                unary(alloc, "evaluation_error", &atom(alloc, name.word())?)
            }
            Fault::Syntax => unary(alloc, "syntax_error", &atom(alloc, "illegal_number")?),
        }
    }
}

/// An error of this name about a word and a culprit.
fn about(alloc: Global, name: &str, word: &str, culprit: &FlatTerm) -> Result<FlatTerm, NoMemory>
    requires name { IsAscii name.now }
    requires word { IsAscii word.now }
    ensures { IfOk result (λ t. t ≡ binary name.now (AtomTerm word.now) culprit.now) }
{
    binary(alloc, name, &atom(alloc, word)?, culprit)
}

/// The error of what may not be done to a culprit.
fn refused(alloc: Global, name: PermissionName, culprit: &FlatTerm) -> Result<FlatTerm, NoMemory>
    ensures { IfOk result (λ t. t ≡ permission_error_of name culprit.now) }
{
    let (action, object) = match name {
        PermissionName::ModifyStaticProcedure => ("modify", "static_procedure"),
        PermissionName::AccessPrivateProcedure => ("access", "private_procedure"),
        PermissionName::ModifyOperator => ("modify", "operator"),
        PermissionName::CreateOperator => ("create", "operator"),
    };
    permission_error(alloc, action, object, culprit)
}

/// The permission error of an action, an object and a culprit.
fn permission_error(
    alloc: Global,
    action: &str,
    object: &str,
    culprit: &FlatTerm,
) -> Result<FlatTerm, NoMemory>
    requires action { IsAscii action.now }
    requires object { IsAscii object.now }
    ensures { IfOk result (λ t. t ≡ permission_error action.now object.now culprit.now) }
{
    let (action, object) = (atom(alloc, action)?, atom(alloc, object)?);
    compound(
        alloc,
        Atom::ascii(alloc, "permission_error")?,
        &[&action, &object, culprit],
    )
}
