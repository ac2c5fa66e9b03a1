//! What built-in predicates answer by the values of their arguments (ISO/IEC 13211-1, 8.2 to 8.7).
ghost use Rattle.std.specs.Prelude.{◌≡◌, ℕ, IfOk, MatchOption};
ghost use Rattle.std.specs.Str.{IsAscii};
ghost use Rattle.au_term.specs.Term.{AtomTerm};
ghost use Rattle.run_model.specs.Goals.ArithmeticGoals.{is_answer, comparison_answer};
ghost use Rattle.run_model.specs.Goals.BuiltinAnswers.{holds_if};
ghost use Rattle.run_model.specs.Goals.StandardOrder.{order};
ghost use Rattle.run_model.specs.Goals.TermParts.{argument_answer, functor_answer};
ghost use Rattle.run_model.specs.Goals.TermTests.{compare_answer, is_order_symbol, order_symbol};
ghost use Rattle.cell_store.specs.StoreView.{IsValueIn, meaning};
ghost use Rattle.std_builtins.specs.Meanings.{answer_of, arguments_of, order_test, type_test, value_test};
ghost use Rattle.region_control.specs.GoalForms.{argument_terms, AreArgumentsIn};
ghost use Rattle.region_builtins.specs.QuickAnswers.{IsQuickAnswer, IsRefusedBy, MakesOne};

use arith_eval::EvalRefusal;
use au_model::Fault;
use au_term::{Atom, NoMemory};
use binding_array::BindingCell;
use cell_store::Store;
use cell_store::arguments::Arguments;
use region_control::argument;
use std::alloc::Global;
use std::cmp::Ordering;
use std_builtins::{Builtin, Comparison, TypeTest};
use value_goals::type_tests::{
    integer_of, is_atom, is_atomic, is_callable, is_compound, is_integer, is_variable,
};
use value_goals::{
    are_identical, argument as numbered_argument, compare, compared_values, functor, is_ground,
    is_value, short_value,
};

/// What a goal answers by the values of its arguments.
#[derive(Drop)]
pub(crate) enum QuickAnswer {
    /// It holds once or fails.
    Holds(bool),
    /// It holds where two values are made one.
    Equal(BindingCell, BindingCell),
    /// It holds where two values are made one, and then two others.
    BothEqual((BindingCell, BindingCell), (BindingCell, BindingCell)),
    /// It holds where a value is made one with the symbol of an order.
    Ordered(BindingCell, Ordering),
    /// It holds where two atoms are the same.
    Alike(bool),
    /// It holds where two values have no unifier.
    Apart(BindingCell, BindingCell),
    Raises(Fault),
    /// Its arguments are to be resolved.
    Unknown,
}

/// The values that a goal makes one, where it does no more and they are known at once.
#[inline]
pub(crate) fn values_made_one(
    store: &Store,
    builtin: Builtin,
    arguments: Arguments,
) -> Option<(BindingCell, BindingCell)>
    requires there { AreArgumentsIn store.now arguments }
    requires count { arguments.count ≡ arguments_of builtin }
    ensures { MatchOption result (Unit {0}) (λ p. (next : ℕ) → MakesOne store.now p (answer_of builtin (argument_terms store.now arguments) next)) }
{
    match builtin {
        Builtin::Unify => {
            let left = argument(store, arguments, 0);
            Some((left, argument(store, arguments, 1)))
        }
        Builtin::Is => {
            let value = short_value(store, argument(store, arguments, 1))?;
            Some((argument(store, arguments, 0), BindingCell::Int(value)))
        }
        _ => None,
    }
}

/// Whether a goal holds, where it is a test and what it looks at tells at once.
#[inline]
pub(crate) fn test_holds(
    alloc: Global,
    store: &Store,
    builtin: Builtin,
    arguments: Arguments,
) -> Result<Option<bool>, NoMemory>
    requires there { AreArgumentsIn store.now arguments }
    requires count { arguments.count ≡ arguments_of builtin }
    ensures { IfOk result (λ o. MatchOption o (Unit {0}) (λ b. (next : ℕ) → answer_of builtin (argument_terms store.now arguments) next ≡ holds_if b)) }
{
    match builtin {
        Builtin::Value(test) => {
            let left = argument(store, arguments, 0);
            Ok(short_values_hold(store, test, left, argument(store, arguments, 1)))
        }
        Builtin::Order(test) => {
            let left = argument(store, arguments, 0);
            let holds = order_holds(alloc, store, test, left, argument(store, arguments, 1))?;
            Ok(Some(holds))
        }
        Builtin::Type(test) => {
            let holds = type_holds(alloc, store, test, argument(store, arguments, 0))?;
            Ok(Some(holds))
        }
        _ => Ok(None),
    }
}

/// Whether two expressions stand to one another in a way, where their values are known at once.
#[inline]
fn short_values_hold(
    store: &Store,
    test: Comparison,
    left: BindingCell,
    right: BindingCell,
) -> Option<bool>
    requires left { IsValueIn store.now left }
    requires right { IsValueIn store.now right }
    ensures { MatchOption result (Unit {0}) (λ b. comparison_answer (value_test test) (meaning store.now left) (meaning store.now right) ≡ holds_if b) }
{
    let left = short_value(store, left)?;
    let right = short_value(store, right)?;
    Some(test.holds(left, right))
}

/// Whether two terms stand to one another in a way. Whether they are the same needs no look at names.
#[inline]
fn order_holds(
    alloc: Global,
    store: &Store,
    test: Comparison,
    left: BindingCell,
    right: BindingCell,
) -> Result<bool, NoMemory>
    requires left { IsValueIn store.now left }
    requires right { IsValueIn store.now right }
    ensures { IfOk result (λ b. b ≡ order_test test (order (meaning store.now left) (meaning store.now right))) }
{
    match test {
        Comparison::Equal => are_identical(alloc, store, left, right),
        Comparison::NotEqual => Ok(!are_identical(alloc, store, left, right)?),
        _ => Ok(test.holds_of(compare(alloc, store, left, right)?)),
    }
}

/// What a built-in predicate answers, where its values tell.
pub(crate) fn quick_answer(
    alloc: Global,
    store: &Store,
    builtin: Builtin,
    arguments: Arguments,
) -> Result<QuickAnswer, NoMemory>
    requires there { AreArgumentsIn store.now arguments }
    requires count { arguments.count ≡ arguments_of builtin }
    ensures { IfOk result (λ q. (next : ℕ) → IsQuickAnswer store.now (answer_of builtin (argument_terms store.now arguments) next) q) }
{
    match builtin {
        Builtin::Differ => {
            let left = argument(store, arguments, 0);
            Ok(QuickAnswer::Apart(left, argument(store, arguments, 1)))
        }
        Builtin::Compare => {
            let symbol = argument(store, arguments, 0);
            let left = argument(store, arguments, 1);
            ordered(alloc, store, symbol, left, argument(store, arguments, 2))
        }
        Builtin::Is => {
            let left = argument(store, arguments, 0);
            is(alloc, store, left, argument(store, arguments, 1))
        }
        Builtin::Value(test) => {
            let left = argument(store, arguments, 0);
            values_compared(alloc, store, test, left, argument(store, arguments, 1))
        }
        Builtin::Functor => {
            let term = argument(store, arguments, 0);
            let name = argument(store, arguments, 1);
            Ok(functor_found(store, term, name, argument(store, arguments, 2)))
        }
        Builtin::Argument => {
            let number = argument(store, arguments, 0);
            let term = argument(store, arguments, 1);
            Ok(argument_found(store, number, term, argument(store, arguments, 2)))
        }
        _ => Ok(QuickAnswer::Unknown),
    }
}

/// Whether a value stands for a term that passes a test.
fn type_holds(
    alloc: Global,
    store: &Store,
    test: TypeTest,
    value: BindingCell,
) -> Result<bool, NoMemory>
    requires { IsValueIn store.now value }
    ensures { IfOk result (λ b. b ≡ type_test test (meaning store.now value)) }
{
    match test {
        TypeTest::Variable => Ok(is_variable(store, value)),
        TypeTest::Nonvariable => Ok(!is_variable(store, value)),
        TypeTest::Atom => Ok(is_atom(store, value)),
        TypeTest::Integer => Ok(is_integer(store, value)),
        TypeTest::Atomic => Ok(is_atomic(store, value)),
        TypeTest::Compound => Ok(is_compound(store, value)),
        TypeTest::Callable => Ok(is_callable(store, value)),
        TypeTest::Ground => is_ground(alloc, store, value),
    }
}

/// What `compare/3` answers, where a variable or a symbol stands for the order (Cor.2, 8.4.2).
fn ordered(
    alloc: Global,
    store: &Store,
    symbol: BindingCell,
    left: BindingCell,
    right: BindingCell,
) -> Result<QuickAnswer, NoMemory>
    requires symbol { IsValueIn store.now symbol }
    requires left { IsValueIn store.now left }
    requires right { IsValueIn store.now right }
    ensures { IfOk result (IsQuickAnswer store.now (compare_answer (meaning store.now symbol) (meaning store.now left) (meaning store.now right))) }
{
    match store.dereference(symbol) {
        BindingCell::Var(_) => {
            let ordering = compare(alloc, store, left, right)?;
            Ok(QuickAnswer::Ordered(symbol, ordering))
        }
        BindingCell::Atom(number) => atom_ordered(alloc, store, store.name(number), left, right),
        _ => Ok(QuickAnswer::Unknown),
    }
}

/// The same with the name of an atom.
fn atom_ordered(
    alloc: Global,
    store: &Store,
    name: &Atom,
    left: BindingCell,
    right: BindingCell,
) -> Result<QuickAnswer, NoMemory>
    requires left { IsValueIn store.now left }
    requires right { IsValueIn store.now right }
    ensures { IfOk result (IsQuickAnswer store.now (compare_answer (AtomTerm name.now) (meaning store.now left) (meaning store.now right))) }
{
    if !is_symbol(name) {
        return Ok(QuickAnswer::Unknown);
    }
    let ordering = compare(alloc, store, left, right)?;
    Ok(QuickAnswer::Alike(name.is_text(symbol_of(ordering))))
}

/// Whether a name is the symbol of an order.
fn is_symbol(name: &Atom) -> bool
    ensures { result ≡ is_order_symbol name.now }
{
    name.is_text("<") || name.is_text("=") || name.is_text(">")
}

/// The symbol of an order.
pub(crate) fn symbol_of(ordering: Ordering) -> &'static str
    ensures text { result.now ≡ order_symbol ordering }
    ensures ascii { IsAscii result.now }
{
    match ordering {
        Ordering::Less => "<",
        Ordering::Equal => "=",
        Ordering::Greater => ">",
    }
}

/// What `is/2` answers.
fn is(
    alloc: Global,
    store: &Store,
    left: BindingCell,
    expression: BindingCell,
) -> Result<QuickAnswer, NoMemory>
    requires left { IsValueIn store.now left }
    requires expression { IsValueIn store.now expression }
    ensures { IfOk result (IsQuickAnswer store.now (is_answer (meaning store.now left) (meaning store.now expression))) }
{
    match is_value(alloc, store, expression) {
        Ok(value) => Ok(QuickAnswer::Equal(left, value)),
        Err(refusal) => refused(refusal),
    }
}

/// What a comparison of values answers.
fn values_compared(
    alloc: Global,
    store: &Store,
    test: Comparison,
    left: BindingCell,
    right: BindingCell,
) -> Result<QuickAnswer, NoMemory>
    requires left { IsValueIn store.now left }
    requires right { IsValueIn store.now right }
    ensures { IfOk result (IsQuickAnswer store.now (comparison_answer (value_test test) (meaning store.now left) (meaning store.now right))) }
{
    match compared_values(alloc, store, left, right) {
        Ok((left, right)) => Ok(QuickAnswer::Holds(test.holds(left, right))),
        Err(refusal) => refused(refusal),
    }
}

/// The answer where there are no values.
fn refused(refusal: EvalRefusal) -> Result<QuickAnswer, NoMemory>
    ensures { IfOk result (IsRefusedBy refusal) }
{
    match refusal {
        EvalRefusal::Fault(fault) => Ok(QuickAnswer::Raises(fault)),
        EvalRefusal::NoMemory => Err(NoMemory),
    }
}

/// What `functor/3` answers with a term that is no variable (8.5.1).
#[tactic(auto, using(crate::proofs::QuickLemmas::functor_known))]
fn functor_found(
    store: &Store,
    term: BindingCell,
    name: BindingCell,
    arity: BindingCell,
) -> QuickAnswer
    requires term { IsValueIn store.now term }
    requires name { IsValueIn store.now name }
    requires arity { IsValueIn store.now arity }
    ensures { (next : ℕ) → IsQuickAnswer store.now (functor_answer (meaning store.now term) (meaning store.now name) (meaning store.now arity) next) result }
{
    match functor(store, term) {
        Some((found, count)) => {
            let count = BindingCell::Int(i64::from(count));
            QuickAnswer::BothEqual((name, found), (arity, count))
        }
        None => QuickAnswer::Unknown,
    }
}

/// What `arg/3` answers with a number and a compound.
fn argument_found(
    store: &Store,
    number: BindingCell,
    term: BindingCell,
    found: BindingCell,
) -> QuickAnswer
    requires number { IsValueIn store.now number }
    requires term { IsValueIn store.now term }
    requires found { IsValueIn store.now found }
    ensures { IsQuickAnswer store.now (argument_answer (meaning store.now number) (meaning store.now term) (meaning store.now found)) result }
{
    let Some(number) = integer_of(store, number) else {
        return QuickAnswer::Unknown;
    };
    let Ok(number) = u64::try_from(number) else {
        return QuickAnswer::Unknown;
    };
    if !is_compound(store, term) {
        return QuickAnswer::Unknown;
    }
    match numbered_argument(store, number, term) {
        Some(argument) => QuickAnswer::Equal(found, argument),
        None => QuickAnswer::Holds(false),
    }
}
