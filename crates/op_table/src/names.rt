//! The operators of each name.
ghost use Rattle.std.specs.Prelude.{◌≡◌, ℕ, List, true, fold, IsSome, OnErr, OnOk, chars, option_map};
ghost use Rattle.au_model.specs.Terms.Each.{Each};
ghost use Rattle.au_model.specs.Syntax.Operators.{operator_of};
ghost use Rattle.op_table.specs.OperatorView.{class_meant, operator_meant};
ghost use Rattle.op_table.specs.NameRows.{HasName, IsNames, fits_class, no_operators, of_class, row_changed, rows_of, with_class};

use crate::operator::{OpClass, Operator};
use au_term::{Atom, NoMemory};
use std::alloc::Global;
use std::collections::BTreeMap;

/// The operators of a name, one of each class.
#[derive(Clone, Copy)]
pub(crate) struct NameOperators {
    pub(crate) as_prefix: Option<Operator>,
    pub(crate) as_infix: Option<Operator>,
    pub(crate) as_postfix: Option<Operator>,
}

/// Names in the order of their characters. A name keeps its place when its operators are taken away.
pub(crate) type Names = BTreeMap<String, NameOperators>;

impl NameOperators {
    fn none() -> NameOperators
        ensures { result ≡ no_operators }
    {
        NameOperators {
            as_prefix: None,
            as_infix: None,
            as_postfix: None,
        }
    }

    /// The operator of a class.
    fn of(self, class: OpClass) -> Option<Operator>
        ensures { result ≡ of_class (class_meant class) self }
    {
        match class {
            OpClass::Prefix => self.as_prefix,
            OpClass::Infix => self.as_infix,
            OpClass::Postfix => self.as_postfix,
        }
    }

    /// The same with another operator of a class, or without one.
    fn with(self, class: OpClass, operator: Option<Operator>) -> NameOperators
        ensures { result ≡ with_class (class_meant class) operator self }
    {
        match class {
            OpClass::Prefix => NameOperators {
                as_prefix: operator,
                ..self
            },
            OpClass::Infix => NameOperators {
                as_infix: operator,
                ..self
            },
            OpClass::Postfix => NameOperators {
                as_postfix: operator,
                ..self
            },
        }
    }
}

/// The operator of a name in a class.
pub(crate) fn find(names: &Names, name: &str, class: OpClass) -> Option<Operator>
    requires { IsNames names.now }
    ensures { option_map operator_meant result ≡ operator_of (class_meant class) (rows_of names.now) (chars name.now) }
{
    names.get(name)?.of(class)
}

/// Makes a place for a name that has none.
fn make_place(alloc: Global, names: &mut Names, name: &str) -> Result<(), NoMemory>
    requires { IsNames names.old }
    ensures names { IsNames names.new }
    ensures rows { rows_of names.new ≡ rows_of names.old }
    ensures there { OnOk result (HasName names.new (chars name.now)) }
    ensures kept { (q : List ℕ) → HasName names.old q → HasName names.new q }
{
    if names.contains_key(name) {
        return Ok(());
    }
    names.insert(String::from_str(alloc, name)?, NameOperators::none())?;
    Ok(())
}

/// Makes places for names that have none, where they get an operator.
fn make_places(
    alloc: Global,
    names: &mut Names,
    wanted: &[Atom],
    operator: Option<Operator>,
) -> Result<(), NoMemory>
    requires { IsNames names.old }
    ensures names { IsNames names.new }
    ensures rows { rows_of names.new ≡ rows_of names.old }
    ensures there { OnOk result (IsSome operator → Each (HasName names.new) wanted.now) }
{
    if operator.is_none() {
        return Ok(());
    }
    for name in wanted {
        make_place(alloc, names, name.text())?;
    }
    Ok(())
}

/// Puts the operator of a name that has a place in its class, or takes it away.
fn set(names: &mut Names, name: &str, class: OpClass, operator: Option<Operator>)
    requires names { IsNames names.old }
    requires there { IsSome operator → HasName names.old (chars name.now) }
    requires class { fits_class (class_meant class) operator ≡ true }
    ensures names { IsNames names.new }
    ensures rows { rows_of names.new ≡ row_changed (class_meant class) operator (rows_of names.old) (chars name.now) }
    ensures kept { (q : List ℕ) → HasName names.old q → HasName names.new q }
{
    if let Some(operators) = names.get_mut(name) {
        *operators = operators.with(class, operator);
    }
}

/// Puts the operator of each of these names in its class, or takes it away.
fn set_all(names: &mut Names, changed: &[Atom], class: OpClass, operator: Option<Operator>)
    requires names { IsNames names.old }
    requires there { IsSome operator → Each (HasName names.old) changed.now }
    requires class { fits_class (class_meant class) operator ≡ true }
    ensures names { IsNames names.new }
    ensures rows { rows_of names.new ≡ fold (row_changed (class_meant class) operator) (rows_of names.old) changed.now }
{
    for name in changed {
        set(names, name.text(), class, operator);
    }
}

/// Gives each name this operator of the class, or takes its operator of the class away. Where memory runs out, no
/// operator has changed.
pub(crate) fn change(
    alloc: Global,
    names: &mut Names,
    changed: &[Atom],
    class: OpClass,
    operator: Option<Operator>,
) -> Result<(), NoMemory>
    requires names { IsNames names.old }
    requires class { fits_class (class_meant class) operator ≡ true }
    ensures names { IsNames names.new }
    ensures ok { OnOk result (rows_of names.new ≡ fold (row_changed (class_meant class) operator) (rows_of names.old) changed.now) }
    ensures err { OnErr result (rows_of names.new ≡ rows_of names.old) }
{
    make_places(alloc, names, changed, operator)?;
    set_all(names, changed, class, operator);
    Ok(())
}
