//! The operator table (ISO/IEC 13211-1, 6.3.4).
ghost use Rattle.std.specs.Prelude.{◌≡◌, ◌++◌, [], true, fold, map, IfErr, IfOk, OnErr, OnOk, Ok as OkTable, Some as SomeKind, chars, option_map};
ghost use Rattle.au_term.specs.Term.{AtomTerm};
ghost use Rattle.au_model.specs.Terms.Faults.{permission_error_of};
ghost use Rattle.au_model.specs.Syntax.Operators.{class_of, prefix_of, infix_of, postfix_of, initial_operators, with_operator, IsOperatorTable};
ghost use Rattle.au_model.specs.Syntax.OperatorChanges.{conflicting_operator, is_no_operator_name, name_error, operators_changed};
ghost use Rattle.op_table.specs.OperatorView.{kind_meant, operator_meant, row_meant};
ghost use Rattle.op_table.specs.NameRows.{IsNames, class_rows, name_rows, rows_of};
ghost use Rattle.op_table.specs.TableRows.{stored_row};
ghost use Rattle.op_table.specs.TableChanges.{is_protected_name, may_be_added};
ghost use Rattle.op_table.specs.Arguments.{IsErrorOf, IsRefusedWith, IsTested, comma_error, is_refused, making_error};

use crate::change::Change;
use crate::names::{NameOperators, Names, change, find};
use crate::operator::{MAX_PRIORITY, OpClass, OpKind, OpRow, Operator};
use crate::refusal::OpRefusal;
use au_model::build::single;
use au_model::{Fault, PermissionName};
use au_term::{Atom, Cell, FlatTerm, NoMemory, is_text};
use std::alloc::Global;
use std::collections::BTreeMap;
use std::marker::Model;

/// A name, its operator's priority and kind.
type StoredRow = (&'static str, u16, OpKind);

/// The operators that a text begins with, by name, then prefix, infix, postfix.
static INITIAL: [StoredRow; 39] = [
    ("*", 400, OpKind::Yfx),
    ("**", 200, OpKind::Xfx),
    ("+", 500, OpKind::Yfx),
    (",", 1000, OpKind::Xfy),
    ("-", 200, OpKind::Fy),
    ("-", 500, OpKind::Yfx),
    ("-->", 1200, OpKind::Xfx),
    ("->", 1050, OpKind::Xfy),
    ("/", 400, OpKind::Yfx),
    ("//", 400, OpKind::Yfx),
    ("/\\", 500, OpKind::Yfx),
    (":-", 1200, OpKind::Fx),
    (":-", 1200, OpKind::Xfx),
    (";", 1100, OpKind::Xfy),
    ("<", 700, OpKind::Xfx),
    ("<<", 400, OpKind::Yfx),
    ("=", 700, OpKind::Xfx),
    ("=..", 700, OpKind::Xfx),
    ("=:=", 700, OpKind::Xfx),
    ("=<", 700, OpKind::Xfx),
    ("==", 700, OpKind::Xfx),
    ("=\\=", 700, OpKind::Xfx),
    (">", 700, OpKind::Xfx),
    (">=", 700, OpKind::Xfx),
    (">>", 400, OpKind::Yfx),
    ("?-", 1200, OpKind::Fx),
    ("@<", 700, OpKind::Xfx),
    ("@=<", 700, OpKind::Xfx),
    ("@>", 700, OpKind::Xfx),
    ("@>=", 700, OpKind::Xfx),
    ("\\", 200, OpKind::Fy),
    ("\\+", 900, OpKind::Fy),
    ("\\/", 500, OpKind::Yfx),
    ("\\=", 700, OpKind::Xfx),
    ("\\==", 700, OpKind::Xfx),
    ("^", 200, OpKind::Xfy),
    ("is", 700, OpKind::Xfx),
    ("mod", 400, OpKind::Yfx),
    ("rem", 400, OpKind::Yfx),
];

/// The names of the operators that a text begins with.
fn initial_names(alloc: Global, entries: &[StoredRow]) -> Result<Names, NoMemory>
    ensures names { IfOk result IsNames }
    ensures rows { IfOk result (λ names. rows_of names ≡ fold with_operator [] (map stored_row entries.now)) }
{
    let mut names = BTreeMap::new(alloc);
    for (name, priority, kind) in entries {
        let operator = Operator {
            priority: *priority,
            kind: *kind,
        };
        let name = Atom::new(alloc, name)?;
        change(alloc, &mut names, &[name], kind.class(), Some(operator))?;
    }
    Ok(names)
}

/// Whether a name is one that no table changes.
fn is_protected_name(name: &str) -> bool
    ensures { result ≡ is_protected_name (chars name.now) }
{
    let (comma, list, curly) = (is_text(name, ","), is_text(name, "[]"), is_text(name, "{}"));
    comma || list || curly
}

/// Puts the row of an operator after others, where there is one.
fn push_row(
    alloc: Global,
    rows: &mut Vec<OpRow>,
    name: &str,
    operator: Option<Operator>,
) -> Result<(), NoMemory>
    ensures { OnOk result (map row_meant rows.new.items ≡ map row_meant rows.old.items ++ class_rows (chars name.now) operator) }
{
    if let Some(operator) = operator {
        let name = Atom::new(alloc, name)?;
        rows.push(OpRow { name, operator })?;
    }
    Ok(())
}

/// Puts the rows of a name after others.
fn push_rows(
    alloc: Global,
    rows: &mut Vec<OpRow>,
    name: &str,
    operators: NameOperators,
) -> Result<(), NoMemory>
    ensures { OnOk result (map row_meant rows.new.items ≡ map row_meant rows.old.items ++ name_rows (chars name.now) operators) }
{
    push_row(alloc, rows, name, operators.as_prefix)?;
    push_row(alloc, rows, name, operators.as_infix)?;
    push_row(alloc, rows, name, operators.as_postfix)
}

/// Whether a name is never an operator's.
fn is_no_operator_name(name: &Atom) -> bool
    ensures { result ≡ is_no_operator_name name.now }
{
    name.is_text("[]") || name.is_text("{}") || name.is_text("|")
}

/// Refuses the comma.
fn check_comma(alloc: Global, names: &[Atom]) -> Result<(), OpRefusal>
    ensures { IsTested (comma_error (map AtomTerm names.now)) (λ u. u ≡ u) result }
{
    for name in names {
        if name.is_text(",") {
            return not_permitted(alloc, PermissionName::ModifyOperator, name);
        }
    }
    Ok(())
}

/// The error of a name with which something may not be done.
fn not_permitted(alloc: Global, permission: PermissionName, name: &Atom) -> Result<(), OpRefusal>
    ensures { IsRefusedWith (permission_error_of permission (AtomTerm name.now)) result }
{
    let culprit = single(alloc, Cell::Atom(name.share()?))?;
    Err(OpRefusal::Fault(Fault::Permission(permission, culprit)))
}

/// An operator table: for each name at most one prefix, one infix and one postfix operator.
#[derive(Drop)]
pub struct Ops {
    alloc: Global,
    names: Names,
}

impl Model for Ops {
    ghost use Rattle.au_model.specs.Syntax.Operators.{OperatorTable, IsOperatorTable};
    ghost use Rattle.op_table.specs.NameRows.{IsNames, rows_of};

    ghost Value = { OperatorTable };

    ghost view = { λ o. rows_of o.names };

    ghost invariant = { λ o. IsNames o.names × IsOperatorTable (rows_of o.names) };
}

impl Ops {
    /// The standard's operators (6.3.4.4).
    pub fn initial(alloc: Global) -> Result<Ops, NoMemory>
        ensures { IfOk result (λ o. o ≡ initial_operators) }
    {
        Ok(Ops {
            alloc,
            names: initial_names(alloc, &INITIAL)?,
        })
    }

    /// The prefix operator of this name.
    pub fn prefix(&self, name: &str) -> Option<Operator>
        ensures operator { option_map operator_meant result ≡ prefix_of self.now (chars name.now) }
        ensures table { IsOperatorTable self.now }
    {
        find(&self.names, name, OpClass::Prefix)
    }

    /// The infix operator of this name.
    pub fn infix(&self, name: &str) -> Option<Operator>
        ensures operator { option_map operator_meant result ≡ infix_of self.now (chars name.now) }
        ensures table { IsOperatorTable self.now }
    {
        find(&self.names, name, OpClass::Infix)
    }

    /// The postfix operator of this name.
    pub fn postfix(&self, name: &str) -> Option<Operator>
        ensures operator { option_map operator_meant result ≡ postfix_of self.now (chars name.now) }
        ensures table { IsOperatorTable self.now }
    {
        find(&self.names, name, OpClass::Postfix)
    }

    /// Whether an operator may be put into the table (8.14.3.3): its priority is from 1 to 1200, it is no comma, `[]` or
    /// `{}`, and no name is both infix and postfix.
    pub fn may_put(&self, row: &OpRow) -> bool
        ensures { result ≡ may_be_added self.now (row_meant row.now) }
    {
        let Operator { priority, kind } = row.operator;
        let name = row.name.text();
        0 < priority
            && priority <= MAX_PRIORITY
            && !is_protected_name(name)
            && self.conflicting_operator(name, kind).is_none()
    }

    /// The operator with which one of this kind may not share a name.
    fn conflicting_operator(&self, name: &str, kind: OpKind) -> Option<Operator>
        ensures { option_map operator_meant result ≡ conflicting_operator self.now (class_of (kind_meant kind)) (chars name.now) }
    {
        match kind.class() {
            OpClass::Prefix => None,
            OpClass::Infix => self.postfix(name),
            OpClass::Postfix => self.infix(name),
        }
    }

    /// Puts an operator in the place of the one that its name has in its class (8.14.3).
    pub fn put(&mut self, row: OpRow) -> Result<(), NoMemory>
        requires { may_be_added self.old (row_meant row) ≡ true }
        ensures ok { OnOk result (self.new ≡ with_operator self.old (row_meant row)) }
        ensures err { OnErr result (self.new ≡ self.old) }
    {
        let OpRow { name, operator } = row;
        change(
            self.alloc,
            &mut self.names,
            &[name],
            operator.kind.class(),
            Some(operator),
        )
    }

    /// What op(Priority, Specifier, Names) does (8.14.3): all names are checked before the first is changed.
    pub fn add(
        &mut self,
        priority: &FlatTerm,
        kind: &FlatTerm,
        names: &FlatTerm,
    ) -> Result<(), OpRefusal>
        ensures ok { OnOk result (operators_changed self.old priority.now kind.now names.now ≡ OkTable self.new) }
        ensures fault { IfErr result (IsErrorOf (operators_changed self.old priority.now kind.now names.now)) }
        ensures err { OnErr result (self.new ≡ self.old) }
    {
        let asked = Change::read(self.alloc, priority, kind, names)?;
        self.check(&asked)?;
        change(
            self.alloc,
            &mut self.names,
            &asked.names,
            asked.kind.class(),
            asked.operator(),
        )?;
        Ok(())
    }

    /// Refuses names that may not have the operator.
    fn check(&self, asked: &Change) -> Result<(), OpRefusal>
        ensures { IsTested (name_error self.now (SomeKind (kind_meant asked.now.kind)) (map AtomTerm asked.now.names.items)) (λ u. u ≡ u) result }
    {
        check_comma(self.alloc, &asked.names)?;
        self.check_made(&asked.names, asked.kind)
    }

    /// Refuses names that are never operators, and those that would be both infix and postfix.
    fn check_made(&self, names: &[Atom], kind: OpKind) -> Result<(), OpRefusal>
        ensures { IsTested (making_error self.now (kind_meant kind) (map AtomTerm names.now)) (λ u. u ≡ u) result }
    {
        for name in names {
            if self.is_refused(name, kind) {
                return not_permitted(self.alloc, PermissionName::CreateOperator, name);
            }
        }
        Ok(())
    }

    /// Whether a name may not have an operator of this kind.
    fn is_refused(&self, name: &Atom, kind: OpKind) -> bool
        ensures { result ≡ is_refused self.now (kind_meant kind) (AtomTerm name.now) }
    {
        is_no_operator_name(name) || self.conflicting_operator(name.text(), kind).is_some()
    }

    /// The rows, by name, then prefix, infix, postfix.
    pub fn rows(&self) -> Result<Vec<OpRow>, NoMemory>
        ensures { IfOk result (λ rows. map row_meant rows.items ≡ self.now) }
    {
        let mut rows = Vec::new(self.alloc);
        for (name, operators) in &self.names {
            push_rows(self.alloc, &mut rows, name.as_str(), *operators)?;
        }
        Ok(rows)
    }

    /// The same table.
    pub fn copy(&self) -> Result<Ops, NoMemory>
        ensures { IfOk result (λ o. o ≡ self.now) }
    {
        Ok(Ops {
            alloc: self.alloc,
            names: self.names.clone()?,
        })
    }
}
