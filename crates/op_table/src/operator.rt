//! Operators and rows of a table.
ghost use Rattle.std.specs.Prelude.{◌≡◌, option_map};
ghost use Rattle.au_model.specs.Syntax.Operators.{class_of};
ghost use Rattle.au_model.specs.Syntax.OperatorChanges.{kind_named};
ghost use Rattle.au_model.specs.Syntax.PostOperators.{left_bound, right_bound, takes_equal_left, takes_equal_right};
ghost use Rattle.op_table.specs.OperatorView.{class_meant, kind_meant, operator_meant};

use au_term::Atom;

/// Where the operands are: `f` is the operator, `x` an operand of lower priority, `y` one of at
/// most the operator's.
#[derive(Clone, Copy, Debug, PartialEq, Eq)]
pub enum OpKind {
    Xfx,
    Xfy,
    Yfx,
    Fy,
    Fx,
    Xf,
    Yf,
}

/// The classes of operators. A name has at most one operator of each.
#[derive(Clone, Copy)]
pub(crate) enum OpClass {
    Prefix,
    Infix,
    Postfix,
}

/// The greatest priority of a term (6.3.1.1).
pub const MAX_PRIORITY: u16 = 1200;

/// The greatest priority of an argument or an item of a list (6.3.3).
pub const ARGUMENT_PRIORITY: u16 = 999;

/// An operator's priority, from 1 to `MAX_PRIORITY`, and kind.
#[derive(Clone, Copy, Debug, PartialEq, Eq)]
pub struct Operator {
    pub priority: u16,
    pub kind: OpKind,
}

/// An operator and its name.
#[derive(Drop)]
pub struct OpRow {
    pub name: Atom,
    pub operator: Operator,
}

impl OpKind {
    /// The kind of a specifier.
    pub fn named(name: &Atom) -> Option<OpKind>
        ensures { option_map kind_meant result ≡ kind_named name.now }
    {
        if name.is_text("xfx") {
            return Some(OpKind::Xfx);
        }
        if name.is_text("xfy") {
            return Some(OpKind::Xfy);
        }
        if name.is_text("yfx") {
            return Some(OpKind::Yfx);
        }
        if name.is_text("fy") {
            return Some(OpKind::Fy);
        }
        if name.is_text("fx") {
            return Some(OpKind::Fx);
        }
        if name.is_text("xf") {
            return Some(OpKind::Xf);
        }
        if name.is_text("yf") {
            return Some(OpKind::Yf);
        }
        None
    }

    pub(crate) fn class(self) -> OpClass
        ensures { class_meant result ≡ class_of (kind_meant self) }
    {
        match self {
            OpKind::Fy | OpKind::Fx => OpClass::Prefix,
            OpKind::Xfx | OpKind::Xfy | OpKind::Yfx => OpClass::Infix,
            OpKind::Xf | OpKind::Yf => OpClass::Postfix,
        }
    }

    /// Whether the left operand may have the operator's own priority.
    pub fn takes_equal_left(self) -> bool
        ensures { result ≡ takes_equal_left (kind_meant self) }
    {
        matches!(self, OpKind::Yfx | OpKind::Yf)
    }

    /// Whether the right operand may have the operator's own priority.
    pub fn takes_equal_right(self) -> bool
        ensures { result ≡ takes_equal_right (kind_meant self) }
    {
        matches!(self, OpKind::Xfy | OpKind::Fy)
    }
}

impl Operator {
    /// The greatest priority of a left operand without brackets.
    pub fn left_bound(self) -> u16
        ensures { result ≡ left_bound (operator_meant self) }
    {
        if self.kind.takes_equal_left() {
            self.priority
        } else {
            self.priority.saturating_sub(1)
        }
    }

    /// The greatest priority of a right operand without brackets.
    pub fn right_bound(self) -> u16
        ensures { result ≡ right_bound (operator_meant self) }
    {
        if self.kind.takes_equal_right() {
            self.priority
        } else {
            self.priority.saturating_sub(1)
        }
    }
}
