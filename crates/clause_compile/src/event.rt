//! What a goal can come to.
use crate::goal_list::Goals;
use crate::item::{ClauseId, Scope};
use au_model::VarName;
use au_term::{FlatTerm, Segment, Shared};

/// One alternative of a goal: what is left to do, and the variables and bindings that it takes.
#[derive(Drop)]
pub struct Branch {
    pub goals: Goals,
    pub segment: Segment,
}

/// What opens a choice point of its own (ISO/IEC 13211-1, 7.8.7 to 7.8.9 and 8.10.1).
#[derive(Drop)]
pub enum Opening {
    Condition {
        test: Shared,
        yes: Shared,
        no: Shared,
    },
    Catch {
        goal: Shared,
        catcher: Shared,
        recovery: Shared,
    },
    Findall {
        template: Shared,
        goal: Shared,
        list: Shared,
    },
}

/// What looks at the world or changes it, with its arguments in their order.
#[derive(Drop)]
pub enum Effect {
    Write(FlatTerm),
    Writeq(FlatTerm),
    WriteCanonical(FlatTerm),
    Nl,
    PutChar(FlatTerm),
    Asserta(FlatTerm),
    Assertz(FlatTerm),
    Retract(FlatTerm),
    Abolish(FlatTerm),
    Clause(FlatTerm, FlatTerm),
    Op(FlatTerm, FlatTerm, FlatTerm),
    CurrentOp(FlatTerm, FlatTerm, FlatTerm),
    Halt,
    HaltWith(FlatTerm),
    /// A goal of a procedure that is not static.
    Call(FlatTerm),
    Remove(ClauseId),
    /// An answer: the query's named variables, and what they stand for.
    Answer {
        names: Vec<VarName>,
        values: Vec<FlatTerm>,
    },
    /// The end of a query, with its uncaught ball if there is one.
    End(Option<FlatTerm>),
}

/// Where a region stops until it is the leftmost: a cut or the commit of a condition, a ball that leaves the region,
/// an effect, or a branch whose own path has reached the budget.
#[derive(Drop)]
pub enum GateKind {
    Cut(Scope),
    Throw { scope: Scope, ball: FlatTerm },
    World(Effect),
    Frozen,
}
