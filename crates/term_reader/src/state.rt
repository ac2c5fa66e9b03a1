//! What is open, and what was read.
ghost use Rattle.std.specs.Prelude.{◌≡◌, ◌≤◌, ℕ, List, [], IfOk, map, nat_le, vec_len};
ghost use Rattle.term_reader.specs.Expectations.{may_take_operand};
ghost use Rattle.term_reader.specs.LexemeView.{post_operator_meant};
ghost use Rattle.term_reader.specs.FrameShapes.{frame_meant, shape_bound, shape_operator, shapes_up};
ghost use Rattle.term_reader.specs.Completion as stack;
ghost use Rattle.term_reader.specs.Completion.{bound_of};
ghost use Rattle.term_reader.specs.Positions.{ExpectsOperand, IsAtPosition};
ghost use Rattle.term_reader.specs.OperatorReductions.{IsFewer, IsReduceOutcome, IsReducedBefore, WhereOperand};
ghost use Rattle.term_reader.specs.Refusals.{accepts};

use crate::output::TermOutput;
use crate::post_operator::PostOperator;
use au_term::{Atom, NoMemory};
use op_table::{ARGUMENT_PRIORITY, MAX_PRIORITY, Operator};
use std::alloc::Global;

/// What is open. Items and arguments are counted without the one that is or is due.
#[derive(Drop)]
pub(crate) enum Frame {
    Round,
    Curly,
    Item(usize),
    Tail(usize),
    /// A compound's name, its arguments so far, and its place.
    Argument(Atom, u32, usize),
    Prefix(Atom, Operator),
    Infix(Atom, Operator),
}

/// How far a text is read.
#[derive(Drop)]
pub(crate) struct State {
    pub(crate) at: usize,
    pub(crate) frames: Vec<Frame>,
    pub(crate) output: TermOutput,
}

/// What the last operand is.
#[derive(Clone, Copy)]
pub(crate) enum LastOperand {
    Whole,
    /// A prefix operator as an atom, which could have had an operand.
    LonePrefix,
}

/// What is expected at the place of the state.
#[derive(Clone, Copy)]
pub(crate) enum Expected {
    /// An operand.
    Operand,
    /// An operator after an operand of this priority, or its end.
    Operator(u16, LastOperand),
}

/// What becomes of an operator that waits for the operand that is there.
#[derive(Clone, Copy)]
enum Reduced {
    /// It is over its operand now, and has this priority.
    Applied(u16),
    /// The operand goes on.
    Fits,
    /// None waits, and the operand does not go on.
    Ends,
}

impl Frame {
    /// The greatest priority of the operand that is due.
    pub(crate) fn bound(&self) -> u16
        ensures { result ≡ shape_bound (frame_meant self.now) }
    {
        match self {
            Frame::Round | Frame::Curly => MAX_PRIORITY,
            Frame::Item(_) | Frame::Tail(_) | Frame::Argument(_, _, _) => ARGUMENT_PRIORITY,
            Frame::Prefix(_, operator) | Frame::Infix(_, operator) => operator.right_bound(),
        }
    }

    /// The operator's priority, where it is one.
    pub(crate) fn operator(&self) -> Option<u16>
        ensures { result ≡ shape_operator (frame_meant self.now) }
    {
        match self {
            Frame::Prefix(_, operator) | Frame::Infix(_, operator) => Some(operator.priority),
            _ => None,
        }
    }
}

impl State {
    /// Nothing is open, and nothing was read.
    pub(crate) fn new(alloc: Global, at: usize) -> State
        ensures at { result.at ≡ at }
        ensures empty { result.frames.items ≡ [] }
        ensures at_position { IsAtPosition result (ExpectsOperand []) }
    {
        State {
            at,
            frames: Vec::new(alloc),
            output: TermOutput::new(alloc),
        }
    }

    /// The greatest priority of the operand that is due.
    pub(crate) fn bound(&self) -> u16
        ensures { (k : List stack.OpenFrame) → map frame_meant self.now.frames.items ≡ shapes_up k → result ≡ bound_of k }
    {
        match self.frames.last() {
            Some(frame) => frame.bound(),
            None => MAX_PRIORITY,
        }
    }

    /// What a prefix operator as an atom is.
    pub(crate) fn lone_prefix(&self, operator: Operator) -> LastOperand
        ensures { (k : List stack.OpenFrame) → map frame_meant self.now.frames.items ≡ shapes_up k → may_take_operand result ≡ nat_le operator.priority (bound_of k) }
    {
        if operator.priority <= self.bound() {
            LastOperand::LonePrefix
        } else {
            LastOperand::Whole
        }
    }

    /// Puts the operator that waits for the operand over it, where the operand ends in front of this.
    fn reduce_top(
        &mut self,
        priority: u16,
        post_operator: PostOperator,
    ) -> Result<Reduced, NoMemory>
        ensures at { self.new.at ≡ self.old.at }
        ensures fewer { IfOk result (λ p. IsFewer p (vec_len self.old.frames) (vec_len self.new.frames)) }
        ensures reduced { WhereOperand self.old priority (λ s k l n. IfOk result (λ p. IsReduceOutcome s k l priority (post_operator_meant n post_operator) self.new p)) }
    {
        if post_operator.fits(self.bound(), priority) {
            return Ok(Reduced::Fits);
        }
        match self.frames.pop() {
            Some(Frame::Prefix(name, operator)) => {
                self.output.compound(name, 1)?;
                Ok(Reduced::Applied(operator.priority))
            }
            Some(Frame::Infix(name, operator)) => {
                self.output.compound(name, 2)?;
                Ok(Reduced::Applied(operator.priority))
            }
            Some(other) => {
                self.frames.push(other)?;
                Ok(Reduced::Ends)
            }
            None => Ok(Reduced::Ends),
        }
    }

    /// Puts all operators over their operands that end in front of this. Answers the last one's priority, and
    /// whether this goes on after it.
    pub(crate) fn reduce_operators(
        &mut self,
        priority: u16,
        post_operator: PostOperator,
    ) -> Result<(u16, bool), NoMemory>
        ensures at { self.new.at ≡ self.old.at }
        ensures reduced { WhereOperand self.old priority (λ s k l n. IfOk result (λ r. IsReducedBefore s k l priority (post_operator_meant n post_operator) self.new r.0 r.1)) }
    {
        let mut last = priority;
        'operators: loop {
            match self.reduce_top(last, post_operator)? {
                Reduced::Applied(next) => last = next,
                Reduced::Fits => return Ok((last, true)),
                Reduced::Ends => return Ok((last, false)),
            }
        }
    }

    /// Whether an operator goes on after an atom.
    pub(crate) fn takes(&self, post_operator: PostOperator) -> bool
        ensures { (k : List stack.OpenFrame) (n : List ℕ) → map frame_meant self.now.frames.items ≡ shapes_up k → result ≡ accepts k 0 (post_operator_meant n post_operator) }
    {
        let mut frames = self.frames.as_slice();
        let mut priority = 0;
        'frames: while let Some((frame, below)) = frames.split_last() {
            if post_operator.fits(frame.bound(), priority) {
                return true;
            }
            let Some(next) = frame.operator() else {
                return false;
            };
            priority = next;
            frames = below;
        }
        post_operator.fits(MAX_PRIORITY, priority)
    }
}
