//! The steps of a reader.
//!
//! The reader goes through the tokens once, as a shift-reduce parser. What is open is a stack of frames, the innermost
//! last: a round or curly bracket, an item or a tail of a list, an argument of a compound, an operator that waits for its
//! right operand. Where an operand is expected, a token begins a primary: a whole operand is emitted, anything else is
//! shifted as a frame. After an operand, a token is an infix or postfix operator, or it ends the operand. First the
//! operators on top of the stack whose bounds end there are reduced: each takes its operands and becomes one. Then the
//! operator is shifted, or the frame below is closed. Two tokens of look-ahead decide only whether a name is a compound's,
//! a sign or a prefix operator with an operand. Terms are emitted after their arguments, and put into prefix order once,
//! at the end.
ghost use Rattle.std.specs.Prelude.{◌≡◌, ◌≤◌, ℕ, suc, Bool, false, List, IfOk, IsCharBoundary};
ghost use Rattle.au_model.specs.Syntax.Characters.{chars_from};
ghost use Rattle.au_model.specs.Syntax.Tokens.{scanned, token, ScannedTo, Token};
ghost use Rattle.au_model.specs.Syntax.Trees.{Tree};
ghost use Rattle.token_scan.specs.ScannedParts.{IsPlaceFrom};
ghost use Rattle.term_reader.specs.PrimaryView.{leaf_tree};
ghost use Rattle.term_reader.specs.Lookahead.{Scans};
ghost use Rattle.term_reader.specs.LexemeView.{lexeme_meant};
ghost use Rattle.term_reader.specs.Positions.{AfterOperand, Position, IsAtPosition, priority_of_operand};
ghost use Rattle.term_reader.specs.Completion.{OpenFrame};
ghost use Rattle.term_reader.specs.Expectations.{expected_after};
ghost use Rattle.term_reader.specs.StepAnswers.{IsFaultIfStuck, IsTokenFound, MovesOn, RefusesWell, StartsAt, StepsFrom, WhereAfter, WhereClosing, WhereEnding, WhereExpecting, WhereFault, WhereReadAfter, WhereReadAt, WhereReadEnding, WhereReadExpecting};
ghost use Rattle.term_reader.specs.ReaderSteps.{StartsPrimary, IsFrameClosing, IsFramePushed, IsOperandEmitted};

use crate::lexeme::{Closer, Lexeme, Placed, Scan, closer_token, scan_at};
use crate::post_operator::{PostOperator, post_operator_name, post_operator_of};
use crate::primary::{Leaf, Primary, Source, primary_of};
use crate::refusal::{Refused, after_prefix, not_taken, unexpected};
use crate::state::{Expected, Frame, LastOperand, State};
use au_model::FaultKind;
use au_term::{Atom, MAX_ARITY, NoMemory};

/// Where a step leads.
#[derive(Clone, Copy)]
pub(crate) enum Step {
    Continue(Expected),
    /// The end is there, in front of this place.
    Accept(usize),
    Refused(Refused),
}

/// Opens a frame in front of an operand.
fn push_frame(state: &mut State, frame: Frame, end: usize) -> Result<Step, NoMemory>
    ensures { IfOk result (λ t. IsFramePushed state.old frame end state.new t) }
{
    state.frames.push(frame)?;
    state.at = end;
    Ok(Step::Continue(Expected::Operand))
}

/// Puts an operand of one or two tokens.
fn emit(
    source: Source<'_>,
    state: &mut State,
    leaf: Leaf,
    end: usize,
    last: LastOperand,
) -> Result<Step, NoMemory>
    ensures { IfOk result (λ t. IsOperandEmitted state.old (leaf_tree source.entry.quotes leaf) end last state.new t) }
{
    state.output.leaf(source.alloc, source.quotes, leaf)?;
    state.at = end;
    Ok(Step::Continue(Expected::Operator(0, last)))
}

/// How a term begins at the place of a token.
fn primary_at(
    source: Source<'_>,
    at: usize,
    apart: bool,
    lexeme: Lexeme,
    end: usize,
) -> Result<Primary, NoMemory>
    requires next { scanned (chars_from source.text.now at) ≡ ScannedTo (token apart (lexeme_meant lexeme)) (chars_from source.text.now end) }
    requires place { IsPlaceFrom source.text.now (suc at) end }
    ensures { IfOk result (λ o. StartsPrimary source.entry at o) }
{
    let primary = primary_of(source, lexeme, end)?;
    Ok(primary)
}

/// Reads the beginning of an operand.
fn start_primary(
    source: Source<'_>,
    state: &mut State,
    primary: Primary,
    start: usize,
    fault: Refused,
) -> Result<Step, NoMemory>
    requires { StartsPrimary source state.old.at primary }
    ensures moves { IfOk result (λ t. MovesOn source.entry state.old state.new t) }
    ensures outcome { WhereExpecting state.old (λ x. StartsAt source.entry state.old start → IfOk result (λ t. StepsFrom source.entry state.old x state.new t)) }
    ensures fault { WhereReadExpecting source.entry state.old (λ first. IsFaultIfStuck source.entry state.old first fault → IfOk result (λ t. RefusesWell source.entry first t)) }
{
    match primary {
        Primary::Leaf(leaf, end) => emit(source, state, leaf, end, LastOperand::Whole),
        Primary::Alone(name, operator, end) => {
            let last = state.lone_prefix(operator);
            emit(source, state, Leaf::Atom(name), end, last)
        }
        Primary::Round(end) => push_frame(state, Frame::Round, end),
        Primary::Curly(end) => push_frame(state, Frame::Curly, end),
        Primary::List(end) => push_frame(state, Frame::Item(0), end),
        Primary::Call(name, end) => push_frame(state, Frame::Argument(name, 0, start), end),
        Primary::Prefix(name, operator, end) => {
            if operator.priority > state.bound() {
                return Ok(Step::Refused(after_prefix(source, state, end)?));
            }
            push_frame(state, Frame::Prefix(name, operator), end)
        }
        Primary::Fails => Ok(Step::Refused(fault)),
    }
}

/// Reads the token with which an operand begins.
fn operand(source: Source<'_>, state: &mut State) -> Result<Step, NoMemory>
    requires { IsCharBoundary source.text.now state.old.at }
    ensures moves { IfOk result (λ t. MovesOn source.entry state.old state.new t) }
    ensures outcome { WhereExpecting state.old (λ x. IfOk result (λ t. StepsFrom source.entry state.old x state.new t)) }
    ensures fault { WhereReadExpecting source.entry state.old (λ first. IfOk result (λ t. RefusesWell source.entry first t)) }
{
    let next = scan_at(source.alloc, source.text, state.at)?;
    match next {
        Scan::Found(found) => {
            let fault = unexpected(&found.lexeme, found.start);
            let Placed {
                lexeme,
                apart,
                start,
                end,
            } = found;
            let primary = primary_at(source, state.at, apart, lexeme, end)?;
            start_primary(source, state, primary, start, fault)
        }
        Scan::Bad(bad) => Ok(Step::Refused(Refused {
            at: bad.at,
            kind: bad.kind,
        })),
        Scan::EndOfText => Ok(Step::Refused(Refused {
            at: source.text.len(),
            kind: FaultKind::UnexpectedEnd,
        })),
    }
}

/// Reads what is after an operand of this priority.
fn after_operand(
    source: Source<'_>,
    state: &mut State,
    priority: u16,
    last_operand: LastOperand,
) -> Result<Step, NoMemory>
    requires { IsCharBoundary source.text.now state.old.at }
    ensures moves { IfOk result (λ t. MovesOn source.entry state.old state.new t) }
    ensures outcome { WhereAfter state.old priority (λ x. IfOk result (λ t. StepsFrom source.entry state.old x state.new t)) }
    ensures fault { WhereReadAfter source.entry state.old priority last_operand (λ first. IfOk result (λ t. RefusesWell source.entry first t)) }
{
    let next = scan_at(source.alloc, source.text, state.at)?;
    match next {
        Scan::Found(found) => with_token(source, state, found, priority, last_operand),
        Scan::Bad(bad) => Ok(Step::Refused(Refused {
            at: bad.at,
            kind: bad.kind,
        })),
        Scan::EndOfText => Ok(Step::Refused(Refused {
            at: source.text.len(),
            kind: FaultKind::UnexpectedEnd,
        })),
    }
}

/// Reads a token after an operand of this priority.
fn with_token(
    source: Source<'_>,
    state: &mut State,
    found: Placed,
    priority: u16,
    last_operand: LastOperand,
) -> Result<Step, NoMemory>
    requires next { IsTokenFound source state.old found }
    requires place { IsPlaceFrom source.text.now (suc state.old.at) found.end }
    ensures moves { IfOk result (λ t. MovesOn source.entry state.old state.new t) }
    ensures outcome { WhereAfter state.old priority (λ x. IfOk result (λ t. StepsFrom source.entry state.old x state.new t)) }
    ensures fault { WhereReadAfter source.entry state.old priority last_operand (λ first. StartsAt source.entry state.old found.start → IfOk result (λ t. RefusesWell source.entry first t)) }
{
    let post_operator = post_operator_of(source.ops, &found.lexeme);
    let (last, fits) = state.reduce_operators(priority, post_operator)?;
    if !fits {
        return close(source, state, found, last_operand);
    }
    match post_operator {
        PostOperator::Infix(operator) => {
            let end = found.end;
            let name = post_operator_name(source.alloc, found.lexeme)?;
            push_frame(state, Frame::Infix(name, operator), end)
        }
        PostOperator::Postfix(operator) => {
            let end = found.end;
            let name = post_operator_name(source.alloc, found.lexeme)?;
            state.output.compound(name, 1)?;
            state.at = end;
            let expected = Expected::Operator(operator.priority, LastOperand::Whole);
            Ok(Step::Continue(expected))
        }
        PostOperator::Nothing => close(source, state, found, last_operand),
    }
}

/// Reads a token that ends the operand in front of it.
fn close(
    source: Source<'_>,
    state: &mut State,
    found: Placed,
    last_operand: LastOperand,
) -> Result<Step, NoMemory>
    requires next { IsTokenFound source state.old found }
    requires place { IsPlaceFrom source.text.now (suc state.old.at) found.end }
    ensures moves { IfOk result (λ t. MovesOn source.entry state.old state.new t) }
    ensures outcome { WhereEnding source.entry state.old found (λ k l p. IfOk result (λ t. StepsFrom source.entry state.old (AfterOperand k l p) state.new t)) }
    ensures fault { WhereReadEnding source.entry state.old last_operand found (λ first. StartsAt source.entry state.old found.start → IfOk result (λ t. RefusesWell source.entry first t)) }
{
    let token = closer_token(&found.lexeme);
    let refused = not_taken(source, last_operand, &found.lexeme, found.start, found.end)?;
    match state.frames.pop() {
        None => match token {
            Closer::End => Ok(Step::Accept(found.end)),
            _ => Ok(Step::Refused(refused)),
        },
        Some(frame) => close_frame(source, state, frame, token, found.end, refused),
    }
}

/// What a token means after the operand in a frame that was open.
fn close_frame(
    source: Source<'_>,
    state: &mut State,
    frame: Frame,
    token: Closer,
    end: usize,
    refused: Refused,
) -> Result<Step, NoMemory>
    ensures moves { IsPlaceFrom source.entry.text.now (suc state.old.at) end → IfOk result (λ t. MovesOn source.entry state.old state.new t) }
    ensures outcome { WhereClosing source.entry state.old frame token end (λ k l p. IfOk result (λ t. StepsFrom source.entry state.old (AfterOperand k l p) state.new t)) }
    ensures fault { WhereFault source.entry state.old (frame) token end refused (λ first. IfOk result (λ t. RefusesWell source.entry first t)) }
{
    match frame {
        Frame::Round => Ok(close_round(source, state, token, end, refused)),
        Frame::Curly => close_curly(source, state, token, end, refused),
        Frame::Item(before) => close_item(source, state, before, token, end, refused),
        Frame::Tail(items) => close_tail(source, state, items, token, end, refused),
        Frame::Argument(name, before, place) => {
            close_argument(source, state, name, before, place, token, end, refused)
        }
        Frame::Prefix(_, _) => Ok(Step::Refused(refused)),
        Frame::Infix(_, _) => Ok(Step::Refused(refused)),
    }
}

/// In round brackets.
fn close_round(
    source: Source<'_>,
    state: &mut State,
    token: Closer,
    end: usize,
    refused: Refused,
) -> Step
    ensures moves { IsPlaceFrom source.entry.text.now (suc state.old.at) end → MovesOn source.entry state.old state.new result }
    ensures outcome { WhereClosing source.entry state.old Frame.Round token end (λ k l p. StepsFrom source.entry state.old (AfterOperand k l p) state.new result) }
    ensures fault { WhereFault source.entry state.old (Frame.Round) token end refused (λ first. RefusesWell source.entry first result) }
{
    match token {
        Closer::Close => {
            state.at = end;
            Step::Continue(Expected::Operator(0, LastOperand::Whole))
        }
        _ => Step::Refused(refused),
    }
}

/// In curly brackets.
fn close_curly(
    source: Source<'_>,
    state: &mut State,
    token: Closer,
    end: usize,
    refused: Refused,
) -> Result<Step, NoMemory>
    ensures moves { IsPlaceFrom source.entry.text.now (suc state.old.at) end → IfOk result (λ t. MovesOn source.entry state.old state.new t) }
    ensures outcome { WhereClosing source.entry state.old Frame.Curly token end (λ k l p. IfOk result (λ t. StepsFrom source.entry state.old (AfterOperand k l p) state.new t)) }
    ensures fault { WhereFault source.entry state.old (Frame.Curly) token end refused (λ first. IfOk result (λ t. RefusesWell source.entry first t)) }
{
    match token {
        Closer::CloseCurly => {
            let name = Atom::ascii(source.alloc, "{}")?;
            state.output.compound(name, 1)?;
            state.at = end;
            Ok(Step::Continue(Expected::Operator(0, LastOperand::Whole)))
        }
        _ => Ok(Step::Refused(refused)),
    }
}

/// In a list, after so many other items.
fn close_item(
    source: Source<'_>,
    state: &mut State,
    before: usize,
    token: Closer,
    end: usize,
    refused: Refused,
) -> Result<Step, NoMemory>
    ensures moves { IsPlaceFrom source.entry.text.now (suc state.old.at) end → IfOk result (λ t. MovesOn source.entry state.old state.new t) }
    ensures outcome { WhereClosing source.entry state.old (Frame.Item before) token end (λ k l p. IfOk result (λ t. StepsFrom source.entry state.old (AfterOperand k l p) state.new t)) }
    ensures fault { WhereFault source.entry state.old (Frame.Item before) token end refused (λ first. IfOk result (λ t. RefusesWell source.entry first t)) }
{
    // A list of more than 2^64 items fits no memory.
    if before == usize::MAX {
        return Err(NoMemory);
    }
    match token {
        Closer::Comma => push_frame(state, Frame::Item(before + 1), end),
        Closer::Bar => push_frame(state, Frame::Tail(before + 1), end),
        Closer::CloseList => {
            state.output.nil(source.alloc)?;
            state.output.list(source.alloc, before + 1)?;
            state.at = end;
            Ok(Step::Continue(Expected::Operator(0, LastOperand::Whole)))
        }
        _ => Ok(Step::Refused(refused)),
    }
}

/// In the tail of a list of so many items.
fn close_tail(
    source: Source<'_>,
    state: &mut State,
    items: usize,
    token: Closer,
    end: usize,
    refused: Refused,
) -> Result<Step, NoMemory>
    ensures moves { IsPlaceFrom source.entry.text.now (suc state.old.at) end → IfOk result (λ t. MovesOn source.entry state.old state.new t) }
    ensures outcome { WhereClosing source.entry state.old (Frame.Tail items) token end (λ k l p. IfOk result (λ t. StepsFrom source.entry state.old (AfterOperand k l p) state.new t)) }
    ensures fault { WhereFault source.entry state.old (Frame.Tail items) token end refused (λ first. IfOk result (λ t. RefusesWell source.entry first t)) }
{
    match token {
        Closer::CloseList => {
            state.output.list(source.alloc, items)?;
            state.at = end;
            Ok(Step::Continue(Expected::Operator(0, LastOperand::Whole)))
        }
        _ => Ok(Step::Refused(refused)),
    }
}

/// In a compound, after so many other arguments. It has at most 65,535.
fn close_argument(
    source: Source<'_>,
    state: &mut State,
    name: Atom,
    before: u32,
    place: usize,
    token: Closer,
    end: usize,
    refused: Refused,
) -> Result<Step, NoMemory>
    ensures moves { IsPlaceFrom source.entry.text.now (suc state.old.at) end → IfOk result (λ t. MovesOn source.entry state.old state.new t) }
    ensures outcome { WhereClosing source.entry state.old (Frame.Argument name before place) token end (λ k l p. IfOk result (λ t. StepsFrom source.entry state.old (AfterOperand k l p) state.new t)) }
    ensures fault { WhereFault source.entry state.old (Frame.Argument name before place) token end refused (λ first. IfOk result (λ t. RefusesWell source.entry first t)) }
{
    match token {
        Closer::Comma => {
            if before >= MAX_ARITY - 1 {
                return Ok(Step::Refused(Refused {
                    at: place,
                    kind: FaultKind::TooManyArguments,
                }));
            }
            push_frame(state, Frame::Argument(name, before + 1, place), end)
        }
        Closer::Close => {
            if before >= MAX_ARITY {
                return Ok(Step::Refused(refused));
            }
            state.output.compound(name, before + 1)?;
            state.at = end;
            Ok(Step::Continue(Expected::Operator(0, LastOperand::Whole)))
        }
        _ => Ok(Step::Refused(refused)),
    }
}

/// Reads what is at the place of the state.
pub(crate) fn step_at(
    source: Source<'_>,
    state: &mut State,
    expected: Expected,
) -> Result<Step, NoMemory>
    requires { IsCharBoundary source.text.now state.old.at }
    ensures moves { IfOk result (λ t. MovesOn source.entry state.old state.new t) }
    ensures outcome { (x : Position) → IsAtPosition state.old x → expected_after expected ≡ priority_of_operand x → IfOk result (λ t. StepsFrom source.entry state.old x state.new t) }
    ensures fault { WhereReadAt source.entry state.old expected (λ first. IfOk result (λ t. RefusesWell source.entry first t)) }
{
    match expected {
        Expected::Operand => operand(source, state),
        Expected::Operator(priority, last) => after_operand(source, state, priority, last),
    }
}
