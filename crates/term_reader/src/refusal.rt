//! Where and why a text is refused.
ghost use Rattle.std.specs.Prelude.{◌≡◌, ◌&&◌, ℕ, List, IfOk, IfSome, map, IsCharBoundary};
ghost use Rattle.au_model.specs.Syntax.Characters.{chars_from};
ghost use Rattle.au_model.specs.Syntax.Tokens.{scanned};
ghost use Rattle.au_model.specs.Syntax.Primaries.{Setting};
ghost use Rattle.au_model.specs.Syntax.Trees.{Tree};
ghost use Rattle.term_reader.specs.PrimaryView.{setting_of};
ghost use Rattle.term_reader.specs.FrameShapes.{frame_meant, shapes_up};
ghost use Rattle.term_reader.specs.Expectations.{may_take_operand};
ghost use Rattle.term_reader.specs.LexemeView.{lexeme_meant, scan_meant, IsScan};
ghost use Rattle.term_reader.specs.Completion as stack;
ghost use Rattle.term_reader.specs.Refusals.{HasFrames, WhereNotAccepted, WhereStuck, lexeme_follows_atom, is_named_post_operator, follower_end, unexpected_kind, IsFaultFrom, IsFirstFault, IsPrefixAboveBound, IsStuck};

use crate::lexeme::{Lexeme, Scan, scan_at};
use crate::post_operator::{PostOperator, named_post_operator};
use crate::primary::{Source, WIDEST, is_post_operator_alone};
use crate::state::{LastOperand, State};
use au_model::FaultKind;
use au_term::NoMemory;
use op_table::Ops;

/// A fault and its place.
#[derive(Clone, Copy, Debug, PartialEq, Eq)]
pub(crate) struct Refused {
    pub(crate) at: usize,
    pub(crate) kind: FaultKind,
}

/// Why a token may not be somewhere.
fn unexpected_kind(lexeme: &Lexeme) -> FaultKind
    ensures { result ≡ unexpected_kind (lexeme_meant lexeme.now) }
{
    match lexeme {
        Lexeme::Integer(number) => {
            if *number >= WIDEST {
                return FaultKind::WideNumeral;
            }
            FaultKind::UnexpectedToken
        }
        _ => FaultKind::UnexpectedToken,
    }
}

/// A token that may not be here.
pub(crate) fn unexpected(lexeme: &Lexeme, start: usize) -> Refused
    ensures at { result.at ≡ start }
    ensures kind { result.kind ≡ unexpected_kind (lexeme_meant lexeme.now) }
{
    Refused {
        at: start,
        kind: unexpected_kind(lexeme),
    }
}

/// What may not be here, or is faulty itself.
pub(crate) fn refusal_of(text: &str, scan: &Scan) -> Refused
    ensures { WhereStuck text.now scan.now (λ s start. IsFirstFault s text.now start result) }
{
    match scan {
        Scan::Found(found) => unexpected(&found.lexeme, found.start),
        Scan::Bad(bad) => Refused {
            at: bad.at,
            kind: bad.kind,
        },
        Scan::EndOfText => Refused {
            at: text.len(),
            kind: FaultKind::UnexpectedEnd,
        },
    }
}

/// What is refused at a place.
fn refusal_at(source: Source<'_>, at: usize) -> Result<Refused, NoMemory>
    requires { IsCharBoundary source.text.now at }
    ensures { (start : ℕ) → IsStuck (setting_of source.entry) source.entry.text.now start at → IfOk result (λ r. IsFaultFrom source.entry start r) }
{
    let next = scan_at(source.alloc, source.text, at)?;
    Ok(refusal_of(source.text, &next))
}

/// What is refused after a prefix operator that is above the bound. A name that could join it to what follows,
/// as an atom, is not refused itself.
pub(crate) fn after_prefix(
    source: Source<'_>,
    state: &State,
    end: usize,
) -> Result<Refused, NoMemory>
    requires { IsCharBoundary source.text.now end }
    ensures { (start at : ℕ) (k : List stack.OpenFrame) → HasFrames state.now k → IsPrefixAboveBound source.entry start k at end → IfOk result (λ r. IsFaultFrom source.entry start r) }
{
    let next = scan_at(source.alloc, source.text, end)?;
    if let Some(after) = joined_end(source, state, end, &next) {
        return refusal_at(source, after);
    }
    Ok(refusal_of(source.text, &next))
}

/// The place after a token that joins an atom.
fn joined_end(source: Source<'_>, state: &State, at: usize, scan: &Scan) -> Option<usize>
    ensures place { IsScan source.entry.text.now at scan.now → IfSome result (λ end. IsCharBoundary source.entry.text.now end) }
    ensures end { (k : List stack.OpenFrame) → map frame_meant state.now.frames.items ≡ shapes_up k → result ≡ follower_end source.entry.ops.now k scan.now }
{
    let Scan::Found(found) = scan else {
        return None;
    };
    if joins_atom(source, state, &found.lexeme) {
        return Some(found.end);
    }
    None
}

/// Whether a token is an operator that goes on after an atom here, and no prefix operator.
fn joins_atom(source: Source<'_>, state: &State, lexeme: &Lexeme) -> bool
    ensures { (k : List stack.OpenFrame) → map frame_meant state.now.frames.items ≡ shapes_up k → result ≡ lexeme_follows_atom source.entry.ops.now k (lexeme_meant lexeme.now) }
{
    match lexeme {
        Lexeme::Name(name) | Lexeme::QuotedName(name) => {
            is_post_operator_alone(source.ops, name.text())
                && state.takes(named_post_operator(source.ops, name.text()))
        }
        _ => false,
    }
}

/// Whether a token has the name of an operator that is after an operand.
fn is_named_post_operator(ops: &Ops, lexeme: &Lexeme) -> bool
    ensures { result ≡ is_named_post_operator ops.now (lexeme_meant lexeme.now) }
{
    match lexeme {
        Lexeme::Name(name) | Lexeme::QuotedName(name) => {
            !matches!(named_post_operator(ops, name.text()), PostOperator::Nothing)
        }
        _ => false,
    }
}

/// Whether it could also begin the operand of a prefix operator.
fn is_refused_at_frame(ops: &Ops, last_operand: LastOperand, lexeme: &Lexeme) -> bool
    ensures { result ≡ (may_take_operand last_operand && is_named_post_operator ops.now (lexeme_meant lexeme.now)) }
{
    matches!(last_operand, LastOperand::LonePrefix) && is_named_post_operator(ops, lexeme)
}

/// What is refused where no frame takes a token. After a prefix operator that stands for itself, and could have
/// an operand that begins with this token, that is the next one.
pub(crate) fn not_taken(
    source: Source<'_>,
    last_operand: LastOperand,
    lexeme: &Lexeme,
    place: usize,
    end: usize,
) -> Result<Refused, NoMemory>
    requires { IsCharBoundary source.text.now end }
    ensures { WhereNotAccepted source.entry (may_take_operand last_operand) (lexeme_meant lexeme.now) place end (λ start. IfOk result (λ r. IsFaultFrom source.entry start r)) }
{
    if is_refused_at_frame(source.ops, last_operand, lexeme) {
        return refusal_at(source, end);
    }
    Ok(unexpected(lexeme, place))
}
