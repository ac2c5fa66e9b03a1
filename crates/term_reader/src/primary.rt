//! How a term begins.
ghost use Rattle.std.specs.Prelude.{◌≡◌, ◌≤◌, ◌^◌, ℕ, suc, true, false, ◌&&◌, not, List, IfOk, IfSome, codes, nat_eq, IsCharBoundary};
ghost use Rattle.std.specs.Str.{chars, IsAscii};
ghost use Rattle.au_model.specs.Syntax.Characters.{chars_from};
ghost use Rattle.au_model.specs.Syntax.Tokens.{tokens_of};
ghost use Rattle.au_model.specs.Syntax.PostOperators.{named_post_operator};
ghost use Rattle.au_model.specs.Syntax.Operators.{prefix_of};
ghost use Rattle.au_model.specs.Syntax.Primaries.{atom_primary, curly_primary, is_post_operator, is_some_operator, lexeme_primary, list_primary, negative_of, name_primary, prefix_or_atom, prefix_is_atom};
ghost use Rattle.term_reader.specs.LexemeView.{lexeme_meant};
ghost use Rattle.token_scan.specs.NextToken.{IsToken};
ghost use Rattle.term_reader.specs.FollowingToken.{IsAhead};
ghost use Rattle.term_reader.specs.PrimaryView.{is_ending_mark, is_operator_between, primary_meant, setting_of, IsPrimaryOfName, IsPrimaryOfLexeme, IsPrimaryOfNoName, PrimaryEndsFrom};

use crate::lexeme::{Lexeme, is_minus, mark, quoted};
use crate::lookahead::{Follow, look_ahead};
use crate::post_operator::{PostOperator, named_post_operator};
use au_model::DoubleQuotes;
use au_term::{Atom, NoMemory};
use op_table::{Operator, Ops};
use std::alloc::Global;
use token_scan::{Token, TokenKind, spelling};

/// A text, the operators, and what a double-quoted item stands for.
#[derive(Clone, Copy)]
pub(crate) struct Source<'a> {
    pub(crate) alloc: Global,
    pub(crate) text: &'a str,
    pub(crate) ops: &'a Ops,
    pub(crate) quotes: DoubleQuotes,
}

/// An operand of one or two tokens.
#[derive(Drop)]
pub(crate) enum Leaf {
    Variable(Atom),
    Integer(i64),
    Atom(Atom),
    Text(Atom),
}

/// What is where an operand is expected, and the place after it.
#[derive(Drop)]
pub(crate) enum Primary {
    Leaf(Leaf, usize),
    /// A prefix operator that stands for itself.
    Alone(Atom, Operator, usize),
    Round(usize),
    Curly(usize),
    List(usize),
    Call(Atom, usize),
    Prefix(Atom, Operator, usize),
    Fails,
}

/// 9223372036854775808, of which only the negative is a term.
pub(crate) const WIDEST: u64 = 1 << 63;

/// The number with this absolute value that isn't above 0.
fn negative(number: u64) -> i64
    requires { number ≤ 2 ^ 63 }
    ensures { result ≡ negative_of number }
{
    if number == WIDEST {
        i64::MIN
    } else {
        -(number as i64)
    }
}

/// Whether a name is an infix or postfix operator and no prefix operator.
pub(crate) fn is_post_operator_alone(ops: &Ops, name: &str) -> bool
    ensures { result ≡ (is_post_operator (named_post_operator ops.now (chars name.now)) && not (is_some_operator (prefix_of ops.now (chars name.now)))) }
{
    !matches!(named_post_operator(ops, name), PostOperator::Nothing) && ops.prefix(name).is_none()
}

/// Whether a name joins what is in front of it to what is at this place.
fn joins(source: Source<'_>, name: &str, is_sign: bool, end: usize) -> bool
    requires { IsCharBoundary source.text.now end }
    ensures { result ≡ is_operator_between source.entry.ops.now (chars name.now) is_sign (tokens_of (chars_from source.entry.text.now end)) }
{
    if !is_post_operator_alone(source.ops, name) {
        return false;
    }
    let (_, next) = look_ahead(source.text, end);
    match next {
        Follow::OpenRound(_) => false,
        Follow::Unsigned(_, _) => !is_sign,
        Follow::ClosesList(_) | Follow::ClosesCurly(_) | Follow::Other => true,
    }
}

/// Whether a bracket, comma or bar ends what is in front of it.
fn ends_operand(mark: &Lexeme) -> bool
    ensures { result ≡ is_ending_mark (lexeme_meant mark.now) }
{
    matches!(
        mark,
        Lexeme::Close | Lexeme::CloseList | Lexeme::CloseCurly | Lexeme::Comma | Lexeme::Bar
    )
}

/// Whether a prefix operator in front of the token ahead stands for itself.
fn prefix_is_atom(source: Source<'_>, ahead: Option<Token>) -> Result<bool, NoMemory>
    requires { IfSome ahead (λ t. IsToken source.text.now t) }
    ensures { (at : ℕ) → IsAhead source.entry.text.now at ahead → IfOk result (λ b. b ≡ prefix_is_atom source.entry.ops.now (tokens_of (chars_from source.entry.text.now at))) }
{
    let Some(token) = ahead else {
        return Ok(true);
    };
    match token.kind {
        TokenKind::End => Ok(true),
        TokenKind::Punctuation => {
            let mark = mark(spelling(source.text, &token));
            Ok(ends_operand(&mark))
        }
        TokenKind::Name => {
            let name = spelling(source.text, &token);
            Ok(joins(source, name, is_minus(name), token.end))
        }
        TokenKind::QuotedName => {
            let name = quoted(source.alloc, source.text, &token)?;
            Ok(joins(source, name.text(), false, token.end))
        }
        _ => Ok(false),
    }
}

/// How a term begins with a name that ends here, where it is neither a compound's nor a number's sign.
fn operator_primary(
    source: Source<'_>,
    name: Atom,
    end: usize,
    ahead: Option<Token>,
) -> Result<Primary, NoMemory>
    requires place { IsCharBoundary source.text.now end }
    requires ahead { IsAhead source.text.now end ahead }
    ensures primary { IfOk result (λ o. primary_meant source.entry o ≡ prefix_or_atom source.entry.ops.now name (prefix_of source.entry.ops.now name) (tokens_of (chars_from source.entry.text.now end))) }
    ensures place { IfOk result (λ o. PrimaryEndsFrom source.entry.text.now end o) }
    ensures named { IfOk result (λ o. IsPrimaryOfName source.entry.ops.now name o) }
{
    let Some(operator) = source.ops.prefix(name.text()) else {
        return Ok(Primary::Leaf(Leaf::Atom(name), end));
    };
    if prefix_is_atom(source, ahead)? {
        Ok(Primary::Alone(name, operator, end))
    } else {
        Ok(Primary::Prefix(name, operator, end))
    }
}

/// How a term begins with a name that ends here.
fn name_primary(
    source: Source<'_>,
    name: Atom,
    is_sign: bool,
    end: usize,
) -> Result<Primary, NoMemory>
    requires { IsCharBoundary source.text.now end }
    ensures primary { IfOk result (λ o. primary_meant source.entry o ≡ name_primary source.entry.ops.now is_sign name (tokens_of (chars_from source.entry.text.now end))) }
    ensures place { IfOk result (λ o. PrimaryEndsFrom source.entry.text.now end o) }
    ensures named { IfOk result (λ o. IsPrimaryOfName source.entry.ops.now name o) }
{
    let (ahead, next) = look_ahead(source.text, end);
    match next {
        Follow::OpenRound(after) => Ok(Primary::Call(name, after)),
        Follow::Unsigned(number, after) if is_sign => {
            Ok(Primary::Leaf(Leaf::Integer(negative(number)), after))
        }
        _ => operator_primary(source, name, end, ahead),
    }
}

/// How a term begins with a name that is no operator.
fn atom_primary(source: Source<'_>, name: &str, end: usize) -> Result<Primary, NoMemory>
    requires place { IsCharBoundary source.text.now end }
    requires ascii { IsAscii name.now }
    ensures primary { IfOk result (λ o. primary_meant source.entry o ≡ atom_primary name.now (tokens_of (chars_from source.entry.text.now end))) }
    ensures place { IfOk result (λ o. PrimaryEndsFrom source.entry.text.now end o) }
    ensures named { IfOk result (λ o. IsPrimaryOfNoName o) }
{
    let name = Atom::ascii(source.alloc, name)?;
    let (_, next) = look_ahead(source.text, end);
    match next {
        Follow::OpenRound(after) => Ok(Primary::Call(name, after)),
        _ => Ok(Primary::Leaf(Leaf::Atom(name), end)),
    }
}

/// How a term begins with `[`.
fn list_primary(source: Source<'_>, end: usize) -> Result<Primary, NoMemory>
    requires { IsCharBoundary source.text.now end }
    ensures primary { IfOk result (λ o. primary_meant source.entry o ≡ list_primary (tokens_of (chars_from source.entry.text.now end))) }
    ensures place { IfOk result (λ o. PrimaryEndsFrom source.entry.text.now end o) }
    ensures named { IfOk result (λ o. IsPrimaryOfNoName o) }
{
    let (_, next) = look_ahead(source.text, end);
    match next {
        Follow::ClosesList(after) => atom_primary(source, "[]", after),
        _ => Ok(Primary::List(end)),
    }
}

/// How a term begins with `{`.
fn curly_primary(source: Source<'_>, end: usize) -> Result<Primary, NoMemory>
    requires { IsCharBoundary source.text.now end }
    ensures primary { IfOk result (λ o. primary_meant source.entry o ≡ curly_primary (tokens_of (chars_from source.entry.text.now end))) }
    ensures place { IfOk result (λ o. PrimaryEndsFrom source.entry.text.now end o) }
    ensures named { IfOk result (λ o. IsPrimaryOfNoName o) }
{
    let (_, next) = look_ahead(source.text, end);
    match next {
        Follow::ClosesCurly(after) => atom_primary(source, "{}", after),
        _ => Ok(Primary::Curly(end)),
    }
}

/// How a term begins with a token that ends here.
pub(crate) fn primary_of(
    source: Source<'_>,
    lexeme: Lexeme,
    end: usize,
) -> Result<Primary, NoMemory>
    requires { IsCharBoundary source.text.now end }
    ensures primary { IfOk result (λ o. primary_meant source.entry o ≡ lexeme_primary (setting_of source.entry) (lexeme_meant lexeme) (tokens_of (chars_from source.entry.text.now end))) }
    ensures place { IfOk result (λ o. PrimaryEndsFrom source.entry.text.now end o) }
    ensures named { IfOk result (λ o. IsPrimaryOfLexeme source.entry.ops.now (lexeme_meant lexeme) o) }
{
    match lexeme {
        Lexeme::Name(name) => {
            let is_sign = is_minus(name.text());
            name_primary(source, name, is_sign, end)
        }
        Lexeme::QuotedName(name) => name_primary(source, name, false, end),
        Lexeme::Variable(name) => Ok(Primary::Leaf(Leaf::Variable(name), end)),
        Lexeme::Integer(number) => {
            if number >= WIDEST {
                return Ok(Primary::Fails);
            }
            Ok(Primary::Leaf(Leaf::Integer(number as i64), end))
        }
        Lexeme::Text(text) => Ok(Primary::Leaf(Leaf::Text(text), end)),
        Lexeme::Open => Ok(Primary::Round(end)),
        Lexeme::OpenList => list_primary(source, end),
        Lexeme::OpenCurly => curly_primary(source, end),
        _ => Ok(Primary::Fails),
    }
}
