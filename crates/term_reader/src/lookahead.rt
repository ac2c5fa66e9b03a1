//! The token after the current one, seen ahead of its turn. Its characters stay in the text.
ghost use Rattle.std.specs.Prelude.{◌≡◌, ℕ, IfSome, IsCharBoundary};
ghost use Rattle.token_scan.specs.NextToken.{IsToken};
ghost use Rattle.term_reader.specs.LexemeView.{lexeme_meant};
ghost use Rattle.term_reader.specs.FollowingToken.{follow_of, IsAhead, IsFollowingAt};

use crate::lexeme::{Lexeme, mark};
use token_scan::{Token, TokenKind, integer, next_token, spelling};

/// What matters of a token that follows another, and the place after it.
#[derive(Clone, Copy)]
pub(crate) enum Follow {
    /// `(` without layout in front.
    OpenRound(usize),
    /// An integer without layout in front.
    Unsigned(u64, usize),
    ClosesList(usize),
    ClosesCurly(usize),
    Other,
}

/// The next token; none at the end of the text or where the token is faulty.
fn token_ahead(text: &str, at: usize) -> Option<Token>
    requires { IsCharBoundary text.now at }
    ensures { IsAhead text.now at result }
{
    match next_token(text, at) {
        Ok(token) => match token.kind {
            TokenKind::EndOfText => None,
            _ => Some(token),
        },
        Err(_) => None,
    }
}

fn follow_mark(lexeme: &Lexeme, apart: bool, end: usize) -> Follow
    ensures { result ≡ follow_of apart (lexeme_meant lexeme.now) end }
{
    match lexeme {
        Lexeme::Open if !apart => Follow::OpenRound(end),
        Lexeme::Integer(number) if !apart => Follow::Unsigned(*number, end),
        Lexeme::CloseList => Follow::ClosesList(end),
        Lexeme::CloseCurly => Follow::ClosesCurly(end),
        _ => Follow::Other,
    }
}

/// What the token ahead is to the one in front of it.
fn following(text: &str, ahead: Option<Token>) -> Follow
    requires { IfSome ahead (λ t. IsToken text.now t) }
    ensures { (at : ℕ) → IsAhead text.now at ahead → IsFollowingAt text.now at result }
{
    let Some(token) = ahead else {
        return Follow::Other;
    };
    match token.kind {
        TokenKind::Punctuation => {
            let lexeme = mark(spelling(text, &token));
            follow_mark(&lexeme, token.layout_before, token.end)
        }
        TokenKind::Integer => {
            let lexeme = Lexeme::Integer(integer(text, &token));
            follow_mark(&lexeme, token.layout_before, token.end)
        }
        _ => Follow::Other,
    }
}

/// The token after this place, and what it is to the one in front of it.
pub(crate) fn look_ahead(text: &str, at: usize) -> (Option<Token>, Follow)
    requires { IsCharBoundary text.now at }
    ensures ahead { IsAhead text.now at result.0 }
    ensures follow { IsFollowingAt text.now at result.1 }
{
    let ahead = token_ahead(text, at);
    let follow = following(text, ahead);
    (ahead, follow)
}
