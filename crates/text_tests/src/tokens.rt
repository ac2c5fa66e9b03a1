//! Tokens by ISO/IEC 13211-1, 6.4, narrowed to Aurora's language.
ghost use Rattle.std.specs.Prelude.{IfOk};
ghost use Rattle.token_scan.specs.NextToken.{IsToken};

use crate::common::{expect, hold};
use au_model::FaultKind;
use std::alloc::Global;
use std::process::Abort;
use std::test::Fail;
use token_scan::{BadToken, Token, TokenKind, integer, next_token, spelling, value};

type Row = (&'static str, usize, TokenKind, usize, usize, bool);

/// A text, a place, and the kind, start and end of the token from there on, and whether layout is before it.
static TOKENS: [Row; 68] = [
    ("foo bar", 0, TokenKind::Name, 0, 3, false),
    ("foo bar", 3, TokenKind::Name, 4, 7, true),
    ("'a\\n'", 0, TokenKind::QuotedName, 0, 5, false),
    ("'it''s' ", 0, TokenKind::QuotedName, 0, 7, false),
    ("'a\\\nb'", 0, TokenKind::QuotedName, 0, 6, false),
    ("'\\x41\\\\101\\'", 0, TokenKind::QuotedName, 0, 12, false),
    ("\"a\"\"'b\"", 0, TokenKind::DoubleQuoted, 0, 7, false),
    ("0x1F", 0, TokenKind::Integer, 0, 4, false),
    ("0o178", 0, TokenKind::Integer, 0, 4, false),
    ("0b12", 0, TokenKind::Integer, 0, 3, false),
    ("0b12", 3, TokenKind::Integer, 3, 4, false),
    ("0'a", 0, TokenKind::Integer, 0, 3, false),
    ("0'''", 0, TokenKind::Integer, 0, 4, false),
    ("0'\\n", 0, TokenKind::Integer, 0, 4, false),
    ("0''x", 0, TokenKind::Integer, 0, 1, false),
    ("0''x", 1, TokenKind::QuotedName, 1, 3, false),
    ("0'", 0, TokenKind::Integer, 0, 1, false),
    ("0x", 0, TokenKind::Integer, 0, 1, false),
    ("0x", 1, TokenKind::Name, 1, 2, false),
    ("007", 0, TokenKind::Integer, 0, 3, false),
    ("0x1.5", 0, TokenKind::Integer, 0, 3, false),
    ("1.e", 0, TokenKind::Integer, 0, 1, false),
    ("1.e", 1, TokenKind::Name, 1, 2, false),
    ("1.", 1, TokenKind::End, 1, 2, false),
    ("9223372036854775808", 0, TokenKind::Integer, 0, 19, false),
    ("a.%c", 1, TokenKind::End, 1, 2, false),
    ("a./*c*/", 1, TokenKind::Name, 1, 4, false),
    ("+/*", 0, TokenKind::Name, 0, 3, false),
    ("/* */", 0, TokenKind::EndOfText, 5, 5, true),
    ("/*/ */a", 0, TokenKind::Name, 6, 7, true),
    ("X_1", 0, TokenKind::Variable, 0, 3, false),
    ("_", 0, TokenKind::Variable, 0, 1, false),
    ("\u{c9}", 0, TokenKind::Variable, 0, 2, false),
    ("\u{e9}", 0, TokenKind::Name, 0, 2, false),
    ("\u{3a9}a", 0, TokenKind::Variable, 0, 3, false),
    ("\u{1c5}", 0, TokenKind::Variable, 0, 2, false),
    ("\u{2167}", 0, TokenKind::Name, 0, 3, false),
    ("a\u{663}b", 0, TokenKind::Name, 0, 4, false),
    ("aB_9-", 0, TokenKind::Name, 0, 4, false),
    ("[]", 0, TokenKind::Punctuation, 0, 1, false),
    ("[]", 1, TokenKind::Punctuation, 1, 2, false),
    ("[ ]", 1, TokenKind::Punctuation, 2, 3, true),
    ("{ }", 0, TokenKind::Punctuation, 0, 1, false),
    ("{ }", 1, TokenKind::Punctuation, 2, 3, true),
    ("(", 0, TokenKind::Punctuation, 0, 1, false),
    ("))", 0, TokenKind::Punctuation, 0, 1, false),
    ("|", 0, TokenKind::Punctuation, 0, 1, false),
    ("||", 0, TokenKind::Punctuation, 0, 1, false),
    ("||", 1, TokenKind::Punctuation, 1, 2, false),
    (",,", 0, TokenKind::Punctuation, 0, 1, false),
    ("!!", 0, TokenKind::Name, 0, 1, false),
    (";;", 0, TokenKind::Name, 0, 1, false),
    ("+-*/\\^<>=~:.?@#&$a", 0, TokenKind::Name, 0, 17, false),
    ("\t\n\u{b}\u{c}\r x", 0, TokenKind::Name, 6, 7, true),
    ("a%c\n/*d*/ /**/b", 1, TokenKind::Name, 14, 15, true),
    ("", 0, TokenKind::EndOfText, 0, 0, false),
    ("a", 1, TokenKind::EndOfText, 1, 1, false),
    ("a \n", 1, TokenKind::EndOfText, 3, 3, true),
    ("%c", 0, TokenKind::EndOfText, 2, 2, true),
    ("a.", 1, TokenKind::End, 1, 2, false),
    (".(", 0, TokenKind::Name, 0, 1, false),
    (". .", 0, TokenKind::End, 0, 1, false),
    (". .", 1, TokenKind::End, 2, 3, true),
    (".\n", 0, TokenKind::End, 0, 1, false),
    ("..", 0, TokenKind::Name, 0, 2, false),
    ("0' ", 0, TokenKind::Integer, 0, 3, false),
    ("0'\n", 0, TokenKind::Integer, 0, 3, false),
    ("10'a'", 0, TokenKind::Integer, 0, 2, false),
];

type Faulty = (&'static str, usize, usize, FaultKind);

/// A text, a place, and the place and kind of the fault from there on.
static FAULTS: [Faulty; 28] = [
    ("1.5", 0, 0, FaultKind::FloatNumeral),
    ("99999999999999999999.5", 0, 0, FaultKind::FloatNumeral),
    ("9223372036854775809", 0, 0, FaultKind::WideNumeral),
    (
        "99999999999999999999999999999999999999999",
        0,
        0,
        FaultKind::WideNumeral,
    ),
    ("a 0x8000000000000001", 1, 2, FaultKind::WideNumeral),
    ("a /* x", 1, 2, FaultKind::UnclosedComment),
    ("/*/", 0, 0, FaultKind::UnclosedComment),
    ("`", 0, 0, FaultKind::BadCharacter),
    ("a \u{1}", 1, 2, FaultKind::BadCharacter),
    ("\u{feff}a", 0, 0, FaultKind::BadCharacter),
    ("\u{a0}", 0, 0, FaultKind::BadCharacter),
    ("e\u{301}", 1, 1, FaultKind::BadCharacter),
    ("\u{663}", 0, 0, FaultKind::BadCharacter),
    ("'ab", 0, 0, FaultKind::UnclosedQuote),
    ("p('abc\\", 2, 2, FaultKind::UnclosedQuote),
    ("'\\x4", 0, 0, FaultKind::UnclosedQuote),
    ("'\\101\n\\'", 0, 0, FaultKind::UnclosedQuote),
    (" 'a\nb'", 0, 1, FaultKind::UnclosedQuote),
    ("\"a'", 0, 0, FaultKind::UnclosedQuote),
    ("0'", 1, 1, FaultKind::UnclosedQuote),
    ("'\\q'", 0, 1, FaultKind::BadEscape),
    ("p('a\\q", 2, 4, FaultKind::BadEscape),
    ("'\\xd800\\'", 0, 1, FaultKind::BadEscape),
    ("'\\x110000\\'", 0, 1, FaultKind::BadEscape),
    ("'\\x\\'", 0, 1, FaultKind::BadEscape),
    ("'\\1018'", 0, 1, FaultKind::BadEscape),
    ("0'\\q", 0, 2, FaultKind::BadEscape),
    ("0'\\\n", 0, 2, FaultKind::BadEscape),
];

fn token_from(rt: &impl Abort, text: &str, at: usize) -> Result<Token, BadToken>
    ensures { IfOk result (λ t. IsToken text.now t) }
{
    assert!(rt; text.is_char_boundary(at));
    next_token(text, at)
}

fn check_tokens(rt: &impl Abort, rows: &[Row]) {
    for (text, at, kind, start, end, layout_before) in rows {
        let want = Token {
            kind: *kind,
            start: *start,
            end: *end,
            layout_before: *layout_before,
        };
        expect(rt, token_from(rt, text, *at), Ok(want), text);
    }
}

fn check_faults(rt: &impl Abort, rows: &[Faulty]) {
    for (text, at, place, kind) in rows {
        let want = BadToken {
            at: *place,
            kind: *kind,
        };
        expect(rt, token_from(rt, text, *at), Err(want), text);
    }
}

#[test]
fn tokens_and_faults(rt: HostRuntime) {
    check_tokens(&rt, &TOKENS);
    check_faults(&rt, &FAULTS);
}

/// Quoted items and what they stand for.
static VALUES: [(&str, &str); 8] = [
    ("'a\\n'", "a\n"),
    ("'it''s'", "it's"),
    ("'a\\\nb'", "ab"),
    ("'\\x41\\\\101\\'", "AA"),
    ("\"a\"\"'b\"", "a\"'b"),
    ("'\\\\\\'\\\"\\`\\0\\'", "\\'\"`\0"),
    ("'\\a\\b\\f\\n\\r\\t\\v'", "\u{7}\u{8}\u{c}\n\r\t\u{b}"),
    ("'\\x0010FFFF\\\u{e9}'", "\u{10ffff}\u{e9}"),
];

/// Integers and their numbers.
static INTEGERS: [(&str, u64); 12] = [
    ("0x1Fg", 31),
    ("0o178", 15),
    ("0b12", 1),
    ("0'a", 97),
    ("0'''", 39),
    ("0'\\n", 10),
    ("0'\\x41\\", 65),
    ("0''x", 0),
    ("0x", 0),
    ("007", 7),
    ("9223372036854775807", 9_223_372_036_854_775_807),
    ("0x8000000000000000", 9_223_372_036_854_775_808),
];

/// Names, variables and marks.
static SPELLINGS: [(&str, &str); 5] = [
    ("foo(", "foo"),
    ("X_1 ", "X_1"),
    ("=..a", "=.."),
    ("!.", "!"),
    ("||", "|"),
];

fn check_values(rt: &impl Abort, alloc: Global, rows: &[(&str, &str)]) -> Result<(), Fail> {
    for (text, want) in rows {
        let token = token_from(rt, text, 0)?;
        match token.kind {
            TokenKind::QuotedName | TokenKind::DoubleQuoted => {
                hold(rt, value(alloc, text, &token)?.as_str() == *want, text);
            }
            TokenKind::Name | TokenKind::Variable | TokenKind::Punctuation => {
                hold(rt, spelling(text, &token) == *want, text);
            }
            _ => hold(rt, false, text),
        }
    }
    Ok(())
}

fn check_integers(rt: &impl Abort, rows: &[(&str, u64)]) -> Result<(), Fail> {
    for (text, want) in rows {
        let token = token_from(rt, text, 0)?;
        match token.kind {
            TokenKind::Integer => expect(rt, integer(text, &token), *want, text),
            _ => hold(rt, false, text),
        }
    }
    Ok(())
}

#[test]
fn values_and_integers(rt: HostRuntime) -> Result<(), Fail> {
    check_values(&rt, rt.alloc(), &VALUES)?;
    check_values(&rt, rt.alloc(), &SPELLINGS)?;
    check_integers(&rt, &INTEGERS)
}
