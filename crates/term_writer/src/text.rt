//! Text in the making, token by token.
ghost use Rattle.std.specs.Prelude.{◌≡◌, ◌+◌, ◌<◌, ◌^◌, ◌++◌, ◌&&◌, nat_lt, true, OnOk, List, [], ◌∷◌, length};
ghost use Rattle.std.specs.Str.{chars};
ghost use Rattle.au_model.specs.Syntax.Tokens.{QuotedName};
ghost use Rattle.op_table.specs.OperatorView.{operator_meant};
ghost use Rattle.std.specs.Char.{digit_char};
ghost use Rattle.au_model.specs.Writing.NameForms.{is_symbol_name, escaped, escaped_all, hexadecimal};
ghost use Rattle.au_model.specs.Writing.Pieces.{Piece, Put, Space};
ghost use Rattle.au_model.specs.Writing.WrittenTerms.{token_text, name_token, name_pieces, integer_pieces, variable_token, prefix_pieces, postfix_pieces, infix_pieces};
ghost use Rattle.term_writer.specs.TextInProgress.{with_token, side_of, mark_meant, followed_by, needs_space, space_text};

use crate::names::{is_braces, is_letter_name, is_nil, is_solo_name, is_symbol_name};
use au_model::Style;
use au_term::{NoMemory, VarNo, is_text};
use itoa::Buffer;
use op_table::Operator;
use std::alloc::Global;

/// A mark of punctuation.
#[derive(Clone, Copy, PartialEq, Eq)]
pub(crate) enum Mark {
    Open,
    Close,
    OpenList,
    CloseList,
    OpenCurly,
    CloseCurly,
    Comma,
    Bar,
}

/// What the seams on both sides of a token depend on.
#[derive(Clone, Copy, PartialEq, Eq)]
pub(crate) enum Side {
    /// A run of symbol characters.
    Symbols,
    /// A name of letters, or a variable.
    Letters,
    Digits,
    /// An opening round bracket.
    Open,
    Other,
}

/// What is in front of the next token.
#[derive(Clone, Copy)]
pub(crate) enum Front {
    Nothing,
    Space,
    Token(Side),
    /// A prefix operator that is a symbol run, and whether it is the minus.
    PrefixOperator(bool),
}

/// The bytes so far, in a style, and what the next token has to be kept apart from.
#[derive(Drop)]
pub(crate) struct Text {
    pub(crate) bytes: Vec<u8>,
    pub(crate) style: Style,
    pub(crate) front: Front,
}

impl Mark {
    fn byte(self) -> u8
        ensures { result ∷ [] ≡ token_text Style.Plain (mark_meant self) }
    {
        match self {
            Mark::Open => b'(',
            Mark::Close => b')',
            Mark::OpenList => b'[',
            Mark::CloseList => b']',
            Mark::OpenCurly => b'{',
            Mark::CloseCurly => b'}',
            Mark::Comma => b',',
            Mark::Bar => b'|',
        }
    }

    fn side(self) -> Side
        ensures { result ≡ side_of (mark_meant self) }
    {
        match self {
            Mark::Open => Side::Open,
            _ => Side::Other,
        }
    }
}

impl Front {
    /// Whether a space is between this and a token with these sides.
    fn needs_space(self, side: Side) -> bool
        ensures { result ≡ needs_space self side }
    {
        match self {
            Front::Nothing => false,
            Front::Space => true,
            Front::Token(Side::Symbols) => side == Side::Symbols,
            Front::Token(Side::Letters | Side::Digits) => {
                side == Side::Letters || side == Side::Digits
            }
            Front::Token(_) => false,
            Front::PrefixOperator(is_minus) => {
                side == Side::Symbols || side == Side::Open || is_minus && side == Side::Digits
            }
        }
    }
}

impl Text {
    /// No bytes yet.
    pub(crate) fn new(alloc: Global, style: Style) -> Text
        ensures bytes { result.bytes.items ≡ [] }
        ensures style { result.style ≡ style }
        ensures front { result.front ≡ Front.Nothing }
    {
        Text {
            bytes: Vec::new(alloc),
            style,
            front: Front::Nothing,
        }
    }

    /// Puts these bytes after the text; the next token is kept apart from nothing.
    pub(crate) fn raw(&mut self, bytes: &[u8]) -> Result<(), NoMemory>
        ensures bytes { OnOk result (self.new.bytes.items ≡ self.old.bytes.items ++ bytes.now) }
        ensures style { self.new.style ≡ self.old.style }
        ensures front { OnOk result (self.new.front ≡ Front.Nothing) }
    {
        self.bytes.extend_from_slice(bytes)?;
        self.front = Front::Nothing;
        Ok(())
    }

    /// The space in front of a token with these sides, where one is needed.
    fn begin(&mut self, side: Side) -> Result<(), NoMemory>
        ensures bytes { OnOk result (self.new.bytes.items ≡ self.old.bytes.items ++ space_text (needs_space self.old.front side)) }
        ensures style { self.new.style ≡ self.old.style }
        ensures front { OnOk result (self.new.front ≡ Front.Token side) }
    {
        if self.front.needs_space(side) {
            self.bytes.push(b' ')?;
        }
        self.front = Front::Token(side);
        Ok(())
    }

    /// Puts a token with these sides and bytes after the text.
    fn token(&mut self, side: Side, bytes: &[u8]) -> Result<(), NoMemory>
        ensures bytes { OnOk result (self.new.bytes.items ≡ self.old.bytes.items ++ space_text (needs_space self.old.front side) ++ bytes.now) }
        ensures style { self.new.style ≡ self.old.style }
        ensures front { OnOk result (self.new.front ≡ Front.Token side) }
    {
        self.begin(side)?;
        self.bytes.extend_from_slice(bytes)?;
        Ok(())
    }

    /// A space that a rule asks for.
    pub(crate) fn space(&mut self)
        ensures { (ps : List Piece) → followed_by self.new ps ≡ followed_by self.old (Space ∷ ps) }
    {
        self.front = Front::Space;
    }

    /// A mark of punctuation.
    pub(crate) fn mark(&mut self, mark: Mark) -> Result<(), NoMemory>
        ensures { OnOk result ((ps : List Piece) → followed_by self.new ps ≡ followed_by self.old (Put (mark_meant mark) ∷ ps)) }
    {
        self.token(mark.side(), &[mark.byte()])
    }

    /// An integer; a negative one is its sign and its digits.
    pub(crate) fn integer(&mut self, value: i64) -> Result<(), NoMemory>
        ensures { OnOk result ((ps : List Piece) → followed_by self.new ps ≡ followed_by self.old (integer_pieces value ps)) }
    {
        if value < 0 {
            self.token(Side::Symbols, b"-")?;
        }
        let mut buffer = Buffer::new();
        self.token(Side::Digits, buffer.format(value.unsigned_abs()).as_bytes())
    }

    /// A variable by its number.
    pub(crate) fn variable(&mut self, number: VarNo) -> Result<(), NoMemory>
        ensures { OnOk result ((ps : List Piece) → followed_by self.new ps ≡ followed_by self.old (Put (variable_token number) ∷ ps)) }
    {
        let mut buffer = Buffer::new();
        self.token(Side::Letters, b"_")?;
        self.bytes
            .extend_from_slice(buffer.format(number).as_bytes())?;
        Ok(())
    }

    /// A name between quotes, or its characters alone in plain style.
    fn quoted(&mut self, name: &str) -> Result<(), NoMemory>
        ensures bytes { OnOk result (self.new.bytes.items ≡ self.old.bytes.items ++ space_text (needs_space self.old.front Side.Other) ++ token_text self.old.style (QuotedName (chars name.now))) }
        ensures style { self.new.style ≡ self.old.style }
        ensures front { OnOk result (self.new.front ≡ Front.Token Side.Other) }
    {
        match self.style {
            Style::Plain => self.token(Side::Other, name.as_bytes()),
            Style::Quoted | Style::Canonical => {
                self.token(Side::Other, b"'")?;
                push_escaped_all(&mut self.bytes, name)?;
                self.bytes.push(b'\'')?;
                Ok(())
            }
        }
    }

    /// A name as one token, bare or between quotes.
    fn name_token(&mut self, name: &str) -> Result<(), NoMemory>
        ensures bytes { OnOk result (self.new.bytes.items ≡ with_token self.old (name_token (chars name.now))) }
        ensures style { self.new.style ≡ self.old.style }
        ensures front { OnOk result (self.new.front ≡ Front.Token (side_of (name_token (chars name.now)))) }
    {
        if is_symbol_name(name) {
            self.token(Side::Symbols, name.as_bytes())
        } else if is_letter_name(name) {
            self.token(Side::Letters, name.as_bytes())
        } else if is_solo_name(name) {
            self.token(Side::Other, name.as_bytes())
        } else {
            self.quoted(name)
        }
    }

    /// A name as one token.
    fn word(&mut self, name: &str) -> Result<(), NoMemory>
        ensures { OnOk result ((ps : List Piece) → followed_by self.new ps ≡ followed_by self.old (Put (name_token (chars name.now)) ∷ ps)) }
    {
        self.name_token(name)?;
        Ok(())
    }

    /// An atom, or a compound's name.
    pub(crate) fn name(&mut self, name: &str) -> Result<(), NoMemory>
        ensures { OnOk result ((ps : List Piece) → followed_by self.new ps ≡ followed_by self.old (name_pieces (chars name.now) ps)) }
    {
        if is_nil(name) {
            self.mark(Mark::OpenList)?;
            self.mark(Mark::CloseList)
        } else if is_braces(name) {
            self.mark(Mark::OpenCurly)?;
            self.mark(Mark::CloseCurly)
        } else {
            self.word(name)
        }
    }

    /// A prefix operator.
    pub(crate) fn prefix(&mut self, name: &str) -> Result<(), NoMemory>
        ensures { OnOk result ((ps : List Piece) → followed_by self.new ps ≡ followed_by self.old (prefix_pieces (chars name.now) ps)) }
    {
        if is_symbol_name(name) {
            self.symbol_prefix(name)
        } else {
            self.word(name)?;
            self.space();
            Ok(())
        }
    }

    /// A prefix operator that is a symbol run; a space after it depends on what follows.
    fn symbol_prefix(&mut self, name: &str) -> Result<(), NoMemory>
        requires { is_symbol_name (chars name.now) ≡ true }
        ensures { OnOk result ((ps : List Piece) → followed_by self.new ps ≡ followed_by self.old (prefix_pieces (chars name.now) ps)) }
    {
        self.name_token(name)?;
        self.front = Front::PrefixOperator(is_text(name, "-"));
        Ok(())
    }

    /// A postfix operator.
    pub(crate) fn postfix(&mut self, name: &str) -> Result<(), NoMemory>
        ensures { OnOk result ((ps : List Piece) → followed_by self.new ps ≡ followed_by self.old (postfix_pieces (chars name.now) ps)) }
    {
        if is_symbol_name(name) {
            return self.word(name);
        }
        self.space();
        self.word(name)
    }

    /// An infix operator.
    pub(crate) fn infix(&mut self, operator: Operator, name: &str) -> Result<(), NoMemory>
        ensures { OnOk result ((ps : List Piece) → followed_by self.new ps ≡ followed_by self.old (infix_pieces (operator_meant operator) (chars name.now) ps)) }
    {
        if is_text(name, ",") {
            return self.mark(Mark::Comma);
        }
        if is_tight(operator, name) {
            return self.word(name);
        }
        self.space();
        self.word(name)?;
        self.space();
        Ok(())
    }
}

/// Infix operators of this priority and above have spaces around them.
const SPACED_PRIORITY: u16 = 700;

/// Whether an infix operator is without spaces: a symbol run of a lower priority.
fn is_tight(operator: Operator, name: &str) -> bool
    ensures { result ≡ (is_symbol_name (chars name.now) && nat_lt operator.priority 700) }
{
    is_symbol_name(name) && operator.priority < SPACED_PRIORITY
}

/// Puts the characters of a name after the bytes, escaped as between quotes.
fn push_escaped_all(bytes: &mut Vec<u8>, name: &str) -> Result<(), NoMemory>
    ensures { OnOk result (bytes.new.items ≡ bytes.old.items ++ escaped_all (chars name.now)) }
{
    for c in name.chars() {
        push_escaped(bytes, c)?;
    }
    Ok(())
}

/// Puts a character after the bytes, escaped as between quotes.
fn push_escaped(bytes: &mut Vec<u8>, c: char) -> Result<(), NoMemory>
    ensures { OnOk result (bytes.new.items ≡ bytes.old.items ++ escaped c) }
{
    if c == '\\' || c == '\'' {
        bytes.extend_from_slice(&[b'\\', c as u8])?;
    } else if c == '\n' {
        bytes.extend_from_slice(b"\\n")?;
    } else if c < ' ' || c == '\x7f' {
        bytes.extend_from_slice(b"\\x")?;
        push_hexadecimal(bytes, c as u8)?;
        bytes.push(b'\\')?;
    } else {
        let mut buffer = [0; 4];
        bytes.extend_from_slice(c.encode_utf8(&mut buffer).as_bytes())?;
    }
    Ok(())
}

/// Puts a number's hexadecimal digits after the bytes.
fn push_hexadecimal(bytes: &mut Vec<u8>, number: u8) -> Result<(), NoMemory>
    ensures { OnOk result (bytes.new.items ≡ bytes.old.items ++ hexadecimal number) }
{
    if number >= 16 {
        bytes.push(digit(number / 16))?;
    }
    bytes.push(digit(number % 16))?;
    Ok(())
}

/// The byte of a hexadecimal digit.
fn digit(value: u8) -> u8
    requires { value < 16 }
    ensures { result ≡ digit_char value }
{
    if value < 10 {
        b'0' + value
    } else {
        b'a' + (value - 10)
    }
}
