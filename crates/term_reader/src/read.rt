//! Reading a term.
ghost use Rattle.std.specs.Prelude.{◌≡◌, IfOk, IsCharBoundary};
ghost use Rattle.au_model.specs.Syntax.Characters.{chars_from};
ghost use Rattle.au_model.specs.Syntax.TermTexts.{is_over};
ghost use Rattle.term_reader.specs.PrimaryView.{setting_of};
ghost use Rattle.term_reader.specs.ReadTerm.{IsTermRead, IsReadTo};

use crate::place::line_and_column;
use crate::primary::Source;
use crate::refusal::Refused;
use crate::state::{Expected, State};
use crate::steps::{Step, step_at};
use au_model::{DoubleQuotes, FaultKind, VarName};
use au_term::{FlatTerm, NoMemory};
use op_table::Ops;
use std::alloc::Global;
use token_scan::{TokenKind, next_token};

/// What is at the front of a text.
#[derive(Drop)]
pub enum ReadOutcome {
    /// A term with its end. Its named variables are in the order of first occurrence.
    Read {
        term: FlatTerm,
        names: Vec<VarName>,
        end: usize,
    },
    /// Nothing but layout.
    EndOfText,
}

/// Why nothing was read.
#[derive(Clone, Copy, Debug, PartialEq, Eq)]
pub enum ReadRefused {
    Syntax {
        line: u32,
        column: u32,
        kind: FaultKind,
    },
    NoMemory,
}

impl From<NoMemory> for ReadRefused {
    ghost use Rattle.term_reader.specs.declared.read.ReadRefused.TheVariants.{NoMemory as NoMemoryLeft};

    ghost from_gives = { λ _ e. e ≡ NoMemoryLeft };

    fn from(_error: NoMemory) -> ReadRefused {
        ReadRefused::NoMemory
    }
}

/// How reading ended.
#[derive(Drop)]
enum Reading {
    Whole(State, usize),
    Refused(Refused),
}

/// Reads tokens up to an end or a fault.
fn read_tokens(source: Source<'_>, at: usize) -> Result<Reading, NoMemory>
    requires { IsCharBoundary source.text.now at }
    ensures { IfOk result (λ r. IsReadTo (setting_of source.entry) source.entry.text.now at r) }
{
    let mut state = State::new(source.alloc, at);
    let mut expected = Expected::Operand;
    'tokens: loop {
        match step_at(source, &mut state, expected)? {
            Step::Continue(next) => expected = next,
            Step::Accept(end) => return Ok(Reading::Whole(state, end)),
            Step::Refused(refused) => return Ok(Reading::Refused(refused)),
        }
    }
}

/// Whether nothing but layout is left.
fn is_over(text: &str, at: usize) -> bool
    requires { IsCharBoundary text.now at }
    ensures { result ≡ is_over (chars_from text.now at) }
{
    match next_token(text, at) {
        Ok(token) => match token.kind {
            TokenKind::EndOfText => true,
            _ => false,
        },
        Err(_) => false,
    }
}

/// Reads the term with its end at the front of what is left of a text (ISO/IEC 13211-1, 6.2).
pub fn read_term(
    alloc: Global,
    text: &str,
    at: usize,
    ops: &Ops,
    quotes: DoubleQuotes,
) -> Result<ReadOutcome, ReadRefused>
    requires { IsCharBoundary text.now at }
    ensures { IsTermRead (record { ops = ops.now; quotes = quotes }) text.now at result }
{
    if is_over(text, at) {
        return Ok(ReadOutcome::EndOfText);
    }
    let source = Source {
        alloc,
        text,
        ops,
        quotes,
    };
    let reading = read_tokens(source, at)?;
    match reading {
        Reading::Whole(state, end) => {
            let (term, names) = state.output.finish(alloc)?;
            Ok(ReadOutcome::Read { term, names, end })
        }
        Reading::Refused(refused) => {
            let (line, column) = line_and_column(text, refused.at);
            Err(ReadRefused::Syntax {
                line,
                column,
                kind: refused.kind,
            })
        }
    }
}
