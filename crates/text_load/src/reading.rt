//! Loading a text.
ghost use Rattle.std.specs.Prelude.{◌≡◌, IfOk, IfErr, IsCharBoundary};
ghost use Rattle.std.specs.Str.{chars};
ghost use Rattle.au_model.specs.Syntax.Primaries.{Setting};
ghost use Rattle.text_load.specs.LoadOutcome.{IsNext, IsStep, IsRefusedAt, IsLoadRefusal, BeginsTermAt, refusal_by};
ghost use Rattle.text_load.specs.LoadedTexts.{LoadsTo, Loads, first_loading};
ghost use Rattle.text_load.specs.LoadedSentences.{sentence_meant};

use crate::assembly::job_from;
use crate::job::Job;
use crate::loading::{Loading, Untaken};
use crate::sentence::{Sentence, sentence_of};
use au_model::FaultKind;
use au_term::NoMemory;
use std::alloc::Global;
use term_reader::{ReadOutcome, ReadRefused, line_and_column, read_term};
use token_scan::next_token;

/// Why a text loads to no job: its first fault, with its line and column, or running out of memory.
#[derive(Clone, Copy, Debug, PartialEq, Eq)]
pub enum LoadRefusal {
    Refused {
        line: u32,
        column: u32,
        kind: FaultKind,
    },
    NoMemory,
}

impl From<NoMemory> for LoadRefusal {
    ghost use Rattle.text_load.specs.declared.reading.LoadRefusal.TheVariants.{NoMemory as NoMemoryLeft};

    ghost from_gives = { λ _ e. e ≡ NoMemoryLeft };

    fn from(_error: NoMemory) -> LoadRefusal {
        LoadRefusal::NoMemory
    }
}

/// The job that a text loads to, with the procedures of a library that the text does not define (ISO/IEC 13211-1,
/// 7.4), or the first fault of the library or else of the text.
pub fn load(alloc: Global, library: &str, text: &str) -> Result<Job, LoadRefusal>
    ensures ok { IfOk result (LoadsTo (chars library.now) (chars text.now)) }
    ensures refused { IfErr result (IsLoadRefusal (chars library.now) (chars text.now)) }
{
    let library = loaded(alloc, library)?;
    let own = loaded(alloc, text)?;
    Ok(job_from(alloc, library, own)?)
}

/// What is loaded of a text.
fn loaded(alloc: Global, text: &str) -> Result<Loading, LoadRefusal>
    ensures ok { IfOk result (Loads first_loading (chars text.now)) }
    ensures refused { IfErr result (IsRefusedAt (chars text.now)) }
{
    let mut loading = Loading::new(alloc)?;
    let mut at = 0;
    'sentences: loop {
        match next_sentence(alloc, &loading, text, at)? {
            Next::Over => return Ok(loading),
            Next::Sentence(sentence, end) => {
                loading = taken(loading, sentence, text, at)?;
                at = end;
            }
        }
    }
}

/// What is next in a text: a sentence, and the place after it, or nothing but layout.
#[derive(Drop)]
pub(crate) enum Next {
    Sentence(Sentence, usize),
    Over,
}

/// What the term is that is in front of what is left of a text, as it is read with the operators and the meaning of
/// double-quoted items in force.
fn next_sentence(
    alloc: Global,
    loading: &Loading,
    text: &str,
    at: usize,
) -> Result<Next, LoadRefusal>
    requires { IsCharBoundary text.now at }
    ensures { IsNext loading.now text.now at result }
{
    match read_term(alloc, text, at, &loading.ops, loading.quotes) {
        Ok(ReadOutcome::EndOfText) => Ok(Next::Over),
        Ok(ReadOutcome::Read { term, names, end }) => {
            let sentence = sentence_of(alloc, term, names)?;
            Ok(Next::Sentence(sentence, end))
        }
        Err(refused) => Err(refusal_of(refused)),
    }
}

/// The refusal of a text in which no term can be read.
fn refusal_of(refused: ReadRefused) -> LoadRefusal
    ensures { result ≡ refusal_by refused }
{
    match refused {
        ReadRefused::Syntax { line, column, kind } => LoadRefusal::Refused { line, column, kind },
        ReadRefused::NoMemory => LoadRefusal::NoMemory,
    }
}

/// What is loaded with a sentence more, or its refusal: its term is blamed at its first token.
fn taken(
    loading: Loading,
    sentence: Sentence,
    text: &str,
    at: usize,
) -> Result<Loading, LoadRefusal>
    requires { IsCharBoundary text.now at }
    ensures { IsStep loading (sentence_meant sentence) text.now at result }
{
    match loading.take(sentence) {
        Ok(loading) => Ok(loading),
        Err(Untaken::Fault(kind)) => {
            let (line, column) = line_and_column(text, first_token(text, at));
            Err(LoadRefusal::Refused { line, column, kind })
        }
        Err(Untaken::NoMemory) => Err(LoadRefusal::NoMemory),
    }
}

/// The place of the first token after a place.
fn first_token(text: &str, at: usize) -> usize
    requires { IsCharBoundary text.now at }
    ensures begins { (s : Setting) → BeginsTermAt s text.now at result }
    ensures place { IsCharBoundary text.now result }
{
    match next_token(text, at) {
        Ok(token) => token.start,
        Err(_) => at,
    }
}
