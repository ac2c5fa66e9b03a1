//! What is loaded of a text so far.
ghost use Rattle.std.specs.Prelude.{◌≡◌, ◌++◌, ◌∷◌, [], true, false, IfOk};
ghost use Rattle.std.specs.Arc.{arc_value};
ghost use Rattle.std.specs.List.{list_any};
ghost use Rattle.au_term.specs.Term.{argument_count};
ghost use Rattle.au_model.specs.Terms.Forms.{name_of};
ghost use Rattle.run_model.specs.Programs.Clauses.{is_defined};
ghost use Rattle.text_load.specs.Directives.{MakesDynamic, ChangesOperators};
ghost use Rattle.text_load.specs.LoadedTexts.{defines, directed, first_loading, is_declared, taken, with_clause};
ghost use Rattle.text_load.specs.LoadedSentences.{IsTaken, directive_meant, sentence_meant};
ghost use Rattle.text_load.specs.LoadingView.{AreByDeclaration};

use crate::directive::Directive;
use crate::procedures::{Declared, Statics};
use crate::query::Query;
use crate::sentence::Sentence;
use au_model::{DoubleQuotes, FaultKind};
use au_term::{FlatTerm, NoMemory};
use clause_compile::Clause;
use dyn_clauses::Indicator;
use op_table::{OpRefusal, Ops};
use std::alloc::{AllocFailed, Global};
use std::marker::Model;
use std::sync::Arc;

/// Why a sentence is not taken.
#[derive(Clone, Copy, Debug, PartialEq, Eq)]
pub(crate) enum Untaken {
    Fault(FaultKind),
    NoMemory,
}

impl From<NoMemory> for Untaken {
    ghost use Rattle.text_load.specs.declared.loading.Untaken.TheVariants.{NoMemory as NoMemoryLeft};

    ghost from_gives = { λ _ e. e ≡ NoMemoryLeft };

    fn from(_error: NoMemory) -> Untaken {
        Untaken::NoMemory
    }
}

impl<T: Drop> From<AllocFailed<T>> for Untaken {
    ghost use Rattle.text_load.specs.declared.loading.Untaken.TheVariants.{NoMemory as NoMemoryLeft};

    ghost from_gives = { λ _ e. e ≡ NoMemoryLeft };

    fn from(_error: AllocFailed<T>) -> Untaken {
        Untaken::NoMemory
    }
}

/// The operators and the meaning of double-quoted items in force; the procedures that were made dynamic; the clauses of
/// the others and of these; and the queries.
#[derive(Drop)]
pub(crate) struct Loading {
    pub(crate) ops: Ops,
    pub(crate) quotes: DoubleQuotes,
    pub(crate) declared: Declared,
    pub(crate) statics: Statics,
    pub(crate) dynamics: Vec<Arc<Clause>>,
    pub(crate) queries: Vec<Query>,
}

impl Model for Loading {
    ghost use Rattle.std.specs.Prelude.{map};
    ghost use Rattle.std.specs.Arc.{arc_value};
    ghost use Rattle.std.specs.Coded.{codes};
    ghost use Rattle.au_term.specs.PrefixOrder.{term_code};
    ghost use Rattle.text_load.specs.LoadedTexts.{Loading as LoadingTerms};
    ghost use Rattle.text_load.specs.LoadingView.{AreByDeclaration};

    ghost Value = { LoadingTerms };

    ghost coded = { Prim.hlevel (codes, term_code) };

    ghost view = { λ l. record { setting = record { ops = l.ops; quotes = l.quotes }; declared = l.declared; statics = l.statics; dynamics = map arc_value l.dynamics.items; queries = l.queries.items } };

    ghost invariant = { λ l. AreByDeclaration l.declared l.statics (map arc_value l.dynamics.items) };
}

impl Loading {
    /// What a text begins with.
    pub(crate) fn new(alloc: Global) -> Result<Loading, NoMemory>
        ensures { IfOk result (λ l. l ≡ first_loading) }
    {
        Ok(Loading {
            ops: Ops::initial(alloc)?,
            quotes: DoubleQuotes::Codes,
            declared: Declared::new(alloc),
            statics: Statics::new(alloc),
            dynamics: Vec::new(alloc),
            queries: Vec::new(alloc),
        })
    }

    /// What is loaded with a sentence more.
    pub(crate) fn take(mut self, sentence: Sentence) -> Result<Loading, Untaken>
        ensures { IsTaken (λ l. l) (taken self (sentence_meant sentence)) result }
    {
        match sentence {
            Sentence::Clause(clause) => Ok(self.with_clause(clause)?),
            Sentence::Query(query) => {
                self.queries.push(query)?;
                Ok(self)
            }
            Sentence::Directive(directive) => self.direct(directive),
            Sentence::Refused(kind) => Err(Untaken::Fault(kind)),
        }
    }

    /// What is loaded with a clause more.
    fn with_clause(self, clause: Arc<Clause>) -> Result<Loading, NoMemory>
        ensures { IfOk result (λ l. l ≡ with_clause self (arc_value clause)) }
    {
        let procedure = Indicator::of_clause(&clause)?;
        if self.declared.has(&procedure) {
            return self.with_dynamic(clause);
        }
        self.with_static(clause)
    }

    /// What is loaded with a clause of a dynamic procedure more.
    fn with_dynamic(mut self, clause: Arc<Clause>) -> Result<Loading, NoMemory>
        requires { is_declared self.declared (name_of (arc_value clause).head) (argument_count (arc_value clause).head) ≡ true }
        ensures { IfOk result (λ l. l ≡ record self { dynamics = self.dynamics ++ arc_value clause ∷ [] }) }
    {
        self.dynamics.push(clause)?;
        Ok(self)
    }

    /// What is loaded with a clause of another procedure more.
    fn with_static(mut self, clause: Arc<Clause>) -> Result<Loading, NoMemory>
        requires { is_declared self.declared (name_of (arc_value clause).head) (argument_count (arc_value clause).head) ≡ false }
        ensures { IfOk result (λ l. l ≡ record self { statics = self.statics ++ arc_value clause ∷ [] }) }
    {
        self.statics = self.statics.with(clause)?;
        Ok(self)
    }

    /// What is loaded after a directive (7.4.2).
    fn direct(mut self, directive: Directive) -> Result<Loading, Untaken>
        ensures { IsTaken (λ l. l) (directed self (directive_meant directive)) result }
    {
        match directive {
            Directive::Dynamic(procedures) => self.declare(procedures),
            Directive::Discontiguous(_) => Ok(self),
            Directive::Op {
                priority,
                specifier,
                names,
            } => self.change_operators(&priority, &specifier, &names),
            Directive::Quotes(quotes) => {
                self.quotes = quotes;
                Ok(self)
            }
        }
    }

    /// Makes procedures dynamic, unless one has clauses and is static.
    fn declare(mut self, procedures: Vec<Indicator>) -> Result<Loading, Untaken>
        ensures { IsTaken (λ l. l) (directed self (MakesDynamic procedures.items)) result }
    {
        if self.has_static(&procedures) {
            return Err(Untaken::Fault(FaultKind::StaticTwice));
        }
        self.declared = self.declared.with_all(procedures)?;
        Ok(self)
    }

    /// Whether one of these procedures has clauses and is static.
    fn has_static(&self, procedures: &[Indicator]) -> bool
        ensures { result ≡ list_any (λ i. is_defined self.now.statics i.name i.arity) procedures.now }
    {
        procedures
            .iter()
            .any(|procedure| self.statics.define(procedure))
    }

    /// Does what `op/3` does, but for its errors.
    fn change_operators(
        mut self,
        priority: &FlatTerm,
        specifier: &FlatTerm,
        names: &FlatTerm,
    ) -> Result<Loading, Untaken>
        ensures { IsTaken (λ l. l) (directed self (ChangesOperators priority.now specifier.now names.now)) result }
    {
        match self.ops.add(priority, specifier, names) {
            Ok(()) => Ok(self),
            Err(OpRefusal::Fault(_)) => Err(Untaken::Fault(FaultKind::BadDirective)),
            Err(OpRefusal::NoMemory) => Err(Untaken::NoMemory),
        }
    }

    /// The procedures that were made dynamic.
    pub(crate) fn declared_procedures(&self) -> &[Indicator]
        ensures are { result.now ≡ self.now.declared }
        ensures apart { AreByDeclaration self.now.declared self.now.statics self.now.dynamics }
    {
        self.declared.procedures()
    }

    /// Whether the text defines a procedure.
    pub(crate) fn defines(&self, procedure: &Indicator) -> bool
        ensures { result ≡ defines self.now procedure.now.name procedure.now.arity }
    {
        self.statics.define(procedure) || self.declared.has(procedure)
    }

    /// Whether the text defines the procedure of a clause.
    pub(crate) fn defines_that_of(&self, clause: &Clause) -> Result<bool, NoMemory>
        ensures { IfOk result (λ b. b ≡ defines self.now (name_of clause.now.head) (argument_count clause.now.head)) }
    {
        let procedure = Indicator::of_clause(clause)?;
        Ok(self.defines(&procedure))
    }
}
