//! The procedures that a text makes dynamic, and those that it gives clauses, with quick tests for each.
ghost use Rattle.std.specs.Prelude.{◌≡◌, ◌++◌, ◌∷◌, [], IfOk, map};
ghost use Rattle.std.specs.Arc.{arc_value};
ghost use Rattle.run_model.specs.Programs.Clauses.{is_defined};
ghost use Rattle.text_load.specs.LoadedTexts.{is_declared};

use au_term::NoMemory;
use clause_compile::Clause;
use dyn_clauses::Indicator;
use std::alloc::Global;
use std::collections::BTreeSet;
use std::marker::Model;
use std::sync::Arc;

/// Procedures in the order in which they were made dynamic. Contracts see the list.
#[derive(Drop)]
pub(crate) struct Declared {
    procedures: Vec<Indicator>,
    known: BTreeSet<Indicator>,
}

impl Model for Declared {
    ghost use Rattle.std.specs.Prelude.{List};
    ghost use Rattle.std.specs.Coded.{codes};
    ghost use Rattle.dyn_clauses.specs.declared.indicator.Indicator.{Indicator as IndicatorTerms};
    ghost use Rattle.text_load.specs.LoadingView.{IsSetOf};

    ghost Value = { List IndicatorTerms };

    ghost coded = { Prim.hlevel (codes) };

    ghost view = { λ d. d.procedures.items };

    ghost invariant = { λ d. IsSetOf d.known.keys d.procedures.items };
}

impl Declared {
    pub(crate) fn new(alloc: Global) -> Declared
        ensures { result ≡ [] }
    {
        Declared {
            procedures: Vec::new(alloc),
            known: BTreeSet::new(alloc),
        }
    }

    pub(crate) fn procedures(&self) -> &[Indicator]
        ensures { result.now ≡ self.now }
    {
        &self.procedures
    }

    pub(crate) fn has(&self, procedure: &Indicator) -> bool
        ensures { result ≡ is_declared self.now procedure.now.name procedure.now.arity }
    {
        self.known.contains(procedure)
    }

    /// These, and a procedure after them.
    pub(crate) fn with(mut self, procedure: Indicator) -> Result<Declared, NoMemory>
        ensures { IfOk result (λ d. d ≡ self ++ procedure ∷ []) }
    {
        self.known.insert(procedure.share()?)?;
        self.procedures.push(procedure)?;
        Ok(self)
    }

    /// These, and others after them.
    pub(crate) fn with_all(self, procedures: Vec<Indicator>) -> Result<Declared, NoMemory>
        ensures { IfOk result (λ d. d ≡ self ++ procedures.items) }
    {
        let mut all = self;
        for procedure in procedures {
            all = all.with(procedure)?;
        }
        Ok(all)
    }
}

/// Clauses in the order of the text. Contracts see the list.
#[derive(Drop)]
pub(crate) struct Statics {
    clauses: Vec<Arc<Clause>>,
    defined: BTreeSet<Indicator>,
}

impl Model for Statics {
    ghost use Rattle.std.specs.Prelude.{List, map};
    ghost use Rattle.std.specs.Arc.{arc_value};
    ghost use Rattle.std.specs.Coded.{codes};
    ghost use Rattle.au_term.specs.PrefixOrder.{term_code};
    ghost use Rattle.run_model.specs.Programs.Clauses.{Clause as ClauseTerms};
    ghost use Rattle.text_load.specs.LoadingView.{AreProceduresOf};

    ghost Value = { List ClauseTerms };

    ghost coded = { Prim.hlevel (codes, term_code) };

    ghost view = { λ s. map arc_value s.clauses.items };

    ghost invariant = { λ s. AreProceduresOf s.defined.keys (map arc_value s.clauses.items) };
}

impl Statics {
    pub(crate) fn new(alloc: Global) -> Statics
        ensures { result ≡ [] }
    {
        Statics {
            clauses: Vec::new(alloc),
            defined: BTreeSet::new(alloc),
        }
    }

    pub(crate) fn clauses(&self) -> &[Arc<Clause>]
        ensures { map arc_value result.now ≡ self.now }
    {
        &self.clauses
    }

    /// Whether a clause is of this procedure.
    pub(crate) fn define(&self, procedure: &Indicator) -> bool
        ensures { result ≡ is_defined self.now procedure.now.name procedure.now.arity }
    {
        self.defined.contains(procedure)
    }

    /// These, and a clause after them.
    pub(crate) fn with(mut self, clause: Arc<Clause>) -> Result<Statics, NoMemory>
        ensures { IfOk result (λ s. s ≡ self ++ arc_value clause ∷ []) }
    {
        self.defined.insert(Indicator::of_clause(&clause)?)?;
        self.clauses.push(clause)?;
        Ok(self)
    }
}
