//! Laws of loading: each function does nothing, and its contract is the law.
ghost use Rattle.std.specs.Prelude.{◌≡◌, ℕ, List};
ghost use Rattle.run_model.specs.Programs.Jobs.{Job};
ghost use Rattle.au_model.specs.Syntax.Primaries.{Setting};
ghost use Rattle.au_model.specs.declared.types.FaultKind.{FaultKind};
ghost use Rattle.text_load.specs.LoadedTexts.{FirstFault, IsOneRefusal, Loading, Loads, LoadsTo};
ghost use Rattle.text_load.specs.Totality.{HasAllLoaded, HasFault, HasFirstFault, HasJob, HasRefusal, HasTermFirst, IsNeverNeither};

/// A text loads to one job at most, a text of sentences has no fault, and the first fault of another text is one.
pub fn texts_load_to_one_job()
    ensures one { (library text : List ℕ) (job other : Job) → LoadsTo library text job → LoadsTo library text other → job ≡ other }
    ensures none { (l all : Loading) (text from : List ℕ) (kind : FaultKind) → Loads l text all → FirstFault l text kind from → ⊥ }
    ensures refused { (text : List ℕ) → IsOneRefusal text }
{}

/// It is never that characters have neither a term with its end in front nor a fault.
pub fn terms_are_read_or_refused()
    ensures { (s : Setting) (cs : List ℕ) → IsNeverNeither (HasTermFirst s cs) (HasFault s cs) }
{}

/// It is never that a text has neither sentences nor a first fault, and so never that it neither loads nor is refused.
pub fn texts_load_or_are_refused()
    ensures sentences { (l : Loading) (text : List ℕ) → IsNeverNeither (HasAllLoaded l text) (HasFirstFault l text) }
    ensures job { (library text : List ℕ) → IsNeverNeither (HasJob library text) (HasRefusal library text) }
{}
