//! Laws of the spelling of terms.
ghost use Rattle.std.specs.Prelude.{◌≡◌, ℕ, List};
ghost use Rattle.au_model.specs.Syntax.Tokens.{Token};
ghost use Rattle.au_model.specs.Syntax.Trees.{Tree};
ghost use Rattle.au_model.specs.Syntax.Primaries.{Setting};
ghost use Rattle.au_model.specs.Syntax.Spelling.{Operand};
ghost use Rattle.au_model.specs.declared.types.FaultKind.{FaultKind};
ghost use Rattle.au_model.specs.Syntax.TextFaults.{Fault, FaultAt};

/// A list of tokens has at most one reading within a bound, whatever the operators are.
pub fn one_reading()
    ensures { (s : Setting) (bound : ℕ) (ts us vs : List Token) (t u : Tree) → Operand s bound ts us t → Operand s bound ts vs u → (us ≡ vs) × (t ≡ u) }
{}

/// The first token with which tokens begin no term is one, whatever the operators are.
pub fn one_faulty_token()
    ensures { (s : Setting) (ts : List Token) (m n : ℕ) → FaultAt s ts m → FaultAt s ts n → m ≡ n }
{}

/// The fault of a text is one, of one kind and at one place.
pub fn one_fault()
    ensures { (s : Setting) (cs us vs : List ℕ) (j k : FaultKind) → Fault s cs j us → Fault s cs k vs → (j ≡ k) × (us ≡ vs) }
{}
