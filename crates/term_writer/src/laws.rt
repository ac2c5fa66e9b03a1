//! Laws of the definitions: each function does nothing, and its contract is the law.
ghost use Rattle.std.specs.Prelude.{◌≡◌, [], ◌++◌, codes};
ghost use Rattle.std.specs.Str.{chars};
ghost use Rattle.au_term.specs.Term.{Term};
ghost use Rattle.au_model.specs.Terms.Copies.{copied};
ghost use Rattle.au_model.specs.Syntax.Primaries.{Setting};
ghost use Rattle.au_model.specs.Syntax.Operators.{IsOperatorTable};
ghost use Rattle.au_model.specs.Writing.ReadBack.{tree_of, IsWritable};
ghost use Rattle.au_model.specs.Syntax.VariableNumbers.{no_variables, numbered};
ghost use Rattle.au_model.specs.Syntax.TermTexts.{SpellsTermWithEnd};
ghost use Rattle.au_model.specs.Writing.WrittenTerms.{written_term};
ghost use Rattle.au_model.specs.declared.types.Style.TheVariants.{Quoted};

/// What is written of a term in quoted style, with a space and a full stop after it, spells the term again and nothing
/// more, under the same operators and whatever double-quoted items stand for. A variable's name is what is written for
/// it, so the term that is read is the copy with variables numbered from 0.
pub fn written_is_read_back()
    ensures spelled { (s : Setting) → IsOperatorTable s.ops → (t : Term) → IsWritable t → SpellsTermWithEnd s (chars (written_term Quoted s.ops t ++ codes " .")) (tree_of t) [] }
    ensures copied { (t : Term) → IsWritable t → (numbered no_variables (tree_of t)).0 ≡ copied t 0 }
{}
