//! Laws of unification.
ghost use Rattle.au_model.specs.Terms.Unifier.{Equations, unifier};
ghost use Rattle.au_model.specs.Terms.MostGeneral.{GoesByRules, IsUnifierAnswer, SameUnifiers, SameValues};
ghost use Rattle.au_model.specs.Terms.EquationsInTurn.{FrontFirst};

/// The unifier takes the first equation and goes by its rule. It is a most general one, and there is none only where
/// none exists. Equations with the same unifiers, as the same ones in another order, give each variable the same value.
/// Equations in front may be unified first.
pub fn unifier_is_most_general()
    ensures rules { GoesByRules }
    ensures answer { (eqs : Equations) → IsUnifierAnswer (unifier eqs) eqs }
    ensures order { (eqs es : Equations) → SameUnifiers eqs es → SameValues (unifier eqs) (unifier es) }
    ensures front { FrontFirst }
{}
