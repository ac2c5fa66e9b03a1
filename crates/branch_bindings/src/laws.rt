//! Laws of bindings: each function does nothing, and its contract is the law.
ghost use Rattle.branch_bindings.specs.BindingEquations.{UnifierIsMade};
ghost use Rattle.branch_bindings.specs.CellEquations.{UnifierIsRepresented};
ghost use Rattle.branch_bindings.specs.ExtensionLaws.{ExtensionsCompose, ExtensionsStayOlder, ExtensionsAreFinal, NothingExtends};
ghost use Rattle.branch_bindings.specs.ExtensionLaws.{UnifiedBindingsExtend, SettledBindingsExtend, SettledAreUnified, MadeBindingsExtend};
ghost use Rattle.branch_bindings.specs.ExtensionLaws.{UnifiersStandForOlder, UnifiersAreFinal};

/// Where a substitution gives each bound variable what its value stands for by it, leaves all others as they are, and no
/// variable is bound to a younger one or to itself, it gives each what the unifier of the bindings gives it, in whatever
/// order and however often these are listed. Values may have had bindings applied.
pub fn unifier_is_made()
    ensures { UnifierIsMade }
{}

/// Where cells, whose values are of the text and whose chains of variables fall, represent a substitution, it gives each
/// variable what the unifier of their bindings gives it.
pub fn unifier_is_represented()
    ensures { UnifierIsRepresented }
{}

/// Further bindings and then others are further bindings of the first substitution. What they make gives no variable a younger
/// one and has all bindings applied, where the first gave none a younger one. No bindings lead from such a substitution to itself.
pub fn extensions_compose()
    ensures compose { ExtensionsCompose }
    ensures older { ExtensionsStayOlder }
    ensures last { ExtensionsAreFinal }
    ensures nothing { NothingExtends }
{}

/// Where bindings have a unifier with the values of a substitution, and further ones make another substitution of it, all of
/// them have a unifier with the values of that, and they stay settled.
pub fn extensions_are_unified()
    ensures unified { UnifiedBindingsExtend }
    ensures settled { SettledBindingsExtend }
    ensures free { SettledAreUnified }
{}

/// A unifier gives no variable a younger one, and what it gives has all of it applied.
pub fn unifiers_are_final()
    ensures older { UnifiersStandForOlder }
    ensures last { UnifiersAreFinal }
{}

/// What a store has bound since a mark, as it is written, makes what is bound now of what was bound there.
pub fn made_bindings_extend()
    ensures { MadeBindingsExtend }
{}
