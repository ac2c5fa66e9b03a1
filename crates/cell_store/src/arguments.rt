//! Arguments of compounds.
ghost use Rattle.std.specs.Prelude.{◌≡◌, ◌<◌, ◌+◌, ◌-◌, ◌^◌, ◌∷◌, List};
ghost use Rattle.cell_store.specs.UnificationSteps.{KeepsRestEquations};
ghost use Rattle.cell_store.specs.declared.arguments.Equations.{Equations as EquationsValue};

/// So many arguments that follow one another, from a place on, and the number that is added to their variables.
#[derive(Clone, Copy, Debug)]
pub struct Arguments {
    pub at: u32,
    pub base: u32,
    pub count: u32,
}

/// Equations between as many arguments on either side.
#[derive(Clone, Copy, Debug)]
pub struct Equations {
    pub left: Arguments,
    pub right: Arguments,
}

/// The arguments of the compound at a place.
#[inline(always)]
pub fn arguments_of(compound: (u32, u32), count: u32) -> Arguments
    requires { compound.0 < 2 ^ 32 - 1 }
    ensures { result ≡ record { at = compound.0 + 1; base = compound.1; count = count } }
{
    Arguments {
        at: compound.0 + 1,
        base: compound.1,
        count,
    }
}

/// Arguments but for the first.
#[inline(always)]
pub fn rest_of(arguments: Arguments) -> Arguments
    requires some { 0 < arguments.count }
    requires short { arguments.at < 2 ^ 32 - 1 }
    ensures { result ≡ record { at = arguments.at + 1; base = arguments.base; count = arguments.count - 1 } }
{
    Arguments {
        at: arguments.at + 1,
        base: arguments.base,
        count: arguments.count - 1,
    }
}

/// Equations but for the first.
#[inline(always)]
pub(crate) fn rest(equations: Equations) -> Equations
    requires some { (1 < equations.left.count) × (0 < equations.right.count) }
    requires short { (equations.left.at < 2 ^ 32 - 1) × (equations.right.at < 2 ^ 32 - 1) }
    ensures kept { (es : List EquationsValue) → KeepsRestEquations equations es (result ∷ es) }
    ensures fewer { result.left.count < equations.left.count }
{
    let left = rest_of(equations.left);
    // There are as many on the right.
    let right = Arguments {
        at: equations.right.at + 1,
        base: equations.right.base,
        count: left.count,
    };
    Equations { left, right }
}
