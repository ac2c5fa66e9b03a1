//! The law of bindings: the function does nothing, and its contract is the law.
ghost use Rattle.binding_array.specs.Represented.{BindingRepresents};

/// Where cells represent a substitution, a free variable is bound to what a value stands for by it, and it does not occur
/// there, they represent the substitution in which it is put in the variable's place.
pub fn binding_represents()
    ensures { BindingRepresents }
{}
