//! Laws of the standard order.
ghost use Rattle.run_model.specs.Goals.StandardOrder.{IsOrderOfTerms};

/// The standard order is total, and tells all different terms apart.
pub fn terms_are_ordered()
    ensures { IsOrderOfTerms }
{}
