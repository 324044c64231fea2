//! Laws of the definitions, each the contract of a function that does nothing.
ghost use Rattle.disco_reconcile.specs.Laws.{GrowthLaw, ServedLaw};

/// A certified copy stays exact while the histories go on.
pub fn growth_law()
    ensures { GrowthLaw }
{}

/// A document that was true of its run's history when it was served means what its certificate says
/// while that history goes on.
pub fn served_law()
    ensures { ServedLaw }
{}
