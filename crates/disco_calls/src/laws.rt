//! A law of methods, the contract of a function that does nothing.
ghost use Rattle.disco_calls.specs.Laws.{AllowLaw};
ghost use Rattle.disco_calls.specs.Worked.{WorkedPaths};

/// The text of `Allow` names exactly the methods that a path has.
pub fn allow_law()
    ensures { AllowLaw }
{}

/// What the table of paths gives on small examples.
pub fn worked_examples()
    ensures { WorkedPaths }
{}
