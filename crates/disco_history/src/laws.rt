//! Laws of the definitions, each the contract of a function that does nothing.
ghost use Rattle.disco_history.specs.Laws.{CopyLaw, FormLaw, HashLaw, OverlayLaw, UntouchedLaw};
ghost use Rattle.disco_history.specs.Worked.{Worked};

/// A delta from base o turns a copy of any version from o on into the newest one.
pub fn overlay_law()
    ensures { OverlayLaw }
{}

/// A document of all apps turns any copy into the registry that it was made of.
pub fn copy_law()
    ensures { CopyLaw }
{}

/// Two sets have one hash code exactly where every status has equal numbers in both.
pub fn hash_law()
    ensures { HashLaw }
{}

/// A copy, an overlay, a restriction and a hash code of records in a form are those of the records.
pub fn form_law()
    ensures { FormLaw }
{}

/// A change leaves the records of each query that asks neither for the record that was there nor
/// for the one that is put, with what was done to them.
pub fn untouched_law()
    ensures { UntouchedLaw }
{}

/// What the definitions give on small examples.
pub fn worked_examples()
    ensures { Worked }
{}
