//! Laws of what is written, and of what a document means.
ghost use Rattle.disco_wire.specs.Laws.{InstanceLaw, DocumentLaw, OneMeaning};

/// The tree of an instance means its row and its action, whatever surrounds it.
pub fn instance_law()
    ensures { InstanceLaw }
{}

/// The tree of a document means the instances in their order.
pub fn document_law()
    ensures { DocumentLaw }
{}

/// A tree has at most one meaning: wires with equal views are the same.
#[tactic(auto, using(crate::proofs::One::one_meaning))]
pub fn one_meaning()
    ensures { OneMeaning }
{}
