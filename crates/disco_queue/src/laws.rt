//! What the definitions give on small examples.
ghost use Rattle.disco_history.specs.Change.{Entry};
ghost use Rattle.disco_queue.specs.Worked.{WorkedQueue};

/// What the definitions give on small examples.
pub fn worked_examples()
    ensures { (a b c : Entry) → WorkedQueue a b c }
{}
