//! What a change did to an instance.
ghost use Rattle.std.specs.Prelude.{◌≡◌};
ghost use Rattle.disco_values.specs.Action.{action_named, action_name};

/// What a change did to an instance, as `actionType` says it.
#[derive(Clone, Copy, Debug, PartialEq, Eq)]
pub enum Action {
    Added,
    Modified,
    Deleted,
}

/// The action of exactly that name.
pub fn action_of(text: &str) -> Option<Action>
    ensures { result ≡ action_named text.now }
{
    match text {
        "ADDED" => Some(Action::Added),
        "MODIFIED" => Some(Action::Modified),
        "DELETED" => Some(Action::Deleted),
        _ => None,
    }
}

impl Action {
    /// Its name in a document.
    pub fn name(self) -> &'static str
        ensures { result.now ≡ action_name self }
    {
        match self {
            Action::Added => "ADDED",
            Action::Modified => "MODIFIED",
            Action::Deleted => "DELETED",
        }
    }
}
