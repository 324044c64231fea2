//! What a document means, as it was read.
ghost use Rattle.std.specs.Prelude.{◌≡◌};

use disco_instance::Record;
use disco_values::{Action, Text};
use std::marker::Model;

/// Whether a document is of many apps, of one app, or of one instance.
#[derive(Clone, Copy, Debug, PartialEq, Eq)]
pub enum Shape {
    Many,
    App,
    One,
}

/// An instance in a document, with its action if one is named.
#[derive(Debug, Drop)]
pub struct Mention {
    pub rec: Record,
    pub action: Option<Action>,
}

/// Mentions in the order of the text.
#[derive(Debug, Drop)]
pub struct Mentions {
    mentions: Vec<Mention>,
}

impl Model for Mentions {
    ghost use Rattle.std.specs.Prelude.{List};
    ghost use Rattle.disco_wire.specs.declared.wire.Mention.{Mention};

    ghost Value = { List Mention };

    ghost view = { λ m. m.mentions.items };
}

impl Mentions {
    /// The mentions of a `Vec`. Takes no memory.
    pub fn from_vec(mentions: Vec<Mention>) -> Mentions
        ensures { result ≡ mentions.items }
    {
        Mentions { mentions }
    }

    /// The mentions as a slice.
    pub fn as_slice(&self) -> &[Mention]
        ensures { result.now ≡ self.now }
    {
        &self.mentions
    }

    /// The mentions themselves. Takes no memory.
    pub fn into_vec(self) -> Vec<Mention>
        ensures { result.items ≡ self }
    {
        self.mentions
    }
}

/// What a document means.
#[derive(Debug, Drop)]
pub struct Wire {
    pub shape: Shape,
    pub mentions: Mentions,
    /// The hash code: the member `apps__hashcode`.
    pub hash: Option<Text>,
    /// The version at which the document was built: the member `versions__delta`.
    pub version: Option<u64>,
}
