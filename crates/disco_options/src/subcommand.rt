//! The commands of the program.
ghost use Rattle.std.specs.Prelude.{◌≡◌, map, option_map, string_bytes};
ghost use Rattle.disco_options.specs.Options.{name_of, options_of, verb_of};

/// A command of the program.
#[derive(Clone, Copy, Debug, PartialEq, Eq)]
pub enum Subcommand {
    /// Answers the events of standard input.
    Replay,
    /// Serves requests on a port.
    Serve,
    /// Serves clients and writers in its own process.
    Fleet,
    /// Writes what changes in the registry of a server.
    Follow,
}

impl Subcommand {
    /// The command that the words name first, and `replay` where they name none.
    pub fn of(words: &[String]) -> Subcommand
        ensures { result ≡ verb_of (map string_bytes words.now) }
    {
        match words.first() {
            Some(word) if word.as_str() == "serve" => Subcommand::Serve,
            Some(word) if word.as_str() == "fleet" => Subcommand::Fleet,
            Some(word) if word.as_str() == "follow" => Subcommand::Follow,
            _ => Subcommand::Replay,
        }
    }

    /// The word that names it.
    pub(crate) fn name(self) -> &'static str
        ensures { result.now ≡ name_of self }
    {
        match self {
            Subcommand::Replay => "replay",
            Subcommand::Serve => "serve",
            Subcommand::Fleet => "fleet",
            Subcommand::Follow => "follow",
        }
    }

    /// The words behind its name, where that stands first.
    pub(crate) fn options<'a>(self, words: &'a [String]) -> Option<&'a [String]>
        ensures { option_map (λ o. map string_bytes o.now) result ≡ options_of self (map string_bytes words.entry.now) }
    {
        match words.split_first() {
            Some((word, options)) if word.as_str() == self.name() => Some(options),
            _ => None,
        }
    }
}
