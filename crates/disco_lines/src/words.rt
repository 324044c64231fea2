//! Words of a line.
ghost use Rattle.std.specs.Prelude.{◌≡◌, ◌∷◌, [], ℕ, List, MatchBool, MatchOption, option_map};
ghost use Rattle.disco_lines.specs.Steps.{words_left};
ghost use Rattle.disco_lines.specs.Words.{joined, only, words};

use crate::find::first_of;
use std::marker::Model;

/// The words of a line that are still to be read. One space stands between two words.
#[derive(Drop)]
pub(crate) struct Words<'a> {
    rest: Option<&'a [u8]>,
}

impl<'a> Model for Words<'a> {
    ghost use Rattle.std.specs.Prelude.{ℕ, List, option_map};
    ghost use Rattle.disco_lines.specs.Steps.{words_left};

    ghost Value = { List (List ℕ) };

    ghost view = { λ w. words_left (option_map (λ r. r.now) w.rest) };
}

/// The first word of a line, and what stands behind the space that follows it.
#[inline]
fn split_word(line: &[u8]) -> (&[u8], Option<&[u8]>)
    ensures { words line.now ≡ result.0.now ∷ words_left (option_map (λ r. r.now) result.1) }
{
    match first_of(b' ', line) {
        Some(at) => (&line[..at], Some(&line[at + 1..])),
        None => (line, None),
    }
}

impl<'a> Words<'a> {
    /// All words of a line.
    pub(crate) fn of(line: &'a [u8]) -> Words<'a>
        ensures { result ≡ words line.now }
    {
        Words { rest: Some(line) }
    }

    /// The first word and those behind it, `None` where no word is left.
    #[inline]
    pub(crate) fn split(self) -> Option<(&'a [u8], Words<'a>)>
        ensures { MatchOption result (self.entry ≡ []) (λ r. self.entry ≡ r.0.now ∷ r.1) }
    {
        match self.rest {
            Some(line) => {
                let (word, rest) = split_word(line);
                Some((word, Words { rest }))
            }
            None => None,
        }
    }

    /// Whether no word is left.
    pub(crate) fn is_empty(&self) -> bool
        ensures { MatchBool result (self.now ≡ []) ((word : List ℕ) × (more : List (List ℕ)) × (self.now ≡ word ∷ more)) }
    {
        self.rest.is_none()
    }

    /// The one word that is left, `None` where none is or more are.
    pub(crate) fn only(self) -> Option<&'a [u8]>
        ensures { option_map (λ w. w.now) result ≡ only self.entry }
    {
        let (word, more) = self.split()?;
        if more.is_empty() { Some(word) } else { None }
    }

    /// The words as they stand in the line, nothing where no word is left.
    pub(crate) fn rest(self) -> &'a [u8]
        ensures { result.now ≡ joined self.entry }
    {
        match self.rest {
            Some(rest) => rest,
            None => &[],
        }
    }
}
