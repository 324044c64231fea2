//! The path that a request's target names.
ghost use Rattle.std.specs.Prelude.{◌≡◌};
ghost use Rattle.disco_message.specs.Target.{path_of, behind_scheme, with_slash, from_path};

use crate::fields::eq_ignore_case;
use std::alloc::AllocError;
use std::marker::Model;

/// A path with its query: bytes of the target, and perhaps a `/` in front of them.
#[derive(Debug, Drop)]
pub(crate) struct Path<'a> {
    pub(crate) slash: bool,
    pub(crate) rest: &'a [u8],
}

impl<'a> Model for Path<'a> {
    ghost use Rattle.std.specs.Prelude.{ℕ, List, ◌∷◌, if◌then◌else◌};

    ghost Value = { List ℕ };

    ghost view = { λ p. if p.slash then 47 ∷ p.rest.now else p.rest.now };
}

/// The path of a target in origin-form or in absolute-form (RFC 9112, section 3.2).
pub(crate) fn path_of(target: &[u8]) -> Option<Path<'_>>
    ensures { result ≡ path_of target.now }
{
    if let [b'/', ..] = target {
        return Some(Path {
            slash: false,
            rest: target,
        });
    }
    if target.len() < 7 || !eq_ignore_case(&target[..7], b"http://") {
        return None;
    }
    behind_scheme(&target[7..])
}

fn behind_scheme(target: &[u8]) -> Option<Path<'_>>
    ensures { result ≡ behind_scheme target.now }
{
    match target {
        [] | [b'/' | b'?', ..] => None,
        _ => Some(behind_authority(target)),
    }
}

fn behind_authority(target: &[u8]) -> Path<'_>
    ensures { result ≡ with_slash (from_path target.now) }
{
    let mut rest = target;
    while let [first, after @ ..] = rest {
        if *first == b'/' {
            return Path { slash: false, rest };
        }
        if *first == b'?' {
            return Path { slash: true, rest };
        }
        rest = after;
    }
    Path { slash: true, rest }
}

impl<'a> Path<'a> {
    ghost use Rattle.std.specs.Prelude.{OnOk};

    /// Replaces the kept bytes by its own.
    pub(crate) fn copy_to(&self, kept: &mut Vec<u8>) -> Result<(), AllocError>
        ensures { OnOk result (kept.new.items ≡ self.now) }
    {
        kept.clear();
        if self.slash {
            kept.push(b'/')?;
        }
        kept.extend_from_slice(self.rest)
    }
}
