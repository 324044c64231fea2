//! Splits a path at its first slash.
ghost use Rattle.std.specs.Prelude.{◌≡◌};
ghost use Rattle.std.specs.List.{after_first, before_first, position};
ghost use Rattle.disco_calls.specs.Paths.{is_slash};

fn first_slash(path: &[u8]) -> Option<usize>
    ensures { result ≡ position is_slash path.now }
{
    path.iter().position(|b| *b == b'/')
}

/// The parts of a path before and behind its first slash. Without a slash: the whole path, and nothing.
pub(crate) fn split(path: &[u8]) -> (&[u8], &[u8])
    ensures part { result.0.now ≡ before_first is_slash path.now }
    ensures rest { result.1.now ≡ after_first is_slash path.now }
{
    match first_slash(path) {
        Some(at) => (&path[..at], &path[at + 1..]),
        None => (path, &[]),
    }
}
