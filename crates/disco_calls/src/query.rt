//! The query of a request's target.
ghost use Rattle.std.specs.Prelude.{◌≡◌, ◌==◌};
ghost use Rattle.std.specs.List.{position};
ghost use Rattle.disco_calls.specs.Query.{path_in, query_in};

fn first_question(target: &[u8]) -> Option<usize>
    ensures { result ≡ position (λ b. b == 63) target.now }
{
    target.iter().position(|b| *b == b'?')
}

/// The path of a target, and the query behind its first `?`, which may be empty.
pub(crate) fn split_target(target: &[u8]) -> (&[u8], &[u8])
    ensures path { result.0.now ≡ path_in target.now }
    ensures query { result.1.now ≡ query_in target.now }
{
    match first_question(target) {
        Some(at) => (&target[..at], &target[at + 1..]),
        None => (target, &[]),
    }
}
