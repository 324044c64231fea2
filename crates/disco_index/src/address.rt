//! The vips of an address, one after another.
ghost use Rattle.std.specs.Prelude.{◌≡◌, [], ◌∷◌, MatchOption};
ghost use Rattle.disco_history.specs.Query.{vips};

/// The first vip of an address, and the rest of the address. There is none where every piece is
/// empty.
pub fn next_vip(address: &str) -> Option<(&str, &str)>
    ensures { MatchOption result (vips address.now ≡ []) (λ p. vips address.now ≡ p.0.now ∷ vips p.1.now) }
{
    let mut rest = address;
    while let Some((piece, after)) = rest.split_once(',') {
        if !piece.is_empty() {
            return Some((piece, after));
        }
        rest = after;
    }
    if rest.is_empty() {
        None
    } else {
        Some((rest, ""))
    }
}
