//! The key of an instance.
ghost use Rattle.std.specs.Prelude.{◌≡◌};
ghost use Rattle.disco_values.specs.Key.{key_cmp};

use crate::text::Text;
use std::alloc::AllocError;
use std::cmp::Ordering;

/// The key of an instance: its app and its id. Keys are ordered by app, then by id, both in byte order.
#[derive(Debug, Drop, PartialEq, Eq)]
pub struct Key {
    /// The name of its app, in upper case (ASCII letters alone).
    pub app: Text,
    /// Its id in that app, which is compared exactly.
    pub id: Text,
}

impl Key {
    /// The order of the two: by app, then by id, both in byte order.
    pub fn compare(&self, other: &Key) -> Ordering
        ensures { result ≡ key_cmp self.now other.now }
    {
        self.cmp(other)
    }
}

impl Clone for Key {
    ghost is_clone = { λ s t. t ≡ s };

    fn clone(&self) -> Result<Key, AllocError> {
        Ok(Key {
            app: self.app.clone()?,
            id: self.id.clone()?,
        })
    }
}

impl PartialOrd for Key {
    ghost use Rattle.std.proofs.Common.{rules};
    ghost use Rattle.std.specs.Cmp.{partial_order_from_own_ties};
    ghost use Rattle.std.specs.Cmp.Rules.{comparing};
    ghost use Rattle.std.specs.Ordering.{as_partial_cmp};

    ghost partial_cmp = { as_partial_cmp key_cmp };

    ghost laws = { partial_order_from_own_ties (Prim.search (comparing, rules)) (Prim.search (comparing, rules)) };

    fn partial_cmp(&self, other: &Key) -> Option<Ordering> {
        Some(self.cmp(other))
    }
}

/// By hand, so that a search compares keys with no call but where longer texts begin alike.
impl Ord for Key {
    ghost use Rattle.std.proofs.Common.{rules};
    ghost use Rattle.std.specs.Cmp.Rules.{comparing};

    ghost cmp = { key_cmp };

    ghost total = { Prim.search (comparing, rules) };

    ghost matches_partial_cmp = { Prim.search (comparing, rules) };

    ghost matches_eq = { Prim.search (comparing, rules) };

    #[inline(always)]
    fn cmp(&self, other: &Key) -> Ordering {
        match self.app.cmp(&other.app) {
            Ordering::Equal => self.id.cmp(&other.id),
            decided => decided,
        }
    }
}
