//! How the counts follow a change.
ghost use Rattle.std.specs.Prelude.{◌≡◌, ◌<◌, ◌-◌, ◌^◌, Some};
ghost use Rattle.std.specs.FinMap.{get, len};
ghost use Rattle.disco_history.specs.Change.{change_view};
ghost use Rattle.disco_index.specs.Tally.{tally_in, without};
ghost use Rattle.disco_registry.specs.Commit.{held_after};

use disco_history::Change;
use disco_index::Counts;
use disco_registry::Registry;
use disco_values::{Action, Key};

/// Takes the record that the registry has at a key out of the counts.
#[tactic(auto, using(disco_index::proofs::Changes::held_law))]
fn uncount(counts: &mut Counts, registry: &Registry, key: &Key)
    requires { counts.old ≡ tally_in registry.now.held }
    ensures { counts.new ≡ without (tally_in registry.now.held) (get registry.now.held key.now) }
{
    if let Some(held) = registry.get(key) {
        counts.take(held.status);
    }
}

/// Counts a change that the registry is about to make.
#[tactic(auto, using(disco_index::proofs::Changes::insert_law, disco_index::proofs::Changes::remove_law))]
pub(crate) fn count(counts: &mut Counts, registry: &Registry, change: &Change)
    requires tally { counts.old ≡ tally_in registry.now.held }
    requires few { len registry.now.held < 2 ^ 64 - 1 }
    ensures { counts.new ≡ tally_in (held_after registry.now.held (Some (change_view change.now))) }
{
    uncount(counts, registry, change.key());
    if let Change::Put {
        action: Action::Added | Action::Modified,
        rec,
    } = change
    {
        counts.add(rec.status);
    }
}
