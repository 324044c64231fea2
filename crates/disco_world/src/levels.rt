//! The two levels of documents.
ghost use Rattle.std.specs.Prelude.{◌≡◌};
ghost use Rattle.std.specs.FinMap.{empty};
ghost use Rattle.disco_core.specs.Past.{nothing};
ghost use Rattle.disco_core.specs.State.{rules};
ghost use Rattle.disco_hub.specs.State.{HubStandsFor, rules_of};
ghost use Rattle.disco_world.specs.Outcomes.{new_cache};
ghost use Rattle.disco_world.specs.Steps.{cache_of};

use disco_cache::Edition;
use disco_hub::Hub;
use disco_values::Settings;
use std::alloc::Global;

/// A hub, the edition that readers look into, and the one that is being copied.
#[derive(Drop)]
pub(crate) struct CacheLevels {
    pub(crate) hub: Hub,
    pub(crate) published: Edition,
    pub(crate) next: Edition,
}

impl CacheLevels {
    /// An empty registry within the limits of the settings, in their run, and no document.
    pub(crate) fn new(alloc: Global, settings: &Settings) -> CacheLevels
        ensures stands { HubStandsFor result.hub (nothing settings.now.run) }
        ensures rules { rules_of result.hub ≡ rules settings.now }
        ensures cache { cache_of result.hub ≡ new_cache settings.now.entries }
        ensures published { result.published ≡ empty }
    {
        CacheLevels {
            hub: Hub::new(alloc, settings),
            published: Edition::new(alloc),
            next: Edition::new(alloc),
        }
    }
}
