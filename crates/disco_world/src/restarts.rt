//! Restarts of the server.
ghost use Rattle.std.specs.Prelude.{◌≡◌};
ghost use Rattle.disco_core.specs.State.{rules};
ghost use Rattle.disco_hub.specs.State.{rules_of};
ghost use Rattle.disco_world.specs.Events.{restarts};
ghost use Rattle.disco_world.specs.Levels.{Turns};

use crate::event::Reply;
use crate::levels::CacheLevels;
use disco_values::{Fault, Settings};
use std::alloc::Global;

/// The same limits and choices in another run.
fn in_run(settings: &Settings, run: u64) -> Settings
    ensures run { result.run ≡ run }
    ensures rules { rules result ≡ rules settings.now }
    ensures entries { result.entries ≡ settings.now.entries }
{
    let mut other = *settings;
    other.run = run;
    other
}

/// Begins another run of the server: an empty registry, of which readers see nothing. Clients keep
/// their copies. Refused as `RunNotNew` where the run isn't greater than the one that is running, and
/// then all is as before. Takes no memory.
pub(crate) fn restart(
    alloc: Global,
    settings: &Settings,
    levels: &mut CacheLevels,
    run: u64,
) -> Reply
    requires ruled { rules_of levels.old.hub ≡ rules settings.now }
    requires room { levels.old.hub.docs.max ≡ settings.now.entries }
    ensures turns { Turns levels.old levels.new (λ _. restarts run) result }
    ensures rules { rules_of levels.new.hub ≡ rules_of levels.old.hub }
{
    if run <= levels.hub.run() {
        return Reply::Refused(Fault::RunNotNew);
    }
    *levels = CacheLevels::new(alloc, &in_run(settings, run));
    Reply::Restarted(run)
}
