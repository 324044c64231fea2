//! Runs of expiry, which cancel instances whose leases ran out.
ghost use Rattle.disco_hub.specs.Expiry.{Expires};
ghost use Rattle.disco_core.specs.Past.{taken_in};
ghost use Rattle.disco_hub.specs.Transitions.{KeepsRest};

use crate::cancel::cancel_all;
use crate::hub::Hub;
use disco_values::Fault;

/// The result of a run of expiry.
#[derive(Debug, Drop)]
pub struct Expired {
    /// How many instances it cancelled.
    pub gone: u64,
    /// Why it stopped before its last instance, if it did.
    pub stopped: Option<Fault>,
}

/// Does the run at a moment.
pub(crate) fn expire(hub: &mut Hub, now: u64) -> Expired
    ensures history { Expires hub.old hub.new now (λ p. taken_in p now) result.gone result.stopped }
    ensures rest { KeepsRest hub.old hub.new }
{
    match hub.due(now) {
        Ok(keys) => cancel_all(hub, keys.as_slice(), now),
        Err(fault) => Expired {
            gone: 0,
            stopped: Some(fault),
        },
    }
}
