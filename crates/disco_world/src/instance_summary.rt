//! Summaries of the instances of a client's copy.
ghost use Rattle.std.specs.Prelude.{◌≡◌};

use disco_values::{Key, Status};
use std::marker::Model;

/// The key and the status of an instance of a client's copy.
#[derive(Debug, Drop)]
pub struct InstanceSummary {
    pub key: Key,
    pub status: Status,
}

/// Instances of a client's copy, by key.
#[derive(Debug, Drop)]
pub struct InstanceSummaries {
    listed: Vec<InstanceSummary>,
}

impl Model for InstanceSummaries {
    ghost use Rattle.std.specs.Prelude.{List};
    ghost use Rattle.disco_world.specs.declared.instance_summary.InstanceSummary.{InstanceSummary};

    ghost Value = { List InstanceSummary };

    ghost view = { λ h. h.listed.items };
}

impl InstanceSummaries {
    /// The summaries of a `Vec`.
    pub fn from_vec(listed: Vec<InstanceSummary>) -> InstanceSummaries
        ensures { result ≡ listed.items }
    {
        InstanceSummaries { listed }
    }

    /// The summaries as a slice.
    pub fn as_slice(&self) -> &[InstanceSummary]
        ensures { result.now ≡ self.now }
    {
        &self.listed
    }
}
