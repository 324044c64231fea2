//! Settings of a registry.
ghost use Rattle.std.specs.Prelude.{◌≡◌, ◌<◌, ◌≤◌, true};
ghost use Rattle.disco_values.specs.Limits as limits;

use crate::limits::{MOST_ENTRIES, MOST_INSTANCES, MOST_QUEUE, MOST_VERSIONS, RETENTION};

/// Settings of a registry: its limits, whether it serves deltas, and the number of its run.
#[derive(Clone, Copy, Debug)]
pub struct Settings {
    /// The number of this run of the server, any u64. A restart needs a greater one, since it tells
    /// documents and copies of two runs apart.
    pub run: u64,
    /// How many versions there are at most: 1 to 2^64 - 1.
    pub versions: u64,
    /// How many instances are held at most: 1 to 65,536.
    pub instances: u64,
    /// How many recent changes are kept at most: 1 to 65,536.
    pub queue: u64,
    /// How many documents the cache keeps, and how many keys a round has, at most: 1 to 4,096.
    pub entries: u64,
    /// How long a recent change is kept, in milliseconds.
    pub retention: u64,
    /// Whether deltas are served.
    pub delta: bool,
    pub ghost has_versions: { 0 < versions },
    pub ghost has_instances: { 0 < instances },
    pub ghost instances_in_range: { instances ≤ limits.most_instances },
    pub ghost has_queue: { 0 < queue },
    pub ghost queue_in_range: { queue ≤ limits.most_queue },
    pub ghost has_entries: { 0 < entries },
    pub ghost entries_in_range: { entries ≤ limits.most_entries },
}

impl Settings {
    /// The default settings: run 0, the greatest limits, recent changes kept for 180,000 milliseconds,
    /// and deltas served.
    pub fn standard() -> Settings
        ensures run { result.run ≡ 0 }
        ensures versions { result.versions ≡ limits.most_versions }
        ensures instances { result.instances ≡ limits.most_instances }
        ensures queue { result.queue ≡ limits.most_queue }
        ensures entries { result.entries ≡ limits.most_entries }
        ensures retention { result.retention ≡ limits.retention }
        ensures delta { result.delta ≡ true }
    {
        Settings {
            run: 0,
            versions: MOST_VERSIONS,
            instances: MOST_INSTANCES,
            queue: MOST_QUEUE,
            entries: MOST_ENTRIES,
            retention: RETENTION,
            delta: true,
        }
    }
}
