//! Events and their replies.
use crate::instance_summary::InstanceSummaries;
use disco_cache::Payload;
use disco_hub::{Copied, Expired};
use disco_lease::Minute;
use disco_values::{Bytes, DocKey, Entries, Fault, Form, Text};
use std::alloc::Global;
use std::sync::Arc;

/// What happens to a registry, or to a client of it.
#[derive(Debug, Drop)]
pub enum Event {
    /// An event that needs no earlier reply.
    Step(Step),
    /// A client is given the document that an earlier event answered, by the number of that event
    /// from 1: one of all apps, or a delta.
    Take { client: u32, event: u64 },
    /// A certified client is given the document that an earlier event answered, by the number of that
    /// event from 1: one of all apps, or a delta. It takes it by its certificate. Certified clients are
    /// numbered apart from the plain ones.
    Certify { client: u32, event: u64 },
}

/// An event that needs no earlier reply. Moments are in milliseconds.
#[derive(Debug, Drop)]
pub enum Step {
    /// A registration under an app's name, with the JSON of its body.
    Register {
        now: u64,
        app: Text,
        json: Bytes,
    },
    /// A cancel of the instance of that app and id.
    Cancel {
        now: u64,
        app: Text,
        id: Text,
    },
    /// A renewal of the lease of that instance.
    Renew {
        now: u64,
        app: Text,
        id: Text,
    },
    /// The status of that instance becomes the one that is named.
    SetStatus {
        now: u64,
        app: Text,
        id: Text,
        status: Text,
    },
    /// The override of that instance goes, and its status becomes the one that is named, else
    /// Unknown.
    DropStatus {
        now: u64,
        app: Text,
        id: Text,
        status: Option<Text>,
    },
    /// These entries are put into the metadata of that instance.
    Metadata {
        now: u64,
        app: Text,
        id: Text,
        entries: Entries,
    },
    /// A reader asks for a document. The name of its app counts in upper case.
    Load {
        key: DocKey,
    },
    /// A reader asks for the document of the instance of an id, whatever its app.
    LoadById {
        id: Text,
        form: Form,
    },
    /// The changes that are older than the retention are forgotten.
    Clean {
        now: u64,
    },
    /// A minute is closed: how many renewals were accepted in it, and how many instances are held,
    /// decides whether leases run out.
    Minute,
    /// Instances whose leases have run out are cancelled.
    Expire {
        now: u64,
    },
    /// A publisher begins a round of copies.
    Begin,
    /// The next key of the round is copied.
    Copy,
    /// The documents of the round become the edition that readers look into.
    Publish,
    /// A reader looks into the edition. The name of its app counts in upper case.
    Look {
        key: DocKey,
    },
    /// A reader looks for the document of the instance of an id, which no edition has.
    LookById {
        id: Text,
        form: Form,
    },
    /// A look at a client's copy.
    Show {
        client: u32,
    },
    /// A look at a certified client's copy.
    ShowCertified {
        client: u32,
    },
    /// The server is started again: another run begins, with an empty registry and an empty edition.
    /// Clients keep their copies.
    Restart {
        run: u64,
    },
}

/// What an event answers.
#[derive(Debug, Drop)]
pub enum Reply {
    /// There was a change: the version after it.
    Changed(u64),
    /// There was nothing to change.
    Same,
    Doc(Arc<Payload, Global>),
    /// The queue was cleaned: the version from which deltas start now.
    Cleaned(u64),
    /// A minute was closed: what it keeps.
    Closed(Minute),
    /// Instances were cancelled whose leases had run out: how many, and why the run stopped before
    /// the last one, if it did.
    Expired(Expired),
    /// A round has begun: how many keys it has.
    Begun(u64),
    /// The next key was copied: its document, or the key where there is none.
    Copied(Copied),
    /// No key of the round is left.
    Done,
    /// A round was published: how many documents the edition has.
    Published(u64),
    /// The edition has no such document.
    Missed,
    /// A client took a document: whether the copy's hash code is now the document's, and the
    /// version at which the copy is known, if it is known at one.
    Taken {
        hash_equal: bool,
        version: Option<u64>,
    },
    /// A certified client was given a document: whether it took it, and the run and the version at
    /// which its copy is known then.
    Certified {
        taken: bool,
        run: u64,
        version: u64,
    },
    /// The instances of a client's copy, by key.
    Held(InstanceSummaries),
    /// Another run has begun.
    Restarted(u64),
    Refused(Fault),
}
