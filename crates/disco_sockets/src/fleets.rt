//! What a fleet says of clients whose copy isn't the registry.
use disco_client::Copy;
use disco_prog::lines_of;
use disco_reconcile::{Client, Fetch, Fetched};
use disco_values::{Bytes, DocKey, Fault, Form};
use disco_wire::read_document;
use std::alloc::Global;

/// All apps of a registry with one instance.
const ONE: &str =
    r#"{"applications":{"application":[{"instance":[{"actionType":"ADDED","app":"ORDERS","hostName":"h1","instanceId":"h1:orders:8080","ipAddr":"10.0.0.1","status":"UP","vipAddress":"orders"}],"name":"ORDERS"}],"apps__hashcode":"UP_1_","versions__delta":"1"}}"#;

/// The same but for its vip, with the same hash code.
const OTHER: &str =
    r#"{"applications":{"application":[{"instance":[{"actionType":"ADDED","app":"ORDERS","hostName":"h1","instanceId":"h1:orders:8080","ipAddr":"10.0.0.1","status":"UP","vipAddress":"others"}],"name":"ORDERS"}],"apps__hashcode":"UP_1_","versions__delta":"1"}}"#;

/// Answers each request with one document.
#[derive(Drop)]
struct Always {
    alloc: Global,
    document: &'static str,
}

impl Fetch for Always {
    ghost gives = { λ _ _ _ _. Unit {0} };

    ghost failed = { λ _. 0 };

    fn fetch(&mut self, _key: &DocKey) -> Result<Fetched, Fault> {
        Ok(Fetched {
            status: 200,
            body: Bytes::from_vec(self.document.as_bytes().to_vec(self.alloc)?),
            cert: None,
        })
    }

    fn failures(&self) -> u64 {
        0
    }
}

/// A client without a copy.
fn client(alloc: Global, document: &'static str) -> Client<Always> {
    Client::new(alloc, Always { alloc, document }, Form::Full)
}

/// A client with the copy of a document.
fn client_of(alloc: Global, document: &'static str) -> Result<Client<Always>, Fault> {
    let mut client = client(alloc, document);
    client.refresh()?;
    Ok(client)
}

/// What is said of a client whose copy is the registry, of one whose copy differs from it in a member,
/// and of one without a copy.
pub(crate) const SAID: &str = "fleet 1 UP_1_\nclient 0 yes\nclient 1 no\nclient 2 no\n";

fn registry(alloc: Global) -> Result<Copy, Fault> {
    let mut registry = Copy::new(alloc);
    registry.full(read_document(alloc, ONE.as_bytes())?)?;
    Ok(registry)
}

fn clients(alloc: Global) -> Result<Vec<Client<Always>>, Fault> {
    let mut clients = Vec::new(alloc);
    clients.push(client_of(alloc, ONE)?)?;
    clients.push(client_of(alloc, OTHER)?)?;
    clients.push(client(alloc, ONE))?;
    Ok(clients)
}

/// What a fleet of these three says.
pub(crate) fn say(alloc: Global) -> Result<String, Fault> {
    let registry = registry(alloc)?;
    let clients = clients(alloc)?;
    lines_of(alloc, &registry, clients.as_slice())
}
