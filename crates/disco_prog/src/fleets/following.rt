//! Clients that keep a copy over connections of their own.
ghost use Rattle.std.specs.Prelude.{◌≡◌, None, if◌then◌else◌};
ghost use Rattle.disco_reconcile.specs.declared.kept.Kept.TheVariants.{Certified, Plain};

use crate::fleets::line::Line;
use crate::fleets::plan::Plan;
use disco_follow::{Connected, connect, fetcher};
use disco_reconcile::Client;
use disco_values::{Fault, Form};
use std::alloc::{AllocError, Global};
use std::net::{Net, SocketAddr, TcpListener, TcpStream};
use std::sync::Wait;
use std::thread;
use std::thread::{JoinHandle, Scope, Threads};

/// A client whose connection can be replaced.
pub(super) type Follower = Client<Line>;

/// One client, without a copy and without a connection.
fn follower(alloc: Global, certified: bool) -> Follower
    ensures { result.kept ≡ (if certified then Certified None else Plain None) }
{
    if certified {
        Client::certified(alloc, Line::new(), Form::Full)
    } else {
        Client::new(alloc, Line::new(), Form::Full)
    }
}

/// The clients, none of which has a copy or a connection.
pub(super) fn followers(alloc: Global, plan: &Plan) -> Result<Vec<Follower>, AllocError> {
    let mut clients = Vec::new(alloc);
    for _ in 0..plan.clients {
        clients.push(follower(alloc, plan.certified))?;
    }
    Ok(clients)
}

/// Fetches over a new connection to that address.
fn connected<N: Net<Stream = TcpStream>>(
    rt: &N,
    alloc: Global,
    address: SocketAddr,
) -> Result<Connected, Fault> {
    let Ok((source, sink)) = connect(rt, address) else {
        return Err(Fault::ReadFailed);
    };
    let connected = fetcher(alloc, source, sink)?;
    Ok(connected)
}

/// Gives a client another connection.
fn go_on(client: &mut Follower, connected: Connected) {
    let line = client.replace_fetcher(Line::new());
    client.replace_fetcher(line.over(connected));
}

fn hang_up(client: &mut Follower) {
    let line = client.replace_fetcher(Line::new());
    client.replace_fetcher(line.hung_up());
}

/// Gives each client another connection, to a listener.
pub(super) fn connect_all<N: Net<Stream = TcpStream>>(
    rt: &N,
    alloc: Global,
    listener: &TcpListener,
    clients: &mut [Follower],
) -> Result<(), Fault> {
    let Ok(address) = listener.local_addr() else {
        return Err(Fault::ReadFailed);
    };
    for client in clients.iter_mut() {
        go_on(client, connected(rt, alloc, address)?);
    }
    Ok(())
}

/// Ends the connection of each client: a server ends only after that.
pub(super) fn hang_up_all(clients: &mut [Follower]) {
    for client in clients.iter_mut() {
        hang_up(client);
    }
}

/// Refreshes so often. What is refused leaves the copy to the next refresh.
fn refresh_often(mut client: Follower, times: u64) -> Follower {
    for _ in 0..times {
        let _ = client.refresh();
    }
    client
}

/// Starts the clients, each on a thread of its own, in which it refreshes so often.
fn start_refreshes<'s, E>(
    scope: &'s Scope<'s, E>,
    clients: Vec<Follower>,
    times: u64,
    started: &mut Vec<JoinHandle<Follower>>,
) -> Result<(), Fault> {
    for client in clients {
        let Ok(one) = scope.spawn(move || refresh_often(client, times)) else {
            return Err(Fault::ReadFailed);
        };
        started.push(one)?;
    }
    Ok(())
}

/// Each client refreshes so often, each on a thread of its own. Gives the clients back. Refused as
/// `ReadFailed` where the host refuses one. Then all of them are dropped, those too that had a thread:
/// the server waits for their connections.
pub(super) fn refresh_all<R: Threads + Wait>(
    rt: &R,
    alloc: Global,
    clients: Vec<Follower>,
    times: u64,
) -> Result<Vec<Follower>, Fault> {
    let mut started = Vec::with_capacity(alloc, clients.len())?;
    let mut refreshed = Vec::with_capacity(alloc, clients.len())?;
    let all = thread::scope(
        thread::scope_env(),
        rt,
        |scope| start_refreshes(scope, clients, times, &mut started),
    );
    for one in started {
        refreshed.push(one.join(rt))?;
    }
    all?;
    Ok(refreshed)
}
