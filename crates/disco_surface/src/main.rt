//! Uses each public name by the path of its crate, and makes each call once, as a user would who has
//! the list of public names alone. Prints what the calls answer.
#![tactic(auto)]

ghost use Rattle.disco_press.specs.Openings.{Opens};

mod copies;
mod desks;
mod documents;
mod given;
mod hubs;
mod lists;
mod records;
mod servers;
mod states;
mod streams;

use disco_instance::Fault;
use disco_press::{Desk, Naming, Opening, Seat, open};
use disco_server::{HubService, Routes};
use servers::Noon;
use std::alloc::Global;
use std::marker::Brand;
use std::net::{Net, TcpListener, TcpStream};
use std::process::ExitCode;
use std::rt::Clock;
use std::sync::{Mutex, MutexGuard, Wait};
use std::thread::Threads;

/// Makes the calls that take one thread and no desk.
fn tell_calls(
    alloc: Global,
    routes: &Routes,
    service: &mut HubService<Noon>,
    out: &mut String,
) -> Result<(), Fault> {
    records::tell(alloc, out)?;
    states::tell(alloc, out)?;
    documents::tell(alloc, out)?;
    hubs::tell(alloc, &mut service.hub, out)?;
    copies::tell(alloc, out)?;
    lists::tell(alloc, out)?;
    streams::tell(alloc, out)?;
    servers::tell_hub(alloc, routes, service, out)
}

/// The same with a service over a hub.
fn tell_service(alloc: Global, routes: &Routes, out: &mut String) -> Result<(), Fault> {
    let mut service = servers::service(alloc, Routes::new(alloc)?);
    tell_calls(alloc, routes, &mut service, out)
}

/// What a desk and a seat do under the lock.
fn tell_locked<J: Naming, R: Wait>(
    rt: &R,
    alloc: Global,
    routes: &Routes,
    desk: &Mutex<Desk<J>>,
    seat: &mut Seat<J>,
    out: &mut String,
) -> Result<(), Fault> {
    let mut guard = desk.lock(rt);
    let told = desks::tell(rt, alloc, &mut *guard, seat, out);
    let answered = servers::tell_desk(alloc, routes, &mut *guard, seat, out);
    MutexGuard::unlock(guard);
    told.and(answered)
}

/// Makes the calls that take a desk and a seat.
fn tell_seat<J: Naming + Send + Sync, R: Threads + Wait + Sync>(
    rt: &R,
    alloc: Global,
    routes: &Routes,
    desk: &Mutex<Desk<J>>,
    seat: &mut Seat<J>,
    out: &mut String,
) -> Result<(), Fault> {
    tell_locked(rt, alloc, routes, desk, seat, out)?;
    servers::tell_beside(rt, alloc, routes, desk, seat, servers::GET, out)?;
    servers::tell_beside(rt, alloc, routes, desk, seat, servers::GET_COMPACT, out)?;
    servers::tell_renewals(rt, alloc, routes, desk, seat, out)
}

/// Makes the calls that take a desk and its seats.
fn tell_seats<J: Naming + Send + Sync, R>(
    rt: &R,
    alloc: Global,
    routes: &Routes,
    desk: &Mutex<Desk<J>>,
    seat: &mut Seat<J>,
    seats: Vec<Seat<J>>,
    out: &mut String,
) -> Result<(), Fault>
where
    R: Net<Listener = TcpListener, Stream = TcpStream> + Threads + Wait + Clock + Sync,
{
    let told = tell_seat(rt, alloc, routes, desk, seat, out);
    let ran = servers::tell_running(rt, alloc, desk, seats, out);
    told.and(ran)
}

/// What a desk answers until it is closed, and a seat behind it.
fn tell_desk<J: Naming + Send + Sync, R>(
    rt: &R,
    alloc: Global,
    routes: &Routes,
    opening: Opening,
    out: &mut String,
) -> Result<(), Fault>
where
    R: Net<Listener = TcpListener, Stream = TcpStream> + Threads + Wait + Clock + Sync,
    requires opening { Opens J.list J.name J.parts opening }
{
    let (desk, mut seats) = open::<J, R>(rt, alloc, &hubs::settings(), 2, opening)?;
    let mut seat = seats.pop().unwrap();
    let desk = Mutex::new(desk);
    let told = tell_seats(rt, alloc, routes, &desk, &mut seat, seats, out);
    desk.into_inner().close(rt);
    told.and(desks::tell_shut(&mut seat, out))
}

/// Makes the calls that take routes, and those that take none.
fn tell_by<R>(rt: &R, alloc: Global, routes: &Routes, out: &mut String) -> Result<(), Fault>
where
    R: Net<Listener = TcpListener, Stream = TcpStream> + Threads + Wait + Clock + Sync,
{
    tell_service(alloc, routes, out)?;
    tell_desk::<Brand, R>(rt, alloc, routes, Opening::new(), out)
}

/// Makes all calls.
fn tell_all<R>(rt: &R, alloc: Global, out: &mut String) -> Result<(), Fault>
where
    R: Net<Listener = TcpListener, Stream = TcpStream> + Threads + Wait + Clock + Sync,
{
    let routes = Routes::new(alloc)?;
    tell_by(rt, alloc, &routes, out)
}

fn main(rt: HostRuntime) -> ExitCode {
    let mut out = String::new(rt.alloc());
    let told = tell_all(&rt, rt.alloc(), &mut out);
    let printed = print!(rt; "{out}");
    if told.is_ok() && printed.is_ok() {
        ExitCode::SUCCESS
    } else {
        ExitCode::FAILURE
    }
}
