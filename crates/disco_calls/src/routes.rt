//! The table of paths.
ghost use Rattle.std.specs.Prelude.{◌≡◌, IfOk, OnOk, option_map};
ghost use Rattle.disco_calls.specs.Paths.{path_place};
ghost use Rattle.disco_calls.specs.Places.{place_view};
ghost use Rattle.disco_calls.specs.Table.{place_filled, table, with_apps, with_instances, with_vips};

use crate::parts::split;
use crate::place::Place;
use crate::route::Route;
use matchit::{InsertError, Router};
use std::alloc::{AllocError, Global};

/// The prefix of each path of the table.
const BASE: &str = "/eureka/v2";

/// The table of paths.
#[derive(Drop)]
pub struct Routes {
    router: Router<Route>,
    ghost routes: { router ≡ table },
}

/// Adds the rows of apps and of what changed.
#[tactic(auto, unfolding(crate::specs::Table::with_apps))]
fn add_apps(router: &mut Router<Route>) -> Result<(), InsertError>
    ensures { OnOk result (router.new ≡ with_apps router.old) }
{
    router.insert("/apps", Route::Apps)?;
    router.insert("/apps/", Route::Apps)?;
    router.insert("/apps/delta", Route::Delta)?;
    router.insert("/apps/{app}", Route::App)
}

/// Adds the rows of an instance of an app.
#[tactic(auto, unfolding(crate::specs::Table::with_instances))]
fn add_instances(router: &mut Router<Route>) -> Result<(), InsertError>
    ensures { OnOk result (router.new ≡ with_instances router.old) }
{
    router.insert("/apps/{app}/{id}", Route::Instance)?;
    router.insert("/apps/{app}/{id}/status", Route::Status)?;
    router.insert("/apps/{app}/{id}/metadata", Route::Metadata)
}

/// Adds the rows of ids and vips.
#[tactic(auto, unfolding(crate::specs::Table::with_vips))]
fn add_vips(router: &mut Router<Route>) -> Result<(), InsertError>
    ensures { OnOk result (router.new ≡ with_vips router.old) }
{
    router.insert("/instances/{id}", Route::Id)?;
    router.insert("/vips/{vip}", Route::Vip)?;
    router.insert("/svips/{svip}", Route::Svip)
}

#[tactic(auto, unfolding(crate::specs::Table::table))]
fn router(alloc: Global) -> Result<Router<Route>, InsertError>
    ensures { IfOk result (λ r. r ≡ table) }
{
    let mut router = Router::new(alloc);
    add_apps(&mut router)?;
    add_instances(&mut router)?;
    add_vips(&mut router)?;
    Ok(router)
}

/// What a path of a row names.
fn filled(route: Route, path: &[u8]) -> Place<&[u8]>
    ensures { place_view result ≡ place_filled route path.now }
{
    let (_, folder) = split(path);
    let (_, names) = split(folder);
    let (first, more) = split(names);
    let (second, _) = split(more);
    match route {
        Route::Apps => Place::Apps,
        Route::Delta => Place::Delta,
        Route::App => Place::App { app: first },
        Route::Instance => Place::Instance {
            app: first,
            id: second,
        },
        Route::Status => Place::Status {
            app: first,
            id: second,
        },
        Route::Metadata => Place::Metadata {
            app: first,
            id: second,
        },
        Route::Id => Place::Id { id: first },
        Route::Vip => Place::Vip { vip: first },
        Route::Svip => Place::Svip { svip: first },
    }
}

impl Routes {
    /// The table.
    ///
    /// # Errors
    ///
    /// `AllocError` for want of memory alone.
    pub fn new(alloc: Global) -> Result<Routes, AllocError> {
        match router(alloc) {
            Ok(router) => Ok(Routes { router }),
            Err(_) => Err(AllocError),
        }
    }

    /// What a path names, `None` where it names nothing. The names in it stand as in the path,
    /// percent-encoded; none is empty.
    pub fn find<'p>(&self, path: &'p str) -> Option<Place<&'p [u8]>>
        ensures { option_map place_view result ≡ path_place path.entry.now }
    {
        let behind = path.strip_prefix(BASE)?;
        match self.router.at(behind) {
            Ok(found) => Some(filled(*found.value, behind.as_bytes())),
            Err(_) => None,
        }
    }
}
