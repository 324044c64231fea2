//! A hub that answers requests by a clock.
ghost use Rattle.std.specs.Prelude.{◌≡◌};

use crate::clock::Clock;
use crate::hub::answer_hub;
use crate::shared::Shared;
use disco_calls::Routes;
use disco_http::Service;
use disco_hub::Hub;
use disco_message::{Reply, Request};
use std::alloc::Global;

/// A hub that answers requests, each at the moment that its clock says.
#[derive(Drop)]
pub struct HubService<C> {
    /// What is asked.
    pub hub: Hub,
    /// What says when.
    pub clock: C,
    alloc: Global,
    routes: Routes,
}

impl<C> HubService<C> {
    /// A service over a hub.
    pub fn new(alloc: Global, routes: Routes, hub: Hub, clock: C) -> HubService<C>
        ensures hub { result.hub ≡ hub }
        ensures clock { result.clock ≡ clock }
    {
        HubService {
            hub,
            clock,
            alloc,
            routes,
        }
    }
}

impl<C: Clock> Service for HubService<C> {
    ghost use Rattle.disco_server.specs.Serving.{Serves};

    type Body = Shared;

    ghost answers = { Serves C.ticks };

    fn call(&mut self, request: &Request) -> Reply<Shared> {
        let now = self.clock.now();
        answer_hub(self.alloc, &self.routes, &mut self.hub, request, now)
    }
}
