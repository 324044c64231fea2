//! A running discovery server: [`start`] serves the connections of a listener, with a worker for each
//! seat of a desk, and [`timers`] does what has to be done again and again beside them.
//! A request is answered over a hub ([`answer_hub`]), over a desk for one of its seats ([`answer_on`]),
//! or over a desk under its lock ([`answer`]); [`DeskService`] and [`HubService`] do so for the requests
//! of a connection, by a [`Clock`].
#![tactic(auto)]

mod cancel;
mod clock;
mod desk;
mod desk_service;
mod expiry;
mod gate;
mod hub;
mod locked;
mod pauses;
mod publisher;
mod replies;
mod service;
mod shared;
mod spin;
mod startup;
mod system_clock;
mod tasks;
mod threads;
mod timer;
mod turns;
mod worker;

pub use clock::Clock;
pub use desk::answer_on;
pub use desk_service::{DeskService, ServerContext};
pub use disco_calls::Routes;
pub use disco_connections::listen;
pub use gate::{Gate, Open, Point};
pub use hub::answer_hub;
pub use locked::answer;
pub use publisher::{Step, publish_round, publish_step};
pub use service::HubService;
pub use shared::Shared;
pub use startup::{start, start_with};
pub use system_clock::SystemClock;
pub use threads::{start_timers, timers};
