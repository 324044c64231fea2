//! What a request to a discovery server asks for, by the paths and methods of Eureka's REST operations
//! under `/eureka/v2`: [`Routes`] finds the [`Place`] of a path, and [`call_of`] makes the [`Call`] of
//! a request.
#![tactic(auto)]

mod accept;
mod call;
mod dispatch;
pub mod laws;
mod method;
mod names;
mod parts;
mod place;
mod query;
mod route;
mod routes;

pub use call::Call;
pub use dispatch::call_of;
pub use place::Place;
pub use routes::Routes;
