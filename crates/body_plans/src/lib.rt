//! The plan of a body: its elements and instances in element order, over the places of its channels, without
//! names. A body is given its `in` ports and its endpoints to the server, those of its instances included; it
//! hands out its `out` ports and its endpoints to the client.
#![tactic(auto)]

pub mod before;
pub mod body_plan;
mod channel;
mod channels;
pub mod endpoints;
mod lookup;
mod made;
pub mod ordered;
mod outs;
mod places;
mod planning;
mod steps;

pub use before::ModulesBefore;
pub use body_plan::BodyPlan;
pub use endpoints::Endpoints;
pub use ordered::OrderedElement;
pub use planning::plan_body;
