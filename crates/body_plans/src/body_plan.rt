//! The plan of a body, with its endpoints.
use crate::endpoints::Endpoints;
use flat_design::Plan;

/// The plan of a body, and how many endpoints it has.
#[derive(Debug, Drop)]
pub struct BodyPlan {
    /// The plan. It is given the `in` ports, in the text's order, then the endpoints to the server; it hands
    /// out the `out` ports, in the text's order, then the endpoints to the client.
    pub plan: Plan,
    /// Its endpoints, those of its instances included.
    pub endpoints: Endpoints,
}
