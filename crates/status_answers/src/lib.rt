//! Answers to requests for the status of a server.
#![tactic(auto)]

mod response;

pub use response::{refusal_response, status_response, timeout_response, unavailable_response};
pub use status_request::{Method, RequestRefusal, Resource};
pub use status_scene::Scene;
