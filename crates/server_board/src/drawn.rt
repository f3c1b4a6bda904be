//! A response that was drawn, and for how long it is given again.

use status_answers::{Method, Resource};

/// For how long a response is given again where many ask, in milliseconds.
const FRESH_MS: u64 = 100;

/// A response with a resource of the server, and when it was drawn.
#[derive(Drop)]
pub(crate) struct Drawn {
    pub method: Method,
    pub resource: Resource,
    /// The milliseconds from the server's start until it was drawn.
    pub at_ms: u64,
    pub response: String,
}

impl Drawn {
    /// Whether it is one to such a request, and was drawn less than a tenth of a second before this moment.
    pub fn is_fresh(&self, method: Method, resource: Resource, now_ms: u64) -> bool {
        self.method == method
            && self.resource == resource
            && now_ms.saturating_sub(self.at_ms) < FRESH_MS
    }
}
