//! Strangers' octets as text, written so that nothing in them is taken for anything else: in HTML, and in the labels
//! of Prometheus.
#![tactic(auto)]

mod form;
mod laws;

pub use form::{Form, push_octets, push_text};
pub use laws::{html_brings_no_markup, label_is_read_back};
