//! Which server a request is for: its target, where that is in absolute form, and its fields Host.
//!
//! These have to name an address, `localhost` or the name of `--status-host`: a name that somebody else's page points here is none
//! of these.

ghost use Rattle.std.specs.Prelude.{◌≡◌, ◌↔◌, ◌≤◌, All, IsTrue, length};
ghost use Rattle.httparse.specs.Spans.{IsHeaderWithin};
ghost use Rattle.status_request.specs.Asked.{AreHere, IsServerNamed, host_values};
ghost use Rattle.status_request.specs.Request.{IsNamed, fields_of};

use crate::asked::is_host;
use crate::authority::names_here;
use crate::target::authority;
use httparse::spans::HeaderSpan;

/// How many of these fields are Host.
fn host_count(octets: &[u8], fields: &[HeaderSpan]) -> usize
    requires { All (IsHeaderWithin (length octets.now)) fields.now }
    ensures count { result ≡ length (host_values (fields_of octets.now fields.now)) }
    ensures within { result ≤ length fields.now }
{
    let Some((first, rest)) = fields.split_first() else {
        return 0;
    };
    let others = host_count(octets, rest);
    if is_host(first.name.of(octets)) {
        others + 1
    } else {
        others
    }
}

/// Whether each field Host names this server.
fn are_here(octets: &[u8], fields: &[HeaderSpan], name: &[u8]) -> bool
    requires { All (IsHeaderWithin (length octets.now)) fields.now }
    ensures { IsTrue result ↔ AreHere name.now (fields_of octets.now fields.now) }
{
    let Some((first, rest)) = fields.split_first() else {
        return true;
    };
    let is_other = is_host(first.name.of(octets)) && !names_here(first.value.of(octets), name);
    !is_other && are_here(octets, rest, name)
}

/// Whether the server of this name is named: by a target in absolute form, and else by each field Host.
#[tactic(auto, unfolding(crate::specs::Asked::IsServerNamed))]
fn is_server_named(octets: &[u8], fields: &[HeaderSpan], target: &[u8], name: &[u8]) -> bool
    requires { All (IsHeaderWithin (length octets.now)) fields.now }
    ensures { IsTrue result ↔ IsServerNamed name.now target.now (fields_of octets.now fields.now) }
{
    match authority(target) {
        Some(authority) => names_here(authority, name),
        None => are_here(octets, fields, name),
    }
}

/// Whether a request of HTTP/1.0 or 1.1 with this target and these fields is for the server of this name: it has one field Host, or in
/// HTTP/1.0 perhaps none, and names that (RFC 9112, sections 3.2 and 3.2.2).
pub(crate) fn is_named(
    octets: &[u8],
    fields: &[HeaderSpan],
    minor: u8,
    target: &[u8],
    name: &[u8],
) -> bool
    requires { All (IsHeaderWithin (length octets.now)) fields.now }
    ensures { IsTrue result ↔ IsNamed name.now minor target.now (fields_of octets.now fields.now) }
{
    let hosts = host_count(octets, fields);
    (hosts == 1 || hosts == 0 && minor == 0) && is_server_named(octets, fields, target, name)
}
