//! What octets that have come so far ask for.

ghost use Rattle.status_request.specs.Request.{IsReading};

use crate::asked::{Method, Resource, method_named, resource_at};
use crate::hosts::is_named;
use crate::target::path;
use httparse::spans::{EMPTY_HEADER_SPAN, parse_request};
use httparse::{Error, Status};

/// How many octets the head of a request may have.
pub const MOST_OCTETS: usize = 8_192;

/// How many fields it may have.
pub const MOST_FIELDS: usize = 64;

/// Why a request isn't answered.
#[derive(Clone, Copy, Debug, PartialEq, Eq)]
pub enum RequestRefusal {
    /// 400: no head of a request can come of the octets.
    BadRequest,
    /// 400: it isn't said to be for this server: its target in absolute form or a field Host names another, as of a page that was loaded
    /// from elsewhere, or there are two of these fields, or in HTTP/1.1 none.
    OtherHost,
    /// 404: there is nothing at its path.
    NotFound,
    /// 405: neither GET nor HEAD.
    MethodNotAllowed,
    /// 431: the head has too many octets or fields.
    TooLarge,
}

/// What octets ask for.
#[derive(Clone, Copy, Debug, PartialEq, Eq)]
pub enum RequestReading {
    /// The head isn't whole.
    More,
    /// A resource, by this method.
    Wanted { method: Method, resource: Resource },
    /// It isn't answered, and why.
    Refused(RequestRefusal),
}

/// What the octets ask for, as far as they have come, of a server of this name. The whole head is read again at each call; it is
/// short.
pub fn judge(octets: &[u8], name: &[u8]) -> RequestReading
    ensures { IsReading name.now octets.now result }
{
    let mut fields = [EMPTY_HEADER_SPAN; MOST_FIELDS];
    match parse_request(octets, &mut fields) {
        Ok(Status::Complete(head)) => {
            let target = head.path.of(octets);
            if !is_named(octets, &fields[..head.headers], head.version, target, name) {
                return RequestReading::Refused(RequestRefusal::OtherHost);
            }
            let Some(method) = method_named(head.method.of(octets)) else {
                return RequestReading::Refused(RequestRefusal::MethodNotAllowed);
            };
            let Some(resource) = resource_at(path(target)) else {
                return RequestReading::Refused(RequestRefusal::NotFound);
            };
            RequestReading::Wanted { method, resource }
        }
        Ok(Status::Partial) if octets.len() < MOST_OCTETS => RequestReading::More,
        Ok(Status::Partial) | Err(Error::TooManyHeaders) => RequestReading::Refused(
            RequestRefusal::TooLarge,
        ),
        Err(_) => RequestReading::Refused(RequestRefusal::BadRequest),
    }
}
