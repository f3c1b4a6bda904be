//! The method and the resource of a request, and its fields' names.

ghost use Rattle.std.specs.Prelude.{◌≡◌, ◌≢◌, MatchOption};
ghost use Rattle.status_request.specs.Asked.{is_host, method_name, resource_path};
ghost use Rattle.status_request.specs.declared.asked.Method.{Method as Asked};
ghost use Rattle.status_request.specs.declared.asked.Resource.{Resource as Place};

use crate::authority::is_same;

/// What may be asked for.
#[derive(Clone, Copy, Debug, PartialEq, Eq)]
pub enum Resource {
    /// `/`, for people.
    Page,
    /// `/metrics`, for Prometheus.
    Metrics,
}

/// How it may be asked for (RFC 9110, section 9.3).
#[derive(Clone, Copy, Debug, PartialEq, Eq)]
pub enum Method {
    /// With its body.
    Get,
    /// Without.
    Head,
}

/// The resource at this path.
pub(crate) fn resource_at(path: &[u8]) -> Option<Resource>
    ensures { MatchOption result ((resource : Place) → path.now ≢ resource_path resource)
        (λ resource. path.now ≡ resource_path resource) }
{
    if path == b"/".as_slice() {
        Some(Resource::Page)
    } else if path == b"/metrics".as_slice() {
        Some(Resource::Metrics)
    } else {
        None
    }
}

/// The method of this name. None where it is neither GET nor HEAD.
pub(crate) fn method_named(name: &[u8]) -> Option<Method>
    ensures { MatchOption result ((method : Asked) → name.now ≢ method_name method)
        (λ method. name.now ≡ method_name method) }
{
    if name == b"GET".as_slice() {
        Some(Method::Get)
    } else if name == b"HEAD".as_slice() {
        Some(Method::Head)
    } else {
        None
    }
}

/// Whether a field of this name is Host.
pub(crate) fn is_host(name: &[u8]) -> bool
    ensures { result ≡ is_host name.now }
{
    is_same(name, b"host".as_slice())
}
