//! What is answered.

ghost use Rattle.std.specs.Prelude.{◌≡◌, List, IfOk, codes, string_bytes, ℕ};
ghost use Rattle.status_answers.specs.Responses.{IsBody, in_one_line, head_text, kind_of, refusal_line, response_text};

use status_metrics::metrics;
use status_page::html;
use status_request::{Method, RequestRefusal, Resource};
use status_scene::Scene;
use std::alloc::{AllocError, Global};

/// The type of a body that is one line.
const PLAIN: &str = "text/plain; charset=utf-8";

/// The status line of a refusal, from its code on.
fn refusal_line(refusal: RequestRefusal) -> &'static str
    ensures { result.now ≡ refusal_line refusal }
{
    match refusal {
        RequestRefusal::BadRequest | RequestRefusal::OtherHost => "400 Bad Request",
        RequestRefusal::NotFound => "404 Not Found",
        RequestRefusal::MethodNotAllowed => "405 Method Not Allowed",
        RequestRefusal::TooLarge => "431 Request Header Fields Too Large",
    }
}

/// The type of a resource's text.
fn kind_of(resource: Resource) -> &'static str
    ensures { result.now ≡ kind_of resource }
{
    match resource {
        Resource::Page => "text/html; charset=utf-8",
        Resource::Metrics => "text/plain; version=0.0.4; charset=utf-8",
    }
}

/// The text of a resource.
fn text_of(alloc: Global, scene: &Scene<'_>, resource: Resource) -> Result<String, AllocError>
    ensures { IfOk result (λ text. IsBody scene.now resource (string_bytes text)) }
{
    match resource {
        Resource::Page => html(alloc, scene),
        Resource::Metrics => metrics(alloc, scene),
    }
}

/// The head of a response: nothing is kept, nothing is run, nothing is fetched from elsewhere, and the connection ends.
#[tactic(auto, unfolding(crate::specs::Responses::head_text))]
fn head(alloc: Global, line: &str, kind: &str, length: usize) -> Result<String, AllocError>
    ensures { IfOk result (λ text. string_bytes text ≡ head_text line.now kind.now length) }
{
    format!(in alloc;
        "HTTP/1.1 {line}\r\nAllow: GET, HEAD\r\nContent-Type: {kind}\r\nContent-Length: {length}\r\nCache-Control: no-store\r\nX-Content-Type-Options: nosniff\r\nContent-Security-Policy: default-src 'none'; style-src 'unsafe-inline'; base-uri 'none'; form-action 'none'; frame-ancestors 'none'\r\nReferrer-Policy: no-referrer\r\nConnection: close\r\n\r\n"
    )
}

/// A response whose body is its status line, from its code on.
fn in_one_line(alloc: Global, line: &str) -> Result<String, AllocError>
    ensures { IfOk result (λ text. string_bytes text ≡ in_one_line line.now) }
{
    let body = format!(in alloc; "{line}\n")?;
    let mut response = head(alloc, line, PLAIN, body.len())?;
    response.push_str(body.as_str())?;
    Ok(response)
}

/// The response with a resource of this scene, and with its body or, by HEAD, without.
///
/// AllocError where memory for it is refused.
pub fn status_response(
    alloc: Global,
    scene: &Scene<'_>,
    method: Method,
    resource: Resource,
) -> Result<String, AllocError>
    ensures { IfOk result (λ text. (body : List ℕ) × IsBody scene.now resource body
        × (string_bytes text ≡ response_text method resource body)) }
{
    let text = text_of(alloc, scene, resource)?;
    let mut response = head(alloc, "200 OK", kind_of(resource), text.len())?;
    if let Method::Get = method {
        response.push_str(text.as_str())?;
    }
    Ok(response)
}

/// The response to a request that is refused.
///
/// AllocError where memory for it is refused.
pub fn refusal_response(alloc: Global, refusal: RequestRefusal) -> Result<String, AllocError>
    ensures { IfOk result (λ text. string_bytes text ≡ in_one_line (refusal_line refusal)) }
{
    in_one_line(alloc, refusal_line(refusal))
}

/// The response to a request that doesn't become whole in time.
///
/// AllocError where memory for it is refused.
pub fn timeout_response(alloc: Global) -> Result<String, AllocError>
    ensures { IfOk result (λ text. string_bytes text ≡ in_one_line (codes "408 Request Timeout")) }
{
    in_one_line(alloc, "408 Request Timeout")
}

/// The response where there is no memory for what is asked for.
///
/// AllocError where memory for it is refused.
pub fn unavailable_response(alloc: Global) -> Result<String, AllocError>
    ensures { IfOk result (λ text.
        string_bytes text ≡ in_one_line (codes "503 Service Unavailable")) }
{
    in_one_line(alloc, "503 Service Unavailable")
}
