//! What is asked of the page that shows a server's status, how strangers' octets stand in it, and what is counted for it.

use html_page::{HtmlPage, Tag, class};
use html_text::{Form, push_octets};
use server_counts::{Histogram, LastHour, Look};
use status_request::{Method, RequestReading, RequestRefusal, Resource, judge};
use std::alloc::{AllocError, Global};
use test_kit::rows::{number, octets};

/// A resource, as rows call it.
fn resource_word(resource: Resource) -> &'static str {
    match resource {
        Resource::Page => "page",
        Resource::Metrics => "metrics",
    }
}

/// A method, as rows call it.
fn method_word(method: Method) -> &'static str {
    match method {
        Method::Get => "get",
        Method::Head => "head",
    }
}

/// Why a request isn't answered, as rows call it.
fn refusal_word(refusal: RequestRefusal) -> &'static str {
    match refusal {
        RequestRefusal::BadRequest => "bad request",
        RequestRefusal::OtherHost => "another host",
        RequestRefusal::NotFound => "not found",
        RequestRefusal::MethodNotAllowed => "method not allowed",
        RequestRefusal::TooLarge => "too large",
    }
}

/// Appends what octets ask of the server `printers.example`.
pub fn request(told: &mut String, alloc: Global, asked: &str) -> Result<(), AllocError> {
    let request = octets(alloc, asked)?;
    match judge(request.as_slice(), b"printers.example") {
        RequestReading::More => told.push_str("more"),
        RequestReading::Wanted { method, resource } => {
            let (method, resource) = (method_word(method), resource_word(resource));
            write!(told, "{method} {resource}")
        }
        RequestReading::Refused(refusal) => told.push_str(refusal_word(refusal)),
    }
}

/// Appends a page with these octets as words and as a class, and the octets as a label.
pub fn marked(told: &mut String, alloc: Global, asked: &str) -> Result<(), AllocError> {
    let shown = octets(alloc, asked)?;
    let text = String::from_utf8_lossy(alloc, shown.as_slice())?;
    let mut page = HtmlPage::new(alloc)?;
    page.open(Tag::Paragraph, &[class(text.as_str())]);
    page.octets(shown.as_slice());
    page.open(Tag::B, &[]);
    page.number(shown.len() as u64);
    told.push_str(page.into_text()?.as_str())?;
    let mut label = String::new(alloc);
    push_octets(alloc, &mut label, Form::Label, shown.as_slice())?;
    write!(told, " | {}", label.as_bytes().escape_ascii())
}

/// Appends the buckets of these times in milliseconds, and their sum.
pub fn times(told: &mut String, _alloc: Global, asked: &str) -> Result<(), AllocError> {
    let mut times = Histogram::new();
    for time in asked.split_whitespace() {
        times.note(number(time));
    }
    for count in times.buckets {
        write!(told, "{count} ")?;
    }
    write!(told, "sum {}", times.milliseconds)
}

/// Appends how many looks are kept of so many, and the seconds of the first and the last.
pub fn looks(told: &mut String, alloc: Global, asked: &str) -> Result<(), AllocError> {
    let mut hour = LastHour::new(alloc);
    for second in 0..number(asked) {
        hour.note(Look {
            second,
            free: 0,
            chained: 0,
            lent: 0,
            out: 0,
            done: 0,
            octets: 0,
        })?;
    }
    let looks = hour.looks();
    let first = looks.first().map_or(0, |look| look.second);
    let last = looks.last().map_or(0, |look| look.second);
    write!(told, "{} from {first} to {last}", looks.len())
}
