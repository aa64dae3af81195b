//! The requests of those who ask how a service does, and what they get.

ghost use Rattle.std.specs.Prelude.{◌≡◌, ◌≤◌, ℕ, List, length, IfOk, IfNone, Some, string_bytes};
ghost use Rattle.httparse.specs.Grammar.{HasNoRequest, MayBecomeRequest, ReadsRequest, RequestHead};
ghost use Rattle.service_watch.specs.Requests.{allow_field, content_type, health_text, if_got};
ghost use Rattle.service_watch.specs.Requests.{page_for, page_when, response_text, status_line};

use crate::draft_life::DraftLife;
use httparse::Status;
use httparse::spans::{EMPTY_HEADER_SPAN, parse_request};
use std::alloc::{AllocError, Global};

/// How many header fields a request may have.
const MOST_FIELDS: usize = 64;

/// What a request gets.
#[derive(Clone, Copy, Debug, PartialEq, Eq)]
pub enum Page {
    /// Whether the service listens, its version and how many records it has.
    Health,
    /// The same of a service that stops.
    Stopping,
    /// The counters.
    Metrics,
    /// There is no such page.
    NotFound,
    /// There is such a page, but only GET is allowed.
    BadMethod,
    /// The bytes are no request.
    BadRequest,
}

/// What the bytes of a request get once its head is whole; none while it is not.
pub fn page_of(bytes: &[u8]) -> Option<Page>
    ensures whole { (head : RequestHead) (rest : List ℕ) → ReadsRequest bytes.now head rest →
        length head.fields ≤ 64 → result ≡ Some (page_for head.method head.target) }
    ensures waits { IfNone result (HasNoRequest bytes.now × MayBecomeRequest bytes.now) }
{
    let mut fields = [EMPTY_HEADER_SPAN; MOST_FIELDS];
    match parse_request(bytes, &mut fields) {
        Ok(Status::Complete(head)) => { Some(page_at(head.method.of(bytes), head.path.of(bytes))) }
        Ok(Status::Partial) => None,
        Err(_) => Some(Page::BadRequest),
    }
}

// The page for a method and a target.
fn page_at(method: &[u8], target: &[u8]) -> Page
    ensures { result ≡ page_for method.now target.now }
{
    if target == b"/health".as_slice() {
        got_page(method, Page::Health)
    } else if target == b"/metrics".as_slice() {
        got_page(method, Page::Metrics)
    } else {
        Page::NotFound
    }
}

// A page for GET alone.
fn got_page(method: &[u8], page: Page) -> Page
    ensures { result ≡ if_got method.now page }
{
    if method == b"GET".as_slice() {
        page
    } else {
        Page::BadMethod
    }
}

/// The page of a service that stops, or does not: of one that stops `/health` is another.
pub fn page_when(stopping: bool, page: Page) -> Page
    ensures { result ≡ page_when stopping page }
{
    match page {
        Page::Health if stopping => Page::Stopping,
        page => page,
    }
}

impl Page {
    // The status in the first line of a response, and what it means.
    fn status(self) -> &'static str
        ensures { result.now ≡ status_line self }
    {
        match self {
            Page::Health | Page::Metrics => "200 OK",
            Page::Stopping => "503 Service Unavailable",
            Page::NotFound => "404 Not Found",
            Page::BadMethod => "405 Method Not Allowed",
            Page::BadRequest => "400 Bad Request",
        }
    }

    // The field that names the method, if another was asked for.
    fn allows(self) -> &'static str
        ensures { result.now ≡ allow_field self }
    {
        match self {
            Page::BadMethod => "Allow: GET\r\n",
            _ => "",
        }
    }

    // The type of its content.
    fn content_type(self) -> &'static str
        ensures { result.now ≡ content_type self }
    {
        match self {
            Page::Health | Page::Stopping => "application/json",
            _ => "text/plain; version=0.0.4; charset=utf-8",
        }
    }
}

/// The whole response of a page with this content.
///
/// # Errors
///
/// `AllocError` if memory was refused.
pub fn response(alloc: Global, page: Page, content: &str) -> Result<String, AllocError>
    ensures { IfOk result (λ text. string_bytes text ≡ response_text page content.now) }
{
    let status = page.status();
    let kind = page.content_type();
    let allow = page.allows();
    let len = content.len();
    format!(in alloc;
        "HTTP/1.1 {status}\r\n\
            Content-Type: {kind}\r\n\
            {allow}Content-Length: {len}\r\n\
            Connection: close\r\n\
            \r\n\
            {content}"
    )
}

/// The content of `/health`: the version that is served, how many records it has, and with what a
/// draft ends. That of a service which stops is the same.
///
/// # Errors
///
/// `AllocError` if memory was refused.
pub fn health(
    alloc: Global,
    version: u64,
    records: u64,
    draft: DraftLife,
) -> Result<String, AllocError>
    ensures { IfOk result (λ text. string_bytes text ≡ health_text version records draft) }
{
    let draft = draft.name();
    format!(in alloc; "{{\"version\":{version},\"records\":{records},\"draft\":\"{draft}\"}}\n")
}
