//! What a request is answered.

ghost use Rattle.std.specs.Prelude.{◌≡◌, ◌++◌, ◌||◌, [], OnOk, OnErr, IfOk};
ghost use Rattle.http_header.specs.FieldValue.{plain_value};
ghost use Rattle.http_server.specs.Response.{fields_of};
ghost use Rattle.status_pages.specs.Answers.{page_named, read_by, posted_by, asked_by, status_of, body_text, methods_of, answer_fields, asks_for_stop};

use bytes::{BufMut, Bytes};
use figures::{Figures, Health, live_text, metrics_text, ready_text};
use http::header::{ALLOW, CONNECTION, CONTENT_TYPE};
use http::{HeaderValue, Request, StatusCode};
use http_server::{Response, Service};
use std::alloc::{AllocError, Global};
use wl_octets::{Memory, Octets};

/// What a request asks for.
#[derive(Clone, Copy, Debug, Drop, PartialEq, Eq)]
pub enum Asked {
    Metrics,
    Live,
    Ready,
    /// The agent is to end.
    Stop,
    /// There is no such page.
    NoPage,
    /// The page is there, and the method isn't GET or HEAD.
    NoMethod,
    /// A stop is asked for by POST, and the method is another.
    NoPost,
}

/// The figures and the health that requests are answered from, and what they asked for.
#[derive(Drop)]
pub struct Pages {
    pub alloc: Global,
    pub figures: Figures,
    pub health: Health,
    /// Whether a request may ask for a stop. Else there is no such page.
    pub takes_stop: bool,
    /// Whether a request asked for a stop.
    pub is_stop_asked: bool,
}

/// The page, where the method reads it.
#[tactic(auto, unfolding(crate::specs::Answers::read_by))]
fn read_by(method: &[u8], page: Asked) -> Asked
    ensures { result ≡ read_by method.now page }
{
    if method == b"GET".as_slice() || method == b"HEAD".as_slice() {
        page
    } else {
        Asked::NoMethod
    }
}

/// The stop, where the method is the one that asks for it.
#[tactic(auto, unfolding(crate::specs::Answers::posted_by))]
fn posted_by(method: &[u8]) -> Asked
    ensures { result ≡ posted_by method.now }
{
    if method == b"POST".as_slice() {
        Asked::Stop
    } else {
        Asked::NoPost
    }
}

/// What this method asks of this path, of pages that take a stop or don't.
#[tactic(auto, unfolding(crate::specs::Answers::page_named))]
pub fn page_named(takes_stop: bool, method: &[u8], path: &[u8]) -> Asked
    ensures { result ≡ page_named takes_stop method.now path.now }
{
    if path == b"/metrics".as_slice() {
        return read_by(method, Asked::Metrics);
    }
    if path == b"/live".as_slice() {
        return read_by(method, Asked::Live);
    }
    if path == b"/ready".as_slice() {
        return read_by(method, Asked::Ready);
    }
    if takes_stop && path == b"/stop".as_slice() {
        return posted_by(method);
    }
    Asked::NoPage
}

#[tactic(auto, unfolding(crate::specs::Answers::status_of))]
fn status(health: &Health, asked: Asked) -> StatusCode
    ensures { result ≡ status_of health.now asked }
{
    match asked {
        Asked::Metrics => StatusCode::OK,
        Asked::Live if health.is_live => StatusCode::OK,
        Asked::Live => StatusCode::SERVICE_UNAVAILABLE,
        Asked::Ready if health.is_ready() => StatusCode::OK,
        Asked::Ready => StatusCode::SERVICE_UNAVAILABLE,
        Asked::Stop => StatusCode::ACCEPTED,
        Asked::NoPage => StatusCode::NOT_FOUND,
        Asked::NoMethod | Asked::NoPost => StatusCode::METHOD_NOT_ALLOWED,
    }
}

#[tactic(auto, unfolding(crate::specs::Answers::body_text))]
fn body(alloc: Global, figures: &Figures, health: &Health, asked: Asked) -> Result<Octets, Memory>
    ensures { IfOk result (λ text. text ≡ body_text figures.now health.now asked) }
{
    match asked {
        Asked::Metrics => metrics_text(alloc, figures),
        Asked::Live => Octets::from_slice(alloc, live_text(health.is_live)),
        Asked::Ready => ready_text(alloc, health),
        Asked::Stop => Octets::from_slice(alloc, b"stopping\n"),
        Asked::NoPage => Octets::from_slice(alloc, b"no such page\n"),
        Asked::NoMethod => Octets::from_slice(alloc, b"pages are read by GET and HEAD alone\n"),
        Asked::NoPost => Octets::from_slice(alloc, b"a stop is asked for by POST alone\n"),
    }
}

/// The methods of the page.
#[tactic(auto, unfolding(crate::specs::Answers::methods_of))]
fn methods(asked: Asked) -> HeaderValue
    ensures { result ≡ plain_value (methods_of asked) }
{
    match asked {
        Asked::Stop | Asked::NoPost => HeaderValue::from_static("POST"),
        _ => HeaderValue::from_static("GET, HEAD"),
    }
}

/// Whether a stop is asked for.
fn is_stop(asked: Asked) -> bool
    ensures { result ≡ asks_for_stop asked }
{
    match asked {
        Asked::Stop => true,
        _ => false,
    }
}

impl Service for Pages {
    ghost answers = { λ old request response new.
        (response.status ≡ status_of old.health (asked_by old.takes_stop request))
        × (response.body.items ≡ body_text old.figures old.health (asked_by old.takes_stop request))
        × (fields_of response ≡ answer_fields (asked_by old.takes_stop request))
        × (new ≡ record old { is_stop_asked = old.is_stop_asked || asks_for_stop (asked_by old.takes_stop request) }) };

    #[tactic(auto, unfolding(crate::specs::Answers::answer_fields))]
    fn call(
        &mut self,
        request: &Request<Bytes>,
        response: &mut Response,
    ) -> Result<(), AllocError> {
        let page = page_named(
            self.takes_stop,
            request.method().as_str().as_bytes(),
            request.uri().path().as_bytes(),
        );
        let Ok(text) = body(self.alloc, &self.figures, &self.health, page) else {
            return Err(AllocError);
        };
        response.body.put_slice(text.as_slice())?;
        response.status = status(&self.health, page);
        let kind = HeaderValue::from_static("text/plain; version=0.0.4; charset=utf-8");
        response.add_header(CONTENT_TYPE, kind)?;
        response.add_header(CONNECTION, HeaderValue::from_static("close"))?;
        response.add_header(ALLOW, methods(page))?;
        self.is_stop_asked = self.is_stop_asked || is_stop(page);
        Ok(())
    }
}
