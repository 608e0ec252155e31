//! An API as a service of HTTP.

ghost use Rattle.std.specs.Prelude.{◌≡◌, ◌++◌, [], OnOk, Some, Option};
ghost use Rattle.http_server.specs.Response.{fields_of, IsBlank, IsResponse};
ghost use Rattle.lw_route.specs.declared.api.ApiResponse.{ApiResponse as Content};
ghost use Rattle.lw_route.specs.declared.api.Media.TheVariants.{Html};
ghost use Rattle.lw_http.specs.Responses.{body_in, code_of, error_body, fields_for, media_fields, Gives};
ghost use Rattle.lw_http.specs.Responses.{IsErrorResponse, IsToldOf};

use crate::AccessPolicy;
use crate::error::{HttpError, add_field};
use bytes::{BufMut, Bytes};
use http::{Request, StatusCode, header};
use http_server::{Response, Service};
use lw_route::{Api, ApiQuery, ApiResponse, Command, Media, Route, Status};
use lw_stamp::NoMemory;
use std::alloc::{AllocError, Global};

/// What a page may do: run what stands in it, and ask the server that it came from.
const PAGE_POLICY: &str =
    "default-src 'none'; script-src 'unsafe-inline'; style-src 'unsafe-inline'; connect-src 'self'; \
    frame-ancestors 'none'";

/// An API that is asked over HTTP. Where there is no memory to answer a query or to refuse, the connection ends.
#[derive(Drop)]
pub struct ApiService<'a, A: Api + Drop> {
    pub alloc: Global,
    pub api: A,
    pub policy: &'a AccessPolicy,
}

impl<A: Api + Drop> Service for ApiService<'_, A> {
    ghost use Rattle.std.specs.Prelude.{◌≡◌};
    ghost use Rattle.lw_http.specs.Verdicts.{IsTold};

    ghost answers = { λ old request response new. (new.policy ≡ old.policy)
        × IsTold old.policy.now A.may_answer A.may_do old.api request response new.api };

    fn call(
        &mut self,
        request: &Request<Bytes>,
        response: &mut Response,
    ) -> Result<(), AllocError> {
        match self.policy.authorize(self.alloc, request) {
            Ok(Ok(Route::Query(api_query))) => self.respond(&api_query, response),
            Ok(Ok(Route::Command(command))) => {
                self.carry_out(&command, response);
                Ok(())
            }
            Ok(Err(error)) => put_http_error(response, error),
            Err(NoMemory) => Err(AllocError),
        }
    }
}

impl<A: Api + Drop> ApiService<'_, A> {
    /// Answers a query.
    fn respond(&self, api_query: &ApiQuery, response: &mut Response) -> Result<(), AllocError>
        requires { IsBlank response.old }
        ensures { OnOk result ((answer : Content) × A.may_answer self.now.api api_query.now answer
            × Gives answer response.new) }
    {
        match self.api.answer(api_query) {
            Ok(answer) => put_answer(response, &answer),
            Err(NoMemory) => Err(AllocError),
        }
    }

    /// Carries a command out, and tells what came of it.
    fn carry_out(&mut self, command: &Command, response: &mut Response)
        requires { IsBlank response.old }
        ensures done { (answer : Option Content) × A.may_do self.old.api command.now answer self.new.api
            × IsToldOf answer response.new }
        ensures policy { self.new.policy ≡ self.old.policy }
    {
        match self.api.carry_out(command) {
            Some(answer) => put_outcome(response, &answer),
            None => put_no_memory(response),
        }
    }
}

fn status_code_of(status: Status) -> StatusCode
    ensures { result ≡ code_of status }
{
    match status {
        Status::Ok => StatusCode::OK,
        Status::Created => StatusCode::CREATED,
        Status::NoContent => StatusCode::NO_CONTENT,
        Status::BadRequest => StatusCode::BAD_REQUEST,
        Status::NotFound => StatusCode::NOT_FOUND,
        Status::Gone => StatusCode::GONE,
        Status::ServiceUnavailable => StatusCode::SERVICE_UNAVAILABLE,
    }
}

/// What came of a command, or where there is no memory to tell it, that there is none.
fn put_outcome(response: &mut Response, answer: &ApiResponse)
    requires { IsBlank response.old }
    ensures { IsToldOf (Some answer.now) response.new }
{
    if put_answer(response, answer).is_err() {
        response.clear();
        put_no_memory(response);
    }
}

fn put_no_memory(response: &mut Response)
    requires { IsBlank response.old }
    ensures { IsResponse 503 [] [] response.new }
{
    response.status = StatusCode::SERVICE_UNAVAILABLE;
}

/// Begins a response: its status, and the fields that each has.
fn put_head(response: &mut Response, status: StatusCode, media: Media) -> Result<(), AllocError>
    requires { IsBlank response.old }
    ensures { OnOk result (IsResponse status (fields_for media []) [] response.new) }
{
    response.status = status;
    add_field(response, header::CONNECTION, "close")?;
    add_field(response, header::CACHE_CONTROL, "no-store")?;
    add_field(response, header::X_CONTENT_TYPE_OPTIONS, "nosniff")?;
    add_media(response, media)
}

/// The type of a body, where there is one, and what a page may do.
fn add_media(response: &mut Response, media: Media) -> Result<(), AllocError>
    ensures headers { OnOk result (fields_of response.new ≡ fields_of response.old ++ media_fields media) }
    ensures status { OnOk result (response.new.status ≡ response.old.status) }
    ensures body { OnOk result (response.new.body ≡ response.old.body) }
{
    match media {
        Media::Json => add_field(response, header::CONTENT_TYPE, "application/json"),
        Media::Html => add_page(response),
        Media::Metrics => add_field(response, header::CONTENT_TYPE, "text/plain; version=0.0.4"),
        Media::Nothing => Ok(()),
    }
}

/// The type of a page, and what it may do, said to the browser that shows it.
fn add_page(response: &mut Response) -> Result<(), AllocError>
    ensures headers { OnOk result (fields_of response.new ≡ fields_of response.old ++ media_fields Html) }
    ensures status { OnOk result (response.new.status ≡ response.old.status) }
    ensures body { OnOk result (response.new.body ≡ response.old.body) }
{
    add_field(response, header::CONTENT_TYPE, "text/html; charset=utf-8")?;
    add_field(response, header::CONTENT_SECURITY_POLICY, PAGE_POLICY)
}

fn put_answer(response: &mut Response, answer: &ApiResponse) -> Result<(), AllocError>
    requires { IsBlank response.old }
    ensures { OnOk result (Gives answer.now response.new) }
{
    put_head(response, status_code_of(answer.status), answer.media)?;
    put_body(response, answer.media, answer.body.as_bytes())
}

/// The body, behind which there is none yet.
fn put_body(response: &mut Response, media: Media, body: &[u8]) -> Result<(), AllocError>
    ensures headers { OnOk result (response.new.headers ≡ response.old.headers) }
    ensures status { OnOk result (response.new.status ≡ response.old.status) }
    ensures body { OnOk result (response.old.body.items ≡ [] → response.new.body.items ≡ body_in media body.now) }
{
    match media {
        Media::Nothing => Ok(()),
        Media::Json | Media::Html | Media::Metrics => response.body.put_slice(body),
    }
}

fn put_http_error(response: &mut Response, error: HttpError) -> Result<(), AllocError>
    requires { IsBlank response.old }
    ensures { OnOk result (IsErrorResponse error response.new) }
{
    put_head(response, error.status(), Media::Json)?;
    error.add_fields(response)?;
    put_error_body(response, error.text())
}

/// The body of an error, behind which there is none yet.
fn put_error_body(response: &mut Response, text: &str) -> Result<(), AllocError>
    ensures headers { OnOk result (response.new.headers ≡ response.old.headers) }
    ensures status { OnOk result (response.new.status ≡ response.old.status) }
    ensures body { OnOk result (response.old.body.items ≡ [] → response.new.body.items ≡ error_body text.now) }
{
    response.body.put_slice(b"{\"error\":\"")?;
    response.body.put_slice(text.as_bytes())?;
    response.body.put_slice(b"\"}")
}
