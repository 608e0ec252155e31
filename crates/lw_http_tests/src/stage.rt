//! An API, and what is sent for it.

use lw_http::{AccessPolicy, serve_connection};
use lw_route::{Api, ApiQuery, ApiResponse, Command, Commands, Media, Status};
use lw_stamp::NoMemory;
use std::alloc::Global;
use std::hash::RandomState;
use std::process::Abort;
use std::random::RandomSource;
use std::str;

/// The token of an access policy that has one.
pub(crate) const TOKEN: &str = "0123456789abcdef";

/// An API that tells by what is asked for alone, and counts the commands.
#[derive(Drop)]
pub(crate) struct ByKind {
    alloc: Global,
    commands: usize,
}

impl ByKind {
    fn told(&self, status: Status, media: Media, body: &str) -> Result<ApiResponse, NoMemory> {
        Ok(ApiResponse {
            status,
            media,
            body: String::from_str(self.alloc, body)?,
        })
    }
}

impl Api for ByKind {
    ghost may_answer = { λ api api_query answer. Unit {0} };

    ghost may_do = { λ old command answer new. Unit {0} };

    fn answer(&self, api_query: &ApiQuery) -> Result<ApiResponse, NoMemory> {
        match api_query {
            ApiQuery::Health => self.told(Status::Ok, Media::Json, "{}"),
            ApiQuery::Page => self.told(Status::Ok, Media::Html, "<p>"),
            ApiQuery::Metrics => self.told(Status::Ok, Media::Metrics, "one 1\n"),
            ApiQuery::Node => self.told(Status::ServiceUnavailable, Media::Json, "[]"),
            ApiQuery::Changes { .. } => self.told(Status::Gone, Media::Json, "1"),
            ApiQuery::ById { .. } => self.told(Status::BadRequest, Media::Json, "2"),
            _ => self.told(Status::NotFound, Media::Json, "3"),
        }
    }

    /// There is no memory to tell of a token of the node 7.
    fn carry_out(&mut self, command: &Command) -> Option<ApiResponse> {
        self.commands = self.commands.saturating_add(1);
        match command {
            Command::Observe { .. } => self.told(Status::Created, Media::Json, "[3]").ok(),
            Command::Cancel { token } if token.node == 7 => None,
            Command::Cancel { .. } => self.told(Status::NoContent, Media::Nothing, "4").ok(),
        }
    }

    fn wants_to_send(&self) -> bool {
        self.commands > 0
    }
}

/// What every response has behind its status.
const ALWAYS: &str =
    "connection: close\r\ncache-control: no-store\r\nx-content-type-options: nosniff\r\n";

/// The line and the fields of a request; the status of its response, the fields that come behind those that each has,
/// and the body.
pub(crate) type Row<'a> = (&'a str, &'a str, &'a str, &'a str);

/// An access policy, and the keys with which fields are hashed.
#[derive(Drop)]
pub(crate) struct Stage {
    alloc: Global,
    keys: RandomState,
    policy: AccessPolicy,
}

impl Stage {
    /// A stage whose access policy has the host `fleet.example`, and a token where one is given.
    pub(crate) fn new<R: Abort + RandomSource>(
        rt: &R,
        alloc: Global,
        token: Option<&str>,
        commands: Commands,
    ) -> Stage {
        let keys = RandomState::new(rt).expect(rt, "keys");
        let host = String::from_str(alloc, "fleet.example").expect(rt, "memory");
        let token = match token {
            None => None,
            Some(token) => Some(token.as_bytes().to_vec(alloc).expect(rt, "memory")),
        };
        let policy = AccessPolicy {
            token,
            host: Some(host),
            commands,
        };
        Stage {
            alloc,
            keys,
            policy,
        }
    }

    /// What is sent back to the request, and how many commands a new API has carried out.
    fn sent(&self, rt: &impl Abort, request: &str) -> (Vec<u8>, usize) {
        let api = ByKind {
            alloc: self.alloc,
            commands: 0,
        };
        let mut sent = Vec::new(self.alloc);
        let mut reader = request.as_bytes();
        let (api, ended) = serve_connection(
            self.alloc,
            self.keys,
            api,
            &self.policy,
            &mut reader,
            &mut sent,
        );
        ended.expect(rt, "a connection");
        (sent, api.commands)
    }

    /// The response has to be the text, and so many commands carried out.
    pub(crate) fn is_text(&self, rt: &impl Abort, commands: usize, request: &str, want: &str) {
        let (sent, carried_out) = self.sent(rt, request);
        assert!(rt;
            carried_out == commands,
            "{request}: {carried_out} commands"
        );
        let text = str::from_utf8(&sent).expect(rt, "a text");
        assert!(rt; text == want, "{request}: {text} and not {want}");
    }

    /// The response has to be that of the row, and so many commands carried out.
    pub(crate) fn is_sent(&self, rt: &impl Abort, commands: usize, row: &Row<'_>) {
        let (request, status, fields, body) = *row;
        let want = format!(in self.alloc; "HTTP/1.1 {status}\r\n{ALWAYS}{fields}\r\n{body}");
        let want = want.expect(rt, "memory");
        self.is_text(rt, commands, request, want.as_str());
    }

    /// The response has to be that of each row, and so many commands carried out at each.
    pub(crate) fn are_sent(&self, rt: &impl Abort, commands: usize, rows: &[Row<'_>]) {
        for row in rows {
            self.is_sent(rt, commands, row);
        }
    }
}
