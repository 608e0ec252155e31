//! A connection that is answered.

ghost use Rattle.std.specs.Prelude.{◌≡◌, OnOk};
ghost use Rattle.std.specs.Io.KnownBytes.{Appends, Consumes};
ghost use Rattle.http_server.specs.Connection.{config_of, history};
ghost use Rattle.http_server.specs.History.{new_history, History, IsDone, IsQuiet, IsServed, Rests};
ghost use Rattle.lw_http.specs.Connections.{AreAnswered, IsLimited, IsConnectionServed};

use crate::{AccessPolicy, ApiService};
use http_server::{Config, Connection, serve};
use lw_route::Api;
use std::alloc::Global;
use std::hash::RandomState;
use std::io::{self, Read, Write};

/// The most bytes of a request's line and fields.
const MOST_HEAD: usize = 8_192;

/// A connection that is answered. No request has a body.
pub fn new_connection(alloc: Global, keys: RandomState) -> Connection
    ensures history { history result ≡ new_history }
    ensures limited { IsLimited (config_of result) }
{
    let mut config = Config::default();
    config.limits.max_head_len = MOST_HEAD;
    config.max_body_len = 0;
    Connection::new(alloc, keys, config)
}

/// Answers the requests that have come whole, and gives the API back.
pub fn advance<A: Api + Drop>(
    alloc: Global,
    connection: &mut Connection,
    api: A,
    policy: &AccessPolicy,
) -> A
    ensures answered { AreAnswered policy.now A.may_answer A.may_do api (history connection.old)
        (history connection.new)
        result }
    ensures served { ∥ IsServed (config_of connection.new) (history connection.new) ∥₁ }
    ensures rests { Rests (config_of connection.new) (history connection.new) }
    ensures quiet { IsQuiet (history connection.old) (history connection.new) }
    ensures config { config_of connection.new ≡ config_of connection.old }
{
    let mut service = ApiService { alloc, api, policy };
    connection.advance(&mut service);
    service.api
}

/// Answers a reader's requests by what it writes, until the connection is done, and gives the API back.
pub fn serve_connection<A: Api + Drop, R: Read, W: Write>(
    alloc: Global,
    keys: RandomState,
    api: A,
    policy: &AccessPolicy,
    reader: &mut R,
    writer: &mut W,
) -> (A, io::Result<()>)
    ensures served { (all : History) × IsConnectionServed policy.now A.may_answer A.may_do api all result.0
        × Consumes (R.remaining reader.old) (R.remaining reader.new) all.received
        × Appends (W.contents writer.old) (W.contents writer.new) all.sent
        × OnOk result.1 (IsDone all) }
{
    let mut connection = new_connection(alloc, keys);
    let mut service = ApiService { alloc, api, policy };
    let ended = serve(&mut connection, &mut service, reader, writer);
    (service.api, ended)
}
