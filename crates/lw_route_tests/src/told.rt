//! What is asked for in words.

use lw_reg::Path;
use lw_route::{ApiQuery, Command, Commands, Method, Route, RouteError, route_of};
use std::alloc::Global;
use std::fmt::Display;
use std::process::Abort;

/// The path of a target, and what stands behind its `?`.
fn parts(target: &str) -> (&str, Option<&str>) {
    match target.split_once('?') {
        Some((path, query)) => (path, Some(query)),
        None => (target, None),
    }
}

/// Whether commands are taken, and a method.
type Request = (Commands, Method);

/// What the request is for, or the status code and the text of why it is for nothing.
pub(crate) fn told(rt: &impl Abort, alloc: Global, request: Request, target: &str) -> String {
    let (commands, method) = request;
    let (path, query) = parts(target);
    match route_of(alloc, commands, method, path, query).expect(rt, "memory") {
        Ok(Route::Query(api_query)) => in_words(rt, alloc, &api_query),
        Ok(Route::Command(command)) => command_in_words(rt, alloc, &command),
        Err(error) => error_in_words(rt, alloc, error),
    }
}

/// What the request comes to at the target has to be this.
pub(crate) fn check(rt: &impl Abort, alloc: Global, request: Request, target: &str, want: &str) {
    let got = told(rt, alloc, request, target);
    assert!(rt; got.as_str() == want, "{target}: {got}");
}

/// What is shown, as a text.
fn text<D: Display + Drop>(rt: &impl Abort, alloc: Global, shown: D) -> String {
    String::format(alloc, shown).expect(rt, "memory")
}

fn error_in_words(rt: &impl Abort, alloc: Global, error: RouteError) -> String {
    let (status, why) = (error.status(), error.text());
    match error {
        RouteError::MethodNotAllowed(allowed) => {
            let methods = allowed.text();
            text(rt, alloc, format_args!("{status} {why}: {methods}"))
        }
        _ => text(rt, alloc, format_args!("{status} {why}")),
    }
}

fn command_in_words(rt: &impl Abort, alloc: Global, command: &Command) -> String {
    match command {
        Command::Observe {
            endpoint,
            path,
            accept,
        } => {
            let endpoint = endpoint.as_str();
            let numbers = numbers(rt, alloc, path);
            match accept {
                Some(accept) => text(
                    rt,
                    alloc,
                    format_args!("observe {endpoint}{numbers} in {accept}"),
                ),
                None => text(rt, alloc, format_args!("observe {endpoint}{numbers}")),
            }
        }
        Command::Cancel { token } => text(
            rt,
            alloc,
            format_args!("cancel {} {}", token.counter, token.node),
        ),
    }
}

/// The numbers of a path, each behind a space.
fn numbers(rt: &impl Abort, alloc: Global, path: &Path) -> String {
    let mut numbers = String::new(alloc);
    for number in path.numbers() {
        let one = text(rt, alloc, format_args!(" {number}"));
        numbers.push_str(one.as_str()).expect(rt, "memory");
    }
    numbers
}

fn in_words(rt: &impl Abort, alloc: Global, api_query: &ApiQuery) -> String {
    match api_query {
        ApiQuery::Registrations { after, limit } => match after {
            Some(after) => text(rt, alloc, format_args!("{limit} after {}", after.as_str())),
            None => text(rt, alloc, format_args!("{limit} of all")),
        },
        ApiQuery::Changes {
            since,
            start,
            limit,
        } => match start {
            Some(start) => text(rt, alloc, format_args!("{limit} since {since} of {start}")),
            None => text(rt, alloc, format_args!("{limit} since {since}")),
        },
        ApiQuery::Notifications { from, start, limit } => match start {
            Some(start) => text(rt, alloc, format_args!("{limit} from {from} of {start}")),
            None => text(rt, alloc, format_args!("{limit} from {from}")),
        },
        ApiQuery::Observations {
            endpoint,
            after,
            limit,
        } => observed_in_words(rt, alloc, endpoint.as_str(), after, *limit),
        _ => one_in_words(rt, alloc, api_query),
    }
}

fn observed_in_words(
    rt: &impl Abort,
    alloc: Global,
    endpoint: &str,
    after: &Option<Path>,
    limit: usize,
) -> String {
    match after {
        Some(path) => {
            let numbers = numbers(rt, alloc, path);
            text(
                rt,
                alloc,
                format_args!("{limit} of {endpoint} behind{numbers}"),
            )
        }
        None => text(rt, alloc, format_args!("{limit} of {endpoint}")),
    }
}

fn one_in_words(rt: &impl Abort, alloc: Global, api_query: &ApiQuery) -> String {
    match api_query {
        ApiQuery::Registration { endpoint } => text(
            rt,
            alloc,
            format_args!("of {}", endpoint.as_str()),
        ),
        ApiQuery::ById { id } => text(rt, alloc, format_args!("id {} {}", id.counter, id.node)),
        ApiQuery::ByToken { token } => text(
            rt,
            alloc,
            format_args!("token {} {}", token.counter, token.node),
        ),
        ApiQuery::ByAddress { address } => {
            let printed = address.print(alloc).expect(rt, "memory");
            text(rt, alloc, format_args!("at {}", printed.as_str()))
        }
        ApiQuery::Page => text(rt, alloc, "page"),
        ApiQuery::Health => text(rt, alloc, "health"),
        ApiQuery::Node => text(rt, alloc, "node"),
        ApiQuery::Metrics => text(rt, alloc, "metrics"),
        _ => text(rt, alloc, "one registration or observation"),
    }
}
