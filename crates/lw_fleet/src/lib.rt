//! The program `fleet` as a library: its command line, its four commands and their endings, over any reader, writer and
//! server.
#![tactic(auto)]

mod command;
mod fault;
mod hex_line;
mod http_options;
mod input;
mod one_datagram;
mod output;
mod redis_options;
mod replaying;
mod run_options;
mod running;
mod running_server;
mod serving;

pub use command::{OneOptions, Request, ServeOptions, not_utf8, read_request};
pub use fault::Fault;
pub use hex_line::bytes_of_hex;
pub use http_options::HttpOptions;
pub use input::{read_all, read_line};
pub use one_datagram::one;
pub use output::{flush, write_all, write_text};
pub use redis_options::RedisOptions;
pub use replaying::replay;
pub use run_options::{Keeps, LogLevel, RunOptions};
pub use running::{Ending, program};
pub use running_server::{RunningFault, Runs};
pub use serving::{Serves, ServingFault};
