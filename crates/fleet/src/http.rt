//! HTTP beside the socket of devices: who may ask, where, and the page.

use crate::file_front::read_own_front;
use crate::page::page_of_file;
use log::Log;
use lw_fleet::{HttpOptions, RunningFault};
use lw_http::{AccessPolicy, token_in};
use lw_route::Commands;
use lw_sockets::Sockets;
use std::hash::RandomState;
use std::net::SocketAddr;

/// How many bytes of a file with a token are read: a token and the end of its line fit.
const TOKEN_ROOM: usize = 512;

/// Who may ask over HTTP, where, and the page.
#[derive(Drop)]
pub(crate) struct HttpConfig {
    policy: AccessPolicy,
    address: SocketAddr,
    page: Option<String>,
}

/// Where HTTP is listened for, and the page.
#[derive(Drop)]
pub(crate) struct HttpBinding {
    pub(crate) address: SocketAddr,
    pub(crate) page: Option<String>,
}

impl HttpConfig {
    /// Reads the file with the token and that of the page, where there is one.
    pub(crate) fn of_options(
        host: &HostRuntime,
        options: &HttpOptions<'_>,
    ) -> Result<HttpConfig, RunningFault> {
        let token = match options.token_file {
            None => None,
            Some(path) => Some(token_of_file(host, path)?),
        };
        let name = match options.host {
            None => None,
            Some(name) => match String::from_str(host.alloc(), name) {
                Ok(name) => Some(name),
                Err(_) => return Err(RunningFault::NoMemory),
            },
        };
        let page = match options.page_file {
            None => None,
            Some(path) => Some(page_of_file(host, path)?),
        };
        Ok(HttpConfig {
            policy: AccessPolicy {
                token,
                host: name,
                commands: commands_of(options),
            },
            address: options.address,
            page,
        })
    }

    /// Listens for HTTP at the sockets.
    pub(crate) fn listen<L: Log>(
        self,
        host: &HostRuntime,
        sockets: &mut Sockets<'_, HostRuntime, L>,
    ) -> Result<HttpBinding, RunningFault> {
        let HttpConfig {
            policy,
            address,
            page,
        } = self;
        let Ok(keys) = RandomState::new(host) else {
            return Err(RunningFault::RandomFailed);
        };
        match sockets.listen(host, keys, policy, address) {
            Ok(address) => Ok(HttpBinding { address, page }),
            Err(_) => Err(RunningFault::HttpBindFailed),
        }
    }
}

/// Whether requests are taken that change something.
fn commands_of(options: &HttpOptions<'_>) -> Commands {
    if options.commands {
        Commands::On
    } else {
        Commands::Off
    }
}

/// The token in the file, which its owner alone may write.
fn token_of_file(host: &HostRuntime, path: &str) -> Result<Vec<u8>, RunningFault> {
    let mut room = [0; TOKEN_ROOM];
    let Ok(count) = read_own_front(host, path, &mut room) else {
        return Err(RunningFault::TokenRefused);
    };
    let Some(token) = token_in(&room[..count.min(TOKEN_ROOM)]) else {
        return Err(RunningFault::TokenRefused);
    };
    let mut copy = Vec::new(host.alloc());
    match copy.extend_from_slice(token) {
        Ok(()) => Ok(copy),
        Err(_) => Err(RunningFault::NoMemory),
    }
}
