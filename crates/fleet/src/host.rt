use log::sink::Console;
use lw_fleet::{ServeOptions, Serves, ServingFault};
use lw_serve::{SystemClock, UdpWire, serve_on};
use std::io::Write;
use std::net::{IpAddr, Ipv4Addr, Net, SocketAddr, UdpSocket};
use std::sync::Wait;
use std::thread::Threads;
use std::time::Clock;

/// Serves over a socket of 127.0.0.1, with the clock of the host. What it passes over is logged to standard error.
#[derive(Drop)]
pub struct Host<'a, H> {
    pub host: &'a H,
}

impl<H: AllocGlobal + Clock + Eprint + Net> Serves for Host<'_, H> {
    fn serve<R: Threads + Wait + Sync, W: Write>(
        &mut self,
        rt: &R,
        options: &ServeOptions,
        writer: &mut W,
    ) -> Result<(), ServingFault> {
        let host = self.host;
        let address = SocketAddr::new(IpAddr::V4(Ipv4Addr::LOCALHOST), options.port);
        let Ok(socket) = UdpSocket::bind(host, address) else {
            return Err(ServingFault::BindFailed);
        };
        let mut wire = UdpWire::new(socket);
        let mut clock = SystemClock { clock: host };
        let log = Console(host);
        serve_on(
            rt,
            host.alloc(),
            &mut wire,
            &mut clock,
            &log,
            &options.plan,
            writer,
        )?;
        Ok(())
    }
}
