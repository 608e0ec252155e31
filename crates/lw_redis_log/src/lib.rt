//! A log in one stream of a Redis, by which several servers share a fleet.
#![tactic(auto)]

mod clock;
mod commands;
mod connection;
mod connects;
mod errors;
mod fleets;
mod greeting;
mod login;
mod marks;
mod notice_rate;
mod outcomes;
mod pages;
mod patience;
mod redis_log;
mod replies;
mod seen;
mod settings;
mod tcp;
mod times;
mod timing;
mod trims;

pub use clock::{LONGEST_EXCHANGE, RedisClock, is_noted, moment_by, offset_of};
pub use commands::{
    ReadFrom, append_command, info_command, login_command, ping_command, read_command,
    time_command, trim_command,
};
pub use connects::{Connects, Notice};
pub use errors::{MAX_SHOWN, error_prefix, passes, shown};
pub use fleets::fleet_of_delta;
pub use login::{Login, LoginFault, MAX_PART};
pub use marks::{Arrival, LOOK_SIZE, Mark, arrival_in, behind, is_looked_for};
pub use outcomes::{
    RedisFault, append_outcome, entries_outcome, info_outcome, status_outcome, trim_outcome,
};
pub use pages::{PageFault, page_of};
pub use patience::{LONGEST_PAUSE, SHORTEST_PAUSE, longer_pause, patience_for};
pub use redis_log::RedisLog;
pub use settings::Settings;
pub use tcp::TcpRedis;
pub use times::time_told;
pub use timing::TIME_BETWEEN;
pub use trims::TRIM_DELAY;
