ghost use Rattle.std.specs.Prelude.{◌≡◌};
ghost use Rattle.lw_metrics.specs.Metrics.{name_of, help_of, kind_of};

/// What is shown.
#[derive(Clone, Copy)]
pub(crate) enum Metric {
    BuildInfo,
    StartTime,
    Registrations,
    StampClock,
    Change,
    Number,
    Rounds,
    Datagrams,
    Replies,
    EmptyReplies,
    Unanswered,
    Notifications,
    Swept,
    NoMemory,
    RequestsSent,
    RequestsSentAgain,
    RequestsReset,
    RequestsUnanswered,
    RequestsWaiting,
    NotificationsStale,
    NotificationBlocks,
    Fetches,
    Unnumbered,
    PassedOver,
    LogAway,
    AppendSeconds,
    EntriesWritten,
    EntriesRead,
    LogBytes,
    WholeBytes,
    Compactions,
    AwaySeconds,
    Refusals,
    ClockOffset,
    ReceiveFaults,
    SendFaults,
    Dropped,
    SocketDrops,
    Duplicates,
    Blocks,
    Bodies,
    Responses,
}

impl Metric {
    #[tactic(auto, unfolding(crate::specs::Metrics::name_of))]
    pub(crate) fn name(self) -> &'static str
        ensures { result.now ≡ name_of self }
    {
        match self {
            Metric::BuildInfo => "fleet_build_info",
            Metric::StartTime => "fleet_start_time_seconds",
            Metric::Registrations => "fleet_registrations",
            Metric::StampClock => "fleet_stamp_clock",
            Metric::Change => "fleet_change",
            Metric::Number => "fleet_number",
            Metric::Rounds => "fleet_rounds_total",
            Metric::Datagrams => "fleet_datagrams_total",
            Metric::Replies => "fleet_replies_total",
            Metric::EmptyReplies => "fleet_empty_replies_total",
            Metric::Unanswered => "fleet_unanswered_total",
            Metric::Notifications => "fleet_notifications_total",
            Metric::Swept => "fleet_swept_total",
            Metric::NoMemory => "fleet_no_memory_total",
            Metric::RequestsSent => "fleet_requests_sent_total",
            Metric::RequestsSentAgain => "fleet_requests_sent_again_total",
            Metric::RequestsReset => "fleet_requests_reset_total",
            Metric::RequestsUnanswered => "fleet_requests_unanswered_total",
            Metric::RequestsWaiting => "fleet_requests_waiting",
            Metric::NotificationsStale => "fleet_notifications_stale_total",
            Metric::NotificationBlocks => "fleet_notification_blocks_total",
            Metric::Fetches => "fleet_notification_fetches",
            Metric::Unnumbered => "fleet_replies_unnumbered_total",
            Metric::PassedOver => "fleet_passed_over_total",
            Metric::LogAway => "fleet_log_away",
            Metric::AppendSeconds => "fleet_log_append_seconds",
            Metric::EntriesWritten => "fleet_log_entries_written_total",
            Metric::EntriesRead => "fleet_log_entries_read_total",
            Metric::LogBytes => "fleet_log_bytes",
            Metric::WholeBytes => "fleet_log_whole_bytes",
            Metric::Compactions => "fleet_log_compactions_total",
            Metric::AwaySeconds => "fleet_log_away_seconds_total",
            Metric::Refusals => "fleet_log_refused_total",
            Metric::ClockOffset => "fleet_clock_offset_seconds",
            Metric::ReceiveFaults => "fleet_receive_faults_total",
            Metric::SendFaults => "fleet_send_faults_total",
            Metric::Dropped => "fleet_dropped_total",
            Metric::SocketDrops => "fleet_socket_drops_total",
            Metric::Duplicates => "fleet_duplicates_total",
            Metric::Blocks => "fleet_blocks_total",
            Metric::Bodies => "fleet_bodies",
            Metric::Responses => "fleet_http_responses_total",
        }
    }

    #[tactic(auto, unfolding(crate::specs::Metrics::help_of))]
    pub(crate) fn help(self) -> &'static str
        ensures { result.now ≡ help_of self }
    {
        match self {
            Metric::BuildInfo => "The version of the program.",
            Metric::StartTime => "When the program was started, in seconds since 1970.",
            Metric::Registrations => "Registrations that are known.",
            Metric::StampClock => "The greatest counter of a stamp that is known.",
            Metric::Change => "The number of the last change.",
            Metric::Number => "The number of the node in its fleet.",
            Metric::Rounds => "Rounds of calls.",
            Metric::Datagrams => "Datagrams that were taken.",
            Metric::Replies => "Replies, by code.",
            Metric::EmptyReplies => "Replies that are empty messages.",
            Metric::Unanswered => "Datagrams that are owed no reply.",
            Metric::Notifications => "Notifications of observations.",
            Metric::Swept => "Registrations that expired and were ended.",
            Metric::NoMemory => "Calls that failed for want of memory.",
            Metric::RequestsSent => "Requests that were sent to devices, each counted once.",
            Metric::RequestsSentAgain => "Requests that were sent to devices again.",
            Metric::RequestsReset => "Requests that devices answered with a Reset.",
            Metric::RequestsUnanswered => "Requests that devices did not answer in time.",
            Metric::RequestsWaiting => "Requests that wait for an acknowledgement.",
            Metric::NotificationsStale => {
                "Notifications that were older than one before, and were not told."
            }
            Metric::NotificationBlocks => "Notifications that were blocks of bodies.",
            Metric::Fetches => "Notifications whose rest is being fetched.",
            Metric::Unnumbered => "Replies that were not sent since no message ID was free.",
            Metric::PassedOver => "Rounds that failed for want of memory.",
            Metric::LogAway => "Whether the log is away: 1, or 0.",
            Metric::AppendSeconds => "How long appends to the log took.",
            Metric::EntriesWritten => "Entries that were appended to the log.",
            Metric::EntriesRead => "Entries that were read from the log.",
            Metric::LogBytes => {
                "Bytes of the last whole entry of the log, and of the entries behind it."
            }
            Metric::WholeBytes => "Bytes of the last whole entry of the log.",
            Metric::Compactions => "Compactions of the log.",
            Metric::AwaySeconds => "Seconds for which the log was away.",
            Metric::Refusals => "Turns and compactions that the log refused.",
            Metric::ClockOffset => {
                "How far the clock of the host is from the one that lifetimes go by."
            }
            Metric::ReceiveFaults => "Faults in waiting for datagrams.",
            Metric::SendFaults => "Replies, and requests to devices, that could not be sent.",
            Metric::Dropped => {
                "Datagrams that were passed over since the log was away, or the server had stood still."
            }
            Metric::SocketDrops => {
                "Datagrams that the system dropped since the socket's buffer was full."
            }
            Metric::Duplicates => "Datagrams that came again and got the same reply.",
            Metric::Blocks => "Datagrams that were blocks of bodies.",
            Metric::Bodies => "Bodies whose blocks have not all come.",
            Metric::Responses => "Responses over HTTP, by status.",
        }
    }

    #[tactic(auto, unfolding(crate::specs::Metrics::kind_of))]
    pub(crate) fn kind(self) -> &'static str
        ensures { result.now ≡ kind_of self }
    {
        match self {
            Metric::BuildInfo
            | Metric::StartTime
            | Metric::Registrations
            | Metric::StampClock
            | Metric::Change
            | Metric::Number
            | Metric::RequestsWaiting
            | Metric::Fetches
            | Metric::LogAway
            | Metric::LogBytes
            | Metric::WholeBytes
            | Metric::ClockOffset
            | Metric::Bodies => "gauge",
            Metric::AppendSeconds => "histogram",
            _ => "counter",
        }
    }
}
