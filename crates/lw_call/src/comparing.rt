//! Whether calls and replies have equal content.

ghost use Rattle.std.specs.Prelude.{◌≡◌, ◌↔◌, IsTrue, option_map};

use crate::answer::Answer;
use crate::call::Call;
use crate::clock_end::ClockEnd;
use crate::merge_fault::MergeFault;
use crate::notice::Notice;
use crate::observe_fault::ObserveFault;
use crate::outgoing::Outgoing;
use crate::question::Question;
use crate::reply::Reply;
use crate::sent::Sent;
use crate::taken::Taken;
use lw_delta::DeltaFault;
use lw_link::LinkText;
use lw_reg::{Addr, Attributes, Binding, Path, Seen, Text, Version, Watch};
use lw_stamp::{Moment, NoMemory, Stamp};

impl Call {
    /// Whether the content is equal.
    pub fn same(&self, other: &Call) -> bool
        ensures { IsTrue result ↔ (self.now ≡ other.now) }
    {
        match self {
            Call::Take { now, from, bytes } => other.is_take(now, from, bytes.as_slice()),
            Call::Observe {
                now,
                id,
                path,
                accept,
                mid,
            } => other.is_observe(now, id, path, accept, *mid),
            Call::Cancel { now, token, mid } => other.is_cancel(now, token, *mid),
            Call::Send { since } => other.is_send(*since),
            Call::Merge { bytes } => other.is_merge(bytes.as_slice()),
            Call::Ask { now, question } => other.is_ask(now, question),
            Call::Sweep { now } => other.is_sweep(now),
        }
    }

    fn is_take(&self, now: &Moment, from: &Addr, bytes: &[u8]) -> bool
        ensures { IsTrue result ↔ (Call.Take now.now from.now bytes.now ≡ self.now) }
    {
        match self {
            Call::Take {
                now: own_now,
                from: own_from,
                bytes: own_bytes,
            } => {
                same_moment(now, own_now)
                    && same_address(from, own_from)
                    && same_bytes(bytes, own_bytes.as_slice())
            }
            _ => false,
        }
    }

    fn is_observe(
        &self,
        now: &Moment,
        id: &Stamp,
        path: &Path,
        accept: &Option<u16>,
        mid: u16,
    ) -> bool
        ensures { IsTrue result ↔ (Call.Observe now.now id.now path.now accept.now mid ≡ self.now) }
    {
        match self {
            Call::Observe {
                now: own_now,
                id: own_id,
                path: own_path,
                accept: own_accept,
                mid: own_mid,
            } => {
                same_moment(now, own_now)
                    && same_stamp(id, own_id)
                    && same_path(path, own_path)
                    && same_format(accept, own_accept)
                    && mid == *own_mid
            }
            _ => false,
        }
    }

    fn is_cancel(&self, now: &Moment, token: &Stamp, mid: u16) -> bool
        ensures { IsTrue result ↔ (Call.Cancel now.now token.now mid ≡ self.now) }
    {
        match self {
            Call::Cancel {
                now: own_now,
                token: own_token,
                mid: own_mid,
            } => same_moment(now, own_now) && same_stamp(token, own_token) && mid == *own_mid,
            _ => false,
        }
    }

    fn is_send(&self, since: u64) -> bool
        ensures { IsTrue result ↔ (Call.Send since ≡ self.now) }
    {
        match self {
            Call::Send { since: own } => since == *own,
            _ => false,
        }
    }

    fn is_merge(&self, bytes: &[u8]) -> bool
        ensures { IsTrue result ↔ (Call.Merge bytes.now ≡ self.now) }
    {
        match self {
            Call::Merge { bytes: own } => same_bytes(bytes, own.as_slice()),
            _ => false,
        }
    }

    fn is_ask(&self, now: &Moment, question: &Question) -> bool
        ensures { IsTrue result ↔ (Call.Ask now.now question.now ≡ self.now) }
    {
        match self {
            Call::Ask {
                now: own_now,
                question: own_question,
            } => same_moment(now, own_now) && question.same(own_question),
            _ => false,
        }
    }

    fn is_sweep(&self, now: &Moment) -> bool
        ensures { IsTrue result ↔ (Call.Sweep now.now ≡ self.now) }
    {
        match self {
            Call::Sweep { now: own } => same_moment(now, own),
            _ => false,
        }
    }
}

impl Question {
    /// Whether the content is equal.
    pub fn same(&self, other: &Question) -> bool
        ensures { IsTrue result ↔ (self.now ≡ other.now) }
    {
        match (self, other) {
            (Question::ById(id), Question::ById(other)) => same_stamp(id, other),
            (Question::ByEndpoint(endpoint), Question::ByEndpoint(other)) => {
                same_text(endpoint, other)
            }
            (Question::ByAddress(address), Question::ByAddress(other)) => {
                same_address(address, other)
            }
            (Question::ByToken(token), Question::ByToken(other)) => same_stamp(token, other),
            (
                Question::WatchAfter { id, after },
                Question::WatchAfter {
                    id: other_id,
                    after: other_after,
                },
            ) => same_stamp(id, other_id) && same_optional_path(after, other_after),
            (Question::FirstAfter(after), Question::FirstAfter(other)) => {
                same_optional_text(after, other)
            }
            (Question::ExpiredAfter(after), Question::ExpiredAfter(other)) => {
                same_optional_text(after, other)
            }
            (Question::Change, Question::Change) => true,
            _ => false,
        }
    }
}

impl Reply {
    /// Whether the content is equal.
    pub fn same(&self, other: &Reply) -> bool
        ensures { IsTrue result ↔ (self.now ≡ other.now) }
    {
        match (self, other) {
            (Reply::Take(outcome), Reply::Take(other)) => same_take(outcome, other),
            (Reply::Observe(outcome), Reply::Observe(other)) => same_request(outcome, other),
            (Reply::Cancel(outcome), Reply::Cancel(other)) => same_request(outcome, other),
            (Reply::Send(outcome), Reply::Send(other)) => same_send(outcome, other),
            (Reply::Merge(outcome), Reply::Merge(other)) => same_merge(outcome, other),
            (Reply::Ask(outcome), Reply::Ask(other)) => same_ask(outcome, other),
            (Reply::Sweep(outcome), Reply::Sweep(other)) => same_sweep(outcome, other),
            _ => false,
        }
    }
}

fn same_take(a: &Result<Taken, NoMemory>, b: &Result<Taken, NoMemory>) -> bool
    ensures { IsTrue result ↔ (a.now ≡ b.now) }
{
    match (a, b) {
        (Ok(a), Ok(b)) => same_taken(a, b),
        (Err(NoMemory), Err(NoMemory)) => true,
        _ => false,
    }
}

fn same_request(a: &Result<Outgoing, ObserveFault>, b: &Result<Outgoing, ObserveFault>) -> bool
    ensures { IsTrue result ↔ (a.now ≡ b.now) }
{
    match (a, b) {
        (Ok(a), Ok(b)) => same_outgoing(a, b),
        (Err(a), Err(b)) => same_observe_fault(*a, *b),
        _ => false,
    }
}

fn same_send(a: &Result<Sent, NoMemory>, b: &Result<Sent, NoMemory>) -> bool
    ensures { IsTrue result ↔ (a.now ≡ b.now) }
{
    match (a, b) {
        (Ok(a), Ok(b)) => same_sent(a, b),
        (Err(NoMemory), Err(NoMemory)) => true,
        _ => false,
    }
}

fn same_merge(a: &Result<usize, MergeFault>, b: &Result<usize, MergeFault>) -> bool
    ensures { IsTrue result ↔ (a.now ≡ b.now) }
{
    match (a, b) {
        (Ok(a), Ok(b)) => a == b,
        (Err(a), Err(b)) => same_merge_fault(*a, *b),
        _ => false,
    }
}

fn same_ask(a: &Result<Answer, NoMemory>, b: &Result<Answer, NoMemory>) -> bool
    ensures { IsTrue result ↔ (a.now ≡ b.now) }
{
    match (a, b) {
        (Ok(a), Ok(b)) => same_answer(a, b),
        (Err(NoMemory), Err(NoMemory)) => true,
        _ => false,
    }
}

fn same_sweep(a: &Result<Option<Stamp>, ClockEnd>, b: &Result<Option<Stamp>, ClockEnd>) -> bool
    ensures { IsTrue result ↔ (a.now ≡ b.now) }
{
    match (a, b) {
        (Ok(a), Ok(b)) => same_optional_stamp(a, b),
        (Err(ClockEnd), Err(ClockEnd)) => true,
        _ => false,
    }
}

// ---- what calls give

fn same_taken(a: &Taken, b: &Taken) -> bool
    ensures { IsTrue result ↔ (a.now ≡ b.now) }
{
    same_optional_bytes(&a.reply, &b.reply) && same_optional_notice(&a.notice, &b.notice)
}

fn same_optional_notice(a: &Option<Notice>, b: &Option<Notice>) -> bool
    ensures { IsTrue result ↔ (a.now ≡ b.now) }
{
    match (a, b) {
        (Some(a), Some(b)) => same_notice(a, b),
        (None, None) => true,
        _ => false,
    }
}

fn same_notice(a: &Notice, b: &Notice) -> bool
    ensures { IsTrue result ↔ (a.now ≡ b.now) }
{
    same_stamp(&a.token, &b.token)
        && same_stamp(&a.id, &b.id)
        && same_text(&a.endpoint, &b.endpoint)
        && same_path(&a.path, &b.path)
        && a.code == b.code
        && same_number(&a.observe, &b.observe)
        && same_format(&a.format, &b.format)
        && a.ended == b.ended
        && same_bytes(a.payload.as_slice(), b.payload.as_slice())
}

fn same_outgoing(a: &Outgoing, b: &Outgoing) -> bool
    ensures { IsTrue result ↔ (a.now ≡ b.now) }
{
    same_address(&a.to, &b.to)
        && same_stamp(&a.token, &b.token)
        && same_bytes(a.bytes.as_slice(), b.bytes.as_slice())
}

fn same_sent(a: &Sent, b: &Sent) -> bool
    ensures { IsTrue result ↔ (a.now ≡ b.now) }
{
    same_bytes(a.delta.as_slice(), b.delta.as_slice()) && a.change == b.change
}

fn same_answer(a: &Answer, b: &Answer) -> bool
    ensures { IsTrue result ↔ (a.now ≡ b.now) }
{
    match (a, b) {
        (Answer::Registration(a), Answer::Registration(b)) => same_registration(a, b),
        (Answer::Watched(a), Answer::Watched(b)) => same_watched(a, b),
        (Answer::Expired(a), Answer::Expired(b)) => same_expired(a, b),
        (Answer::Changed(a), Answer::Changed(b)) => a == b,
        _ => false,
    }
}

fn same_registration(a: &Option<Seen>, b: &Option<Seen>) -> bool
    ensures { IsTrue result ↔ (a.now ≡ b.now) }
{
    match (a, b) {
        (Some(a), Some(b)) => same_seen(a, b),
        (None, None) => true,
        _ => false,
    }
}

fn same_watched(a: &Option<(Seen, Watch)>, b: &Option<(Seen, Watch)>) -> bool
    ensures { IsTrue result ↔ (a.now ≡ b.now) }
{
    match (a, b) {
        (Some((a, watch)), Some((b, other))) => same_seen(a, b) && same_watch(watch, other),
        (None, None) => true,
        _ => false,
    }
}

fn same_expired(a: &Option<(Text, Stamp)>, b: &Option<(Text, Stamp)>) -> bool
    ensures { IsTrue result ↔ (a.now ≡ b.now) }
{
    match (a, b) {
        (Some((a, id)), Some((b, other))) => same_text(a, b) && same_stamp(id, other),
        (None, None) => true,
        _ => false,
    }
}

fn same_seen(a: &Seen, b: &Seen) -> bool
    ensures { IsTrue result ↔ (a.now ≡ b.now) }
{
    same_text(&a.endpoint, &b.endpoint)
        && same_stamp(&a.id, &b.id)
        && same_address(&a.address, &b.address)
        && same_moment(&a.seen, &b.seen)
        && a.lifetime == b.lifetime
        && same_version(a.version, b.version)
        && same_binding(&a.binding, &b.binding)
        && a.queue == b.queue
        && same_optional_text(&a.sms, &b.sms)
        && same_objects(&a.objects, &b.objects)
        && same_attributes(&a.attributes, &b.attributes)
}

fn same_watch(a: &Watch, b: &Watch) -> bool
    ensures { IsTrue result ↔ (a.now ≡ b.now) }
{
    same_stamp(&a.token, &b.token)
        && same_path(&a.path, &b.path)
        && same_format(&a.accept, &b.accept)
}

// ---- faults

fn same_observe_fault(a: ObserveFault, b: ObserveFault) -> bool
    ensures { IsTrue result ↔ (a ≡ b) }
{
    a == b
}

fn same_merge_fault(a: MergeFault, b: MergeFault) -> bool
    ensures { IsTrue result ↔ (a ≡ b) }
{
    match (a, b) {
        (MergeFault::Malformed(a), MergeFault::Malformed(b)) => same_delta_fault(a, b),
        (MergeFault::NoMemory { joined: a }, MergeFault::NoMemory { joined: b }) => a == b,
        _ => false,
    }
}

fn same_delta_fault(a: DeltaFault, b: DeltaFault) -> bool
    ensures { IsTrue result ↔ (a ≡ b) }
{
    a == b
}

// ---- their parts

fn same_stamp(a: &Stamp, b: &Stamp) -> bool
    ensures { IsTrue result ↔ (a.now ≡ b.now) }
{
    a == b
}

fn same_optional_stamp(a: &Option<Stamp>, b: &Option<Stamp>) -> bool
    ensures { IsTrue result ↔ (a.now ≡ b.now) }
{
    match (a, b) {
        (Some(a), Some(b)) => same_stamp(a, b),
        (None, None) => true,
        _ => false,
    }
}

#[tactic(auto, using(crate::proofs::Equality::same_moments))]
fn same_moment(a: &Moment, b: &Moment) -> bool
    ensures { IsTrue result ↔ (a.now ≡ b.now) }
{
    a == b
}

fn same_address(a: &Addr, b: &Addr) -> bool
    ensures { IsTrue result ↔ (a.now ≡ b.now) }
{
    a == b
}

fn same_version(a: Version, b: Version) -> bool
    ensures { IsTrue result ↔ (a ≡ b) }
{
    a == b
}

#[tactic(auto, using(crate::proofs::Equality::same_bindings))]
fn same_binding(a: &Binding, b: &Binding) -> bool
    ensures { IsTrue result ↔ (a.now ≡ b.now) }
{
    a == b
}

#[tactic(auto, using(crate::proofs::Equality::same_paths))]
fn same_path(a: &Path, b: &Path) -> bool
    ensures { IsTrue result ↔ (a.now ≡ b.now) }
{
    a == b
}

fn same_optional_path(a: &Option<Path>, b: &Option<Path>) -> bool
    ensures { IsTrue result ↔ (a.now ≡ b.now) }
{
    match (a, b) {
        (Some(a), Some(b)) => same_path(a, b),
        (None, None) => true,
        _ => false,
    }
}

fn same_number(a: &Option<u32>, b: &Option<u32>) -> bool
    ensures { IsTrue result ↔ (a.now ≡ b.now) }
{
    a == b
}

fn same_format(a: &Option<u16>, b: &Option<u16>) -> bool
    ensures { IsTrue result ↔ (a.now ≡ b.now) }
{
    a == b
}

fn same_objects(a: &LinkText, b: &LinkText) -> bool
    ensures { IsTrue result ↔ (a.now ≡ b.now) }
{
    a.as_str() == b.as_str()
}

fn same_attributes(a: &Attributes, b: &Attributes) -> bool
    ensures { IsTrue result ↔ (a.now ≡ b.now) }
{
    a.same(b)
}

fn same_text(a: &Text, b: &Text) -> bool
    ensures { IsTrue result ↔ (a.now ≡ b.now) }
{
    a == b
}

fn same_optional_text(a: &Option<Text>, b: &Option<Text>) -> bool
    ensures { IsTrue result ↔ (a.now ≡ b.now) }
{
    a == b
}

fn same_bytes(a: &[u8], b: &[u8]) -> bool
    ensures { IsTrue result ↔ (a.now ≡ b.now) }
{
    a == b
}

fn same_optional_bytes(a: &Option<Vec<u8>>, b: &Option<Vec<u8>>) -> bool
    ensures { IsTrue result ↔ (option_map (λ bytes. bytes.items) a.now ≡ option_map (λ bytes. bytes.items) b.now) }
{
    match (a, b) {
        (Some(a), Some(b)) => same_bytes(a.as_slice(), b.as_slice()),
        (None, None) => true,
        _ => false,
    }
}
