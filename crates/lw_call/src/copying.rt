//! Copies of calls, and of what they give.

ghost use Rattle.std.specs.Prelude.{◌≡◌, IfOk, IsOk, IsSome, None, OnErr, option_map};
ghost use Rattle.lw_call.specs.Found.{IsFound};
ghost use Rattle.lw_call.specs.Owned.{OwnsText, OwnsTextOrBytes};

use crate::answer::Answer;
use crate::call::Call;
use crate::notice::Notice;
use crate::outgoing::Outgoing;
use crate::question::Question;
use crate::sent::Sent;
use crate::taken::Taken;
use lw_reg::{Seen, Text};
use lw_stamp::NoMemory;
use std::alloc::Global;

impl Call {
    /// A call of equal content. It takes no memory where there are neither bytes nor a text. Its bytes are those of
    /// this one, not copied; that is a matter of cost, and in no contract.
    pub fn copy(&self, alloc: Global) -> Result<Call, NoMemory>
        ensures value { IfOk result (λ call. call ≡ self.now) }
        ensures calm { OnErr result (OwnsTextOrBytes self.now) }
    {
        match self {
            Call::Take { now, from, bytes } => Ok(Call::Take {
                now: *now,
                from: *from,
                bytes: bytes.clone()?,
            }),
            Call::Observe {
                now,
                id,
                path,
                accept,
                mid,
            } => Ok(Call::Observe {
                now: *now,
                id: *id,
                path: *path,
                accept: *accept,
                mid: *mid,
            }),
            Call::Cancel { now, token, mid } => Ok(Call::Cancel {
                now: *now,
                token: *token,
                mid: *mid,
            }),
            Call::Send { since } => Ok(Call::Send { since: *since }),
            Call::Merge { bytes } => Ok(Call::Merge {
                bytes: bytes.clone()?,
            }),
            Call::Ask { now, question } => Ok(Call::Ask {
                now: *now,
                question: question.copy(alloc)?,
            }),
            Call::Sweep { now } => Ok(Call::Sweep { now: *now }),
        }
    }
}

impl Question {
    /// A question of equal content. It takes no memory where there is no text.
    pub fn copy(&self, alloc: Global) -> Result<Question, NoMemory>
        ensures value { IfOk result (λ question. question ≡ self.now) }
        ensures calm { OnErr result (OwnsText self.now) }
    {
        match self {
            Question::ById(id) => Ok(Question::ById(*id)),
            Question::ByEndpoint(endpoint) => {
                Ok(Question::ByEndpoint(Text::copy_of(alloc, endpoint.as_str())?))
            }
            Question::ByAddress(address) => Ok(Question::ByAddress(*address)),
            Question::ByToken(token) => Ok(Question::ByToken(*token)),
            Question::WatchAfter { id, after } => Ok(Question::WatchAfter {
                id: *id,
                after: *after,
            }),
            Question::FirstAfter(after) => Ok(Question::FirstAfter(text(alloc, after)?)),
            Question::ExpiredAfter(after) => Ok(Question::ExpiredAfter(text(alloc, after)?)),
            Question::Change => Ok(Question::Change),
        }
    }
}

impl Taken {
    /// A copy. It takes no memory where neither a reply nor a notice is given.
    pub fn copy(&self, alloc: Global) -> Result<Taken, NoMemory>
        ensures value { IfOk result (λ taken. taken ≡ self.now) }
        ensures calm { self.now ≡ record { reply = None; notice = None } → IsOk result }
    {
        Ok(Taken {
            reply: reply(alloc, &self.reply)?,
            notice: notice(alloc, &self.notice)?,
        })
    }
}

impl Notice {
    /// A copy of equal content.
    pub fn copy(&self, alloc: Global) -> Result<Notice, NoMemory>
        ensures { IfOk result (λ notice. notice ≡ self.now) }
    {
        Ok(Notice {
            token: self.token,
            id: self.id,
            endpoint: Text::copy_of(alloc, self.endpoint.as_str())?,
            path: self.path,
            code: self.code,
            observe: self.observe,
            format: self.format,
            ended: self.ended,
            payload: self.payload.as_slice().to_vec(alloc)?,
        })
    }
}

impl Outgoing {
    /// A copy of equal content.
    pub fn copy(&self, alloc: Global) -> Result<Outgoing, NoMemory>
        ensures { IfOk result (λ outgoing. outgoing ≡ self.now) }
    {
        Ok(Outgoing {
            to: self.to,
            token: self.token,
            bytes: self.bytes.as_slice().to_vec(alloc)?,
        })
    }
}

impl Sent {
    /// A copy of equal content. Its bytes are those of this one, not copied; that is a matter of cost, and in no
    /// contract.
    pub fn copy(&self) -> Result<Sent, NoMemory>
        ensures { IfOk result (λ sent. sent ≡ self.now) }
    {
        Ok(Sent {
            delta: self.delta.clone()?,
            change: self.change,
        })
    }
}

impl Answer {
    /// A copy. It takes no memory where nothing was found, nor does the change number.
    pub fn copy(&self, alloc: Global) -> Result<Answer, NoMemory>
        ensures value { IfOk result (λ answer. answer ≡ self.now) }
        ensures found { OnErr result (IsFound self.now) }
    {
        match self {
            Answer::Registration(None) => Ok(Answer::Registration(None)),
            Answer::Registration(Some(found)) => Ok(Answer::Registration(Some(seen(
                alloc, found,
            )?))),
            Answer::Watched(None) => Ok(Answer::Watched(None)),
            Answer::Watched(Some((found, watch))) => {
                Ok(Answer::Watched(Some((seen(alloc, found)?, *watch))))
            }
            Answer::Expired(None) => Ok(Answer::Expired(None)),
            Answer::Expired(Some((endpoint, id))) => {
                let endpoint = Text::copy_of(alloc, endpoint.as_str())?;
                Ok(Answer::Expired(Some((endpoint, *id))))
            }
            Answer::Changed(number) => Ok(Answer::Changed(*number)),
        }
    }
}

fn seen(alloc: Global, seen: &Seen) -> Result<Seen, NoMemory>
    ensures { IfOk result (λ copy. copy ≡ seen.now) }
{
    seen.as_view().to_seen(alloc)
}

fn text(alloc: Global, text: &Option<Text>) -> Result<Option<Text>, NoMemory>
    ensures value { IfOk result (λ copy. copy ≡ text.now) }
    ensures calm { OnErr result (IsSome text.now) }
{
    match text {
        None => Ok(None),
        Some(text) => Ok(Some(Text::copy_of(alloc, text.as_str())?)),
    }
}

fn reply(alloc: Global, reply: &Option<Vec<u8>>) -> Result<Option<Vec<u8>>, NoMemory>
    ensures value { IfOk result (λ copy.
        option_map (λ bytes. bytes.items) copy ≡ option_map (λ bytes. bytes.items) reply.now) }
    ensures calm { reply.now ≡ None → IsOk result }
{
    match reply {
        None => Ok(None),
        Some(bytes) => Ok(Some(bytes.as_slice().to_vec(alloc)?)),
    }
}

fn notice(alloc: Global, notice: &Option<Notice>) -> Result<Option<Notice>, NoMemory>
    ensures value { IfOk result (λ copy. copy ≡ notice.now) }
    ensures calm { notice.now ≡ None → IsOk result }
{
    match notice {
        None => Ok(None),
        Some(notice) => Ok(Some(notice.copy(alloc)?)),
    }
}
