//! Questions, and their answers.

ghost use Rattle.std.specs.Prelude.{◌≡◌, IfOk, IsSome, OnErr, option_map};
ghost use Rattle.lw_stamp.specs.Moment.{ms_of};
ghost use Rattle.lw_node.specs.Node.{Known, IsKnown, marks_in};
ghost use Rattle.lw_node.specs.Steps.{Asks};

use crate::node::Node;
use lw_call::{Answer, Question};
use lw_reg::{Seen, Text, View, Watch};
use lw_stamp::{Moment, NoMemory, Stamp};
use std::alloc::Global;

impl Node {
    /// The answer to a question at this moment, as a copy. It takes no memory where nothing is found, nor does the
    /// change number.
    pub fn ask(&self, now: Moment, question: &Question) -> Result<Answer, NoMemory>
        ensures { (known : Known) → IsKnown self.now.table.state known
            → Asks self.now (marks_in self.now.table.state known) (ms_of now) question.now result }
    {
        let alloc = self.alloc;
        match question {
            Question::ById(id) => registration(alloc, self.by_id(now, *id)),
            Question::ByEndpoint(endpoint) => registration(
                alloc,
                self.by_endpoint(now, endpoint.as_str()),
            ),
            Question::ByAddress(address) => registration(alloc, self.by_address(now, *address)),
            Question::ByToken(token) => watched(alloc, self.by_token(now, *token)),
            Question::WatchAfter { id, after } => {
                watched(alloc, self.watch_after(now, *id, after.as_ref()))
            }
            Question::FirstAfter(after) => {
                registration(
                    alloc,
                    self.first_after(now, after.as_ref().map(Text::as_str)),
                )
            }
            Question::ExpiredAfter(after) => {
                expired(
                    alloc,
                    self.expired_after(now, after.as_ref().map(Text::as_str)),
                )
            }
            Question::Change => Ok(Answer::Changed(self.change())),
        }
    }
}

fn seen(alloc: Global, view: Option<View<'_>>) -> Result<Option<Seen>, NoMemory>
    ensures value { IfOk result (λ seen. seen ≡ view.entry) }
    ensures found { OnErr result (IsSome view.entry) }
{
    match view {
        None => Ok(None),
        Some(view) => Ok(Some(view.to_seen(alloc)?)),
    }
}

fn registration(alloc: Global, view: Option<View<'_>>) -> Result<Answer, NoMemory>
    ensures value { IfOk result (λ a. a ≡ Answer.Registration view.entry) }
    ensures found { OnErr result (IsSome view.entry) }
{
    Ok(Answer::Registration(seen(alloc, view)?))
}

fn watched(alloc: Global, found: Option<(View<'_>, Watch)>) -> Result<Answer, NoMemory>
    ensures value { IfOk result (λ a. a ≡ Answer.Watched found.entry) }
    ensures found { OnErr result (IsSome found.entry) }
{
    match found {
        None => Ok(Answer::Watched(None)),
        Some((view, watch)) => Ok(Answer::Watched(Some((view.to_seen(alloc)?, watch)))),
    }
}

fn expired(alloc: Global, found: Option<(&str, Stamp)>) -> Result<Answer, NoMemory>
    ensures value { IfOk result (λ a. a ≡ Answer.Expired (option_map (λ x. (x.0.now, x.1)) found.entry)) }
    ensures found { OnErr result (IsSome found.entry) }
{
    match found {
        None => Ok(Answer::Expired(None)),
        Some((endpoint, id)) => Ok(Answer::Expired(Some((Text::copy_of(alloc, endpoint)?, id)))),
    }
}
