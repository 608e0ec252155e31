//! The events of a run: endpoints register at four nodes, are updated and looked up, and the nodes tell one another
//! what has changed.

use crate::fault::BenchFault;
use crate::messages::{put_register, put_update};
use crate::names::{Order, name_of};
use crate::nodes::source_at;
use lw_stamp::{Moment, Stamp};
use lw_world::{Action, Bytes, Event, Question};
use std::alloc::{AllocError, Global};

/// The nodes of a run, which are numbered from 1.
pub(crate) const NODES: u16 = 4;

/// How many operations the nodes make in turn before they exchange what has changed.
const TURN: u32 = 100;

/// How often a message of an exchange is delivered: once at each other node.
const RECEIVERS: u16 = NODES - 1;

/// When endpoints are updated, in milliseconds; they register at 0.
const UPDATED: u64 = 1000;

/// What is done with an endpoint.
#[derive(Clone, Copy)]
enum Doing {
    Register,
    /// At the next node.
    Update,
    /// At the node behind that.
    LookUp,
}

/// The events so far, and what the nodes have exchanged in them.
#[derive(Drop)]
struct Story {
    /// In which order the endpoints come.
    order: Order,
    events: Vec<Event>,
    /// How many messages were sent.
    messages: usize,
    /// The operations that every node knows: as many changes each has counted.
    known: u64,
    /// What each node had counted, at the least, when it sent last.
    sent: u64,
}

/// So many endpoints register, then each is updated, and then each is looked up. After each turn of the first two, and
/// after the last, every node sends what has changed since it sent last, and every message is delivered at each other node.
pub(crate) fn events(alloc: Global, order: Order, count: u32) -> Result<Vec<Event>, BenchFault> {
    let mut story = Story {
        order,
        events: Vec::new(alloc),
        messages: 0,
        known: 0,
        sent: 0,
    };
    story.tell(alloc, count)?;
    Ok(story.events)
}

/// The moment at which endpoints are updated, and looked up.
pub(crate) fn updated() -> Result<Moment, BenchFault> {
    Moment::new(UPDATED).ok_or(BenchFault::Unexpected)
}

/// The name of the endpoint of this place.
pub(crate) fn endpoint_at(alloc: Global, order: Order, place: u32) -> Result<String, AllocError> {
    name_of(alloc, order.number_at(place))
}

/// The identifier of the registration of this place: nodes register in turn, and each counts its own.
pub(crate) fn id_at(place: u32) -> Stamp {
    Stamp {
        counter: u64::from(place / u32::from(NODES)) + 1,
        node: node_at(place),
    }
}

/// The node at which the endpoint of this place registers.
fn node_at(place: u32) -> u16 {
    (place % u32::from(NODES)) as u16 + 1
}

impl Story {
    /// So many endpoints, from the first Register to the last look-up.
    fn tell(&mut self, alloc: Global, count: u32) -> Result<(), BenchFault> {
        self.take_turns(alloc, Doing::Register, count)?;
        self.take_turns(alloc, Doing::Update, count)?;
        self.put_all(alloc, Doing::LookUp, 0, count)
    }

    /// All endpoints, with an exchange after each turn.
    fn take_turns(&mut self, alloc: Global, doing: Doing, count: u32) -> Result<(), BenchFault> {
        let mut first = 0;
        for _turn in 0..count.div_ceil(TURN) {
            let end = first + TURN.min(count - first);
            self.put_all(alloc, doing, first, end)?;
            self.exchange(end - first)?;
            first = end;
        }
        Ok(())
    }

    /// The endpoints from one place up to another.
    fn put_all(
        &mut self,
        alloc: Global,
        doing: Doing,
        first: u32,
        end: u32,
    ) -> Result<(), BenchFault> {
        for place in first..end {
            self.push(doing.node(place), doing.action(alloc, self.order, place)?)?;
        }
        Ok(())
    }

    fn push(&mut self, node: u16, action: Action) -> Result<(), BenchFault> {
        Ok(self.events.push(Event { node, action })?)
    }

    /// What follows on so many operations.
    fn exchange(&mut self, made: u32) -> Result<(), BenchFault> {
        self.send_all()?;
        self.deliver_all()?;
        self.messages = self.messages.saturating_add(usize::from(NODES));
        self.sent = self
            .known
            .saturating_add(u64::from(made / u32::from(NODES)));
        self.known = self.known.saturating_add(u64::from(made));
        Ok(())
    }

    fn send_all(&mut self) -> Result<(), BenchFault> {
        for place in 0..NODES {
            self.push(place + 1, Action::Send { since: self.sent })?;
        }
        Ok(())
    }

    fn deliver_all(&mut self) -> Result<(), BenchFault> {
        for place in 0..NODES * RECEIVERS {
            let sender = place / RECEIVERS;
            let node = (sender + 1 + place % RECEIVERS) % NODES + 1;
            let message = self.messages.saturating_add(usize::from(sender));
            self.push(node, Action::Deliver { message })?;
        }
        Ok(())
    }
}

impl Doing {
    fn node(self, place: u32) -> u16 {
        match self {
            Doing::Register => node_at(place),
            Doing::Update => node_at(place.wrapping_add(1)),
            Doing::LookUp => node_at(place.wrapping_add(2)),
        }
    }

    fn action(self, alloc: Global, order: Order, place: u32) -> Result<Action, BenchFault> {
        match self {
            Doing::Register | Doing::Update => self.take(alloc, order, place),
            Doing::LookUp => look_up(id_at(place)),
        }
    }

    fn take(self, alloc: Global, order: Order, place: u32) -> Result<Action, BenchFault> {
        let mut bytes = Vec::new(alloc);
        let now = self.put(alloc, order, place, &mut bytes)?;
        Ok(Action::Take {
            now,
            from: source_at(place),
            bytes: Bytes::from_vec(bytes)?,
        })
    }

    /// Puts what is sent, and tells when.
    fn put(
        self,
        alloc: Global,
        order: Order,
        place: u32,
        bytes: &mut Vec<u8>,
    ) -> Result<Moment, BenchFault> {
        if let Doing::Update = self {
            put_update(bytes, id_at(place))?;
            return updated();
        }
        put_register(bytes, endpoint_at(alloc, order, place)?.as_str(), &[], 0)?;
        Ok(Moment::START)
    }
}

fn look_up(id: Stamp) -> Result<Action, BenchFault> {
    Ok(Action::Ask {
        now: updated()?,
        question: Question::ById(id),
    })
}
