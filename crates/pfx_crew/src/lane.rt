//! A lane: items that threads hand one another, and an end that closes it.
//!
//! It is a bounded channel under the rule that what was put in is what was taken out and what is inside. A thread's berth
//! owns its ends of the channel, so that it may lie under a lock or go to another thread.
//!
//! Why it is so:
//! - **Of the channel crate these calls are used: `bounded_with`, `try_clone`, `another`, `send_as`, `recv_as` and `try_recv_as`**, those
//!   of a bounded channel under a rule, which say what they did: a message is in or out by one step that keeps the rule. `try_send` and
//!   `try_recv` of plain channels aren't used, since one that overlaps another call can answer Full or Empty wrongly; nor is `select!`,
//!   which can hang at capacity 0; nor is disconnection, since each seat has both ends. Nothing depends on an Empty of `try_recv_as`: it
//!   is followed by another look, and in the end by `recv_as`.
//! - **A seat looks for a message for 32 turns, each of which yields, and then sleeps.** Waking a thread costs more than dealing and
//!   gathering a quantum, so if messages follow one another nobody should sleep; if none comes, a thread that waits soon takes no
//!   processor.
//! - **A lane is closed by an end that whoever takes it puts in again**, so one end wakes all that wait, one after the other, and none of
//!   them has to poll. In what a seat put in and took out, ends don't count as items, and a lane's contract counts them separately:
//!   nothing is given only if an end was taken, and then one was put in.
ghost use Rattle.std.specs.Prelude.{◌≡◌, [], ◌∷◌, ◌++◌, ◌+◌, ◌<◌, IfOk, IfSome, IfNone, MatchResult};
ghost use Rattle.crossbeam_channel.specs.Claims.{view as ticket_view, IsSeatAt};
ghost use Rattle.crossbeam_channel.specs.Ends.{sends_on, receives_on};
ghost use Rattle.pfx_crew.specs.Lane.{Hands, items_of, ends_of};

use crate::balance::{Fair, Fresh, Hand, Puts, TakesOut};
use crossbeam_channel::{Pass, RuledReceiver, RuledSender, SendError, bounded_with};
use std::alloc::{AllocError, Global};
use std::marker::Model;
use std::sync::{Mutex, Wait};
use std::thread;

/// For how many turns a thread looks for a message, and yields, before it sleeps.
const TURNS: u32 = 32;

/// What a lane carries.
#[derive(Drop)]
pub enum Message<T> {
    /// An item.
    Item(T),
    /// The end. Whoever takes it puts it in again, so that all the others find it too.
    End,
}

/// What a thread put in and took out, as the channel's rule knows it.
pub type Ticket<T> = Pass<Message<T>, Hand<Message<T>>>;

/// A thread's place at a lane. Contracts see it as the items that it put in and took out, and how many
/// ends.
#[derive(Drop)]
pub struct Berth<T: Drop> {
    sender: RuledSender<Message<T>, Hand<Message<T>>, Fair>,
    receiver: RuledReceiver<Message<T>, Hand<Message<T>>, Fair>,
    ticket: Ticket<T>,
}

impl<T: Drop> Model for Berth<T> {
    ghost Value = { Hands T };

    ghost view = { λ b. record {
      put = items_of (ticket_view b.ticket).put;
      taken = items_of (ticket_view b.ticket).taken;
      ends_put = ends_of (ticket_view b.ticket).put;
      ends_taken = ends_of (ticket_view b.ticket).taken;
    } };

    ghost invariant = { λ b. (receives_on b.receiver ≡ sends_on b.sender) × IsSeatAt (sends_on b.sender) b.ticket };
}

impl<T: Drop> Berth<T> {
    /// The first place at a lane of its own, which has room for so many messages. `AllocError` if an allocation fails.
    pub fn new(alloc: Global, room: usize) -> Result<Berth<T>, AllocError>
        requires { 0 < room }
        ensures { IfOk result (λ b. (b.put ≡ []) × (b.taken ≡ [])) }
    {
        let (sender, receiver, ticket) = bounded_with(alloc, room)?;
        Ok(Berth {
            sender,
            receiver,
            ticket,
        })
    }

    /// One more place at the same lane. `AllocError` if an allocation fails.
    pub fn another(&mut self) -> Result<Berth<T>, AllocError>
        ensures same { self.new ≡ self.old }
        ensures fresh { IfOk result (λ b. (b.put ≡ []) × (b.taken ≡ [])) }
    {
        let sender = self.sender.try_clone()?;
        let receiver = self.receiver.try_clone()?;
        let ticket = self.sender.another::<Fresh>(&mut self.ticket);
        Ok(Berth {
            sender,
            receiver,
            ticket,
        })
    }

    #[tactic(auto, using(crate::proofs::Items::items_more, crate::proofs::Items::ends_more))]
    /// Waits for room and puts an item in. Where it can't it gives the item back.
    pub fn put<R: Wait>(&mut self, rt: &R, item: T) -> Result<(), T>
        ensures put { MatchResult result (λ _. self.new.put ≡ self.old.put ++ item ∷ []) (λ e. (e ≡ item) × (self.new.put ≡ self.old.put)) }
        ensures taken { self.new.taken ≡ self.old.taken }
        ensures ends { (self.new.ends_put ≡ self.old.ends_put) × (self.new.ends_taken ≡ self.old.ends_taken) }
    {
        match self
            .sender
            .send_as::<Puts, R>(rt, &mut self.ticket, Message::Item(item))
        {
            Ok(()) => Ok(()),
            Err(SendError::Disconnected(Message::Item(item))) => Err(item),
            Err(SendError::OutOfMemory(Message::Item(item))) => Err(item),
            Err(SendError::Disconnected(Message::End)) => unreachable!(),
            Err(SendError::OutOfMemory(Message::End)) => unreachable!(),
        }
    }

    #[tactic(auto, using(crate::proofs::Items::items_end, crate::proofs::Items::ends_more))]
    /// Waits for room and puts the end in: whoever takes from now on finds what was put in before, and then the end.
    pub fn end<R: Wait>(&mut self, rt: &R)
        ensures same { (self.new.put ≡ self.old.put) × (self.new.taken ≡ self.old.taken) }
        ensures ends { (self.new.ends_put ≡ self.old.ends_put + 1) × (self.new.ends_taken ≡ self.old.ends_taken) }
    {
        match self
            .sender
            .send_as::<Puts, R>(rt, &mut self.ticket, Message::End)
        {
            Ok(()) => {}
            Err(_) => {
                // It has a receiver of its own, so its sender is never left without one.
                for _ in rt.forever() {}
                unreachable!()
            }
        }
    }

    #[tactic(auto, using(crate::proofs::Items::items_more, crate::proofs::Items::ends_more))]
    /// Takes a message out if there is one now.
    fn look<R: Wait>(&mut self, rt: &R) -> Option<Message<T>>
        ensures some { IfSome result (λ m. (self.new.taken ≡ self.old.taken ++ items_of (m ∷ []))
            × (self.new.ends_taken ≡ self.old.ends_taken + ends_of (m ∷ []))) }
        ensures none { IfNone result ((self.new.taken ≡ self.old.taken) × (self.new.ends_taken ≡ self.old.ends_taken)) }
        ensures put { (self.new.put ≡ self.old.put) × (self.new.ends_put ≡ self.old.ends_put) }
    {
        match self
            .receiver
            .try_recv_as::<TakesOut, R>(rt, &mut self.ticket)
        {
            Ok(message) => Some(message),
            Err(_) => None,
        }
    }

    /// Takes a message out if one comes within some turns, in each of which it yields to other threads.
    fn linger<R: Wait>(&mut self, rt: &R) -> Option<Message<T>>
        ensures some { IfSome result (λ m. (self.new.taken ≡ self.old.taken ++ items_of (m ∷ []))
            × (self.new.ends_taken ≡ self.old.ends_taken + ends_of (m ∷ []))) }
        ensures none { IfNone result ((self.new.taken ≡ self.old.taken) × (self.new.ends_taken ≡ self.old.ends_taken)) }
        ensures put { (self.new.put ≡ self.old.put) × (self.new.ends_put ≡ self.old.ends_put) }
    {
        for _turn in 0..TURNS {
            let message = self.look(rt);
            if message.is_some() {
                return message;
            }
            thread::yield_now();
        }
        None
    }

    #[tactic(auto, using(crate::proofs::Items::items_more, crate::proofs::Items::ends_more))]
    /// Waits for a message, asleep after some turns, and takes it out.
    fn receive<R: Wait>(&mut self, rt: &R) -> Message<T>
        ensures taken { (self.new.taken ≡ self.old.taken ++ items_of (result ∷ []))
            × (self.new.ends_taken ≡ self.old.ends_taken + ends_of (result ∷ [])) }
        ensures put { (self.new.put ≡ self.old.put) × (self.new.ends_put ≡ self.old.ends_put) }
    {
        if let Some(message) = self.linger(rt) {
            return message;
        }
        match self.receiver.recv_as::<TakesOut, R>(rt, &mut self.ticket) {
            Ok(message) => message,
            Err(_) => {
                // It has a sender of its own, so its receiver is never left without one.
                for _ in rt.forever() {}
                unreachable!()
            }
        }
    }

    /// Waits for an item and takes it out: some turns awake, then asleep. `None` only at an end, which it puts in again.
    pub fn take<R: Wait>(&mut self, rt: &R) -> Option<T>
        ensures some { IfSome result (λ x. (self.new.taken ≡ self.old.taken ++ x ∷ []) × (self.new.ends_taken ≡ self.old.ends_taken)
            × (self.new.ends_put ≡ self.old.ends_put)) }
        ensures none { IfNone result ((self.new.taken ≡ self.old.taken) × (self.new.ends_taken ≡ self.old.ends_taken + 1)
            × (self.new.ends_put ≡ self.old.ends_put + 1)) }
        ensures put { self.new.put ≡ self.old.put }
    {
        match self.receive(rt) {
            Message::Item(item) => Some(item),
            Message::End => {
                self.end(rt);
                None
            }
        }
    }
}

/// What threads share of a lane: it makes a place for any of them.
#[derive(Drop)]
pub struct Quay<T: Drop> {
    first: Mutex<Berth<T>>,
}

impl<T: Drop> Quay<T> {
    /// A lane of its own, with room for so many messages. `AllocError` if an allocation fails.
    pub fn new(alloc: Global, room: usize) -> Result<Quay<T>, AllocError>
        requires { 0 < room }
    {
        Ok(Quay {
            first: Mutex::new(Berth::new(alloc, room)?),
        })
    }

    /// A place at the lane. `AllocError` if an allocation fails.
    pub fn berth<R: Wait>(&self, rt: &R) -> Result<Berth<T>, AllocError>
        ensures { IfOk result (λ b. (b.put ≡ []) × (b.taken ≡ [])) }
    {
        self.first.lock(rt).another()
    }
}
