//! The two ends of a link.

ghost use Rattle.std.specs.Prelude.{◌≡◌, ◌⊎◌, ℕ, true, List, ◌<◌, ◌≤◌, ◌+◌, ◌^◌, [], ◌++◌, length, IfOk, IfErr, IfSome, IfNone};
ghost use Rattle.crossbeam_queue.specs.Passes.{view as knows, IsPassOf, ruled_capacity};
ghost use Rattle.mail_link.specs.Ends.{posted, refused, received, missed, OfOneLink, FoundFull, Delivered};

use crate::rule::{Drains, Line, Puts, Roles, Takes, Token};
use km_base::{Count, Memory};
use std::alloc::Global;
use std::marker::Model;
use std::sync::{Arc, Wait};

/// The item that was not sent, handed back.
#[derive(Drop)]
pub struct Full<T>(pub T);

// The most items that one link sends, since the stamps of its queue end there.
const MOST_SENT: u64 = 1 << 62;

/// The end of a link that sends. Contracts see it as a `SendEnd`: the link, its capacity, the items sent, and how many were refused.
#[derive(Drop)]
pub struct Sender<T> {
    queue: Arc<Line<T>, Global>,
    pass: Token<T>,
    posts: u64,
    refusals: Count,
}

impl<T> Model for Sender<T> {
    ghost use Rattle.std.specs.Prelude.{◌≡◌, true, length};
    ghost use Rattle.std.specs.Arc.{arc_value};
    ghost use Rattle.crossbeam_queue.specs.Passes.{view as knows, IsPassOf, ruled_capacity};
    ghost use Rattle.mail_link.specs.Ends.{SendEnd, send_end, send_end_code};

    ghost Value = { SendEnd T };

    ghost coded = { send_end_code T.code };

    ghost view = { λ s. send_end s.pass.table_id (ruled_capacity (arc_value s.queue)) (knows s.pass).sent s.refusals };

    ghost invariant = { λ s. IsPassOf (arc_value s.queue) s.pass × ((knows s.pass).sends ≡ true) × (s.posts ≡ length (knows s.pass).sent) };
}

/// The end of a link that takes. Contracts see it as a `TakeEnd`: the link, its capacity, the items taken, and how many takes found nothing.
#[derive(Drop)]
pub struct Receiver<T> {
    queue: Arc<Line<T>, Global>,
    pass: Token<T>,
    empties: Count,
}

impl<T> Model for Receiver<T> {
    ghost use Rattle.std.specs.Prelude.{◌≡◌, true};
    ghost use Rattle.std.specs.Arc.{arc_value};
    ghost use Rattle.crossbeam_queue.specs.Passes.{view as knows, IsPassOf, ruled_capacity};
    ghost use Rattle.mail_link.specs.Ends.{TakeEnd, take_end, take_end_code};

    ghost Value = { TakeEnd T };

    ghost coded = { take_end_code T.code };

    ghost view = { λ s. take_end s.pass.table_id (ruled_capacity (arc_value s.queue)) (knows s.pass).taken s.empties };

    ghost invariant = { λ s. IsPassOf (arc_value s.queue) s.pass × ((knows s.pass).takes ≡ true) };
}

/// A link with room for `capacity` items, on which nothing was sent.
pub fn link<T: Send + Drop>(
    alloc: Global,
    capacity: usize,
) -> Result<(Sender<T>, Receiver<T>), Memory>
    requires { 0 < capacity }
    ensures pair { IfOk result (λ ends. OfOneLink ends.0 ends.1) }
    ensures room { IfOk result (λ ends. (ends.0.capacity ≡ capacity) × (ends.1.capacity ≡ capacity)) }
    ensures sender { IfOk result (λ ends. (ends.0.sent ≡ []) × (ends.0.refusals ≡ 0)) }
    ensures receiver { IfOk result (λ ends. (ends.1.taken ≡ []) × (ends.1.empties ≡ 0)) }
{
    let (queue, mut pass) = Line::ruled(alloc, capacity)?;
    let theirs = queue.another::<Roles>(&mut pass);
    let Ok(queue) = Arc::new(alloc, queue) else {
        return Err(Memory);
    };
    let shared = Arc::try_clone(&queue)?;
    let sender = Sender {
        queue,
        pass,
        posts: 0,
        refusals: Count::new(),
    };
    let receiver = Receiver {
        queue: shared,
        pass: theirs,
        empties: Count::new(),
    };
    Ok((sender, receiver))
}

impl<T: Send> Sender<T> {
    /// Sends the item. It comes back only where the queue held its capacity at a step of this call, or where 2^62 items were sent on this link.
    pub fn post<R: Wait>(&mut self, rt: &R, item: T) -> Result<(), Full<T>>
        ensures sent { IfOk result (λ _. self.new ≡ posted self.old item) }
        ensures back { IfErr result (λ full. full.0 ≡ item) }
        ensures kept { IfErr result (λ _. self.new ≡ refused self.old) }
        ensures full { IfErr result (λ _. FoundFull self.old ⊎ (2 ^ 62 ≤ length self.old.sent)) }
    {
        if self.posts >= MOST_SENT {
            return Err(self.refuse(item));
        }
        match self.queue.push_as::<Puts, R>(rt, &mut self.pass, item) {
            Ok(()) => {
                self.posts += 1;
                Ok(())
            }
            Err(back) => Err(self.refuse(back)),
        }
    }

    // Counts a refusal, and hands the item back.
    fn refuse(&mut self, item: T) -> Full<T>
        ensures back { result.0 ≡ item }
        ensures kept { self.new ≡ refused self.old }
    {
        self.refusals.rise();
        Full(item)
    }
}

impl<T: Send> Receiver<T> {
    /// Takes the first item that waits. Each `None` is counted; by the code, and by no clause, it comes only where the queue
    /// held nothing at a step of this call: of an end by itself no list can tell it.
    pub fn take<R: Wait>(&mut self, rt: &R) -> Option<T>
        ensures taken { IfSome result (λ item. self.new ≡ received self.old item) }
        ensures kept { IfNone result (self.new ≡ missed self.old) }
    {
        let item = self.queue.pop_as::<Takes, R>(rt, &mut self.pass);
        if item.is_none() {
            self.empties.rise();
        }
        item
    }
}

/// Takes out and drops what waits, until the queue is empty, and answers how many items those were.
pub fn settle<T: Send + Drop, R: Wait>(rt: &R, sender: Sender<T>, receiver: Receiver<T>) -> usize
    requires { OfOneLink sender receiver }
    ensures delivered { Delivered sender.sent receiver.taken result }
    ensures room { result ≤ sender.capacity }
{
    let Sender {
        queue,
        mut pass,
        ..
    } = sender;
    let Receiver { pass: theirs, .. } = receiver;
    queue.absorb::<Roles>(&mut pass, theirs);
    drained(rt, &queue, &mut pass)
}

// Takes until the queue is empty, and answers how many items came.
fn drained<T: Send + Drop, R: Wait>(rt: &R, queue: &Line<T>, pass: &mut Token<T>) -> usize
    requires queue { IsPassOf queue.now pass.old }
    requires roles { ((knows pass.old).sends ≡ true) × ((knows pass.old).takes ≡ true) }
    ensures delivered { Delivered (knows pass.old).sent (knows pass.old).taken result }
    ensures room { result ≤ ruled_capacity queue.now }
{
    let most = queue.len_as::<Drains, R>(rt, pass);
    let mut count = 0;
    for _ in rt.forever() {
        match queue.pop_as::<Drains, R>(rt, pass) {
            Some(_item) => {
                prove!(count < most);
                count += 1;
            }
            None => return count,
        }
    }
    unreachable!()
}

// The lists and the counts that contracts see take no bytes.
const _: () = prove!(std::mem::size_of::<Sender<u64>>() == 16);

const _: () = prove!(std::mem::size_of::<Receiver<u64>>() == 8);
