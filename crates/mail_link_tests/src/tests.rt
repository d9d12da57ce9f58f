ghost use Rattle.std.specs.Prelude.{◌≡◌, ◌⊎◌, ◌+◌, [], ◌∷◌, ◌++◌, false, MatchOption};

use km_base::Memory;
use mail_link::{Full, Receiver, Sender, link, settle};
use std::alloc::{AllocError, Global};
use std::sync::{Arc, Wait};
use std::test::*;
use std::thread;
use std::thread::{Threads, join_mut};

// An item that carries a number.
trait Numbered: Send + Drop {
    fn number(&self) -> u32;
}

impl Numbered for u32 {
    fn number(&self) -> u32 {
        *self
    }
}

impl Numbered for Box<u32> {
    fn number(&self) -> u32 {
        **self
    }
}

// An item of several kinds, with what messages have in them.
#[derive(Drop)]
enum Parcel {
    Plain(u32),
    Boxed(Box<u32>),
    Listed(Vec<u32>),
    Shared(Arc<Vec<u32>, Global>),
}

impl Numbered for Parcel {
    fn number(&self) -> u32 {
        match self {
            Parcel::Plain(number) => *number,
            Parcel::Boxed(number) => **number,
            Parcel::Listed(numbers) => numbers.first().copied().unwrap_or(0),
            Parcel::Shared(numbers) => numbers.first().copied().unwrap_or(0),
        }
    }
}

// Posts the item, again after each refusal.
fn post_surely<T: Send + Drop, R: Wait>(rt: &R, sender: &mut Sender<T>, item: T)
    ensures link { sender.new.link ≡ sender.old.link }
    ensures sent { sender.new.sent ≡ sender.old.sent ++ item ∷ [] }
{
    let mut due = item;
    for _ in rt.forever() {
        match sender.post(rt, due) {
            Ok(()) => return,
            Err(Full(back)) => due = back,
        }
        thread::yield_now();
    }
    unreachable!()
}

// Takes an item, again after each empty take.
fn take_surely<T: Send + Drop, R: Wait>(rt: &R, receiver: &mut Receiver<T>) -> T
    ensures link { receiver.new.link ≡ receiver.old.link }
    ensures taken { receiver.new.taken ≡ receiver.old.taken ++ result ∷ [] }
{
    for _ in rt.forever() {
        if let Some(item) = receiver.take(rt) {
            return item;
        }
        thread::yield_now();
    }
    unreachable!()
}

// Sends its items, the last first.
#[derive(Drop)]
struct Feeder<T> {
    items: Vec<T>,
    sender: Sender<T>,
}

impl<T: Numbered> Feeder<T> {
    fn feed<R: Wait>(&mut self, rt: &R)
        ensures { self.new.sender.link ≡ self.old.sender.link }
    {
        for _ in rt.forever() {
            match self.items.pop() {
                Some(item) => post_surely(rt, &mut self.sender, item),
                None => return,
            }
        }
    }
}

// Takes items that are to carry the numbers 1, 2, .. up to the last.
#[derive(Drop)]
struct Fetcher<T> {
    receiver: Receiver<T>,
    last: u32,
    in_order: bool,
}

impl<T: Numbered> Fetcher<T> {
    fn fetch<R: Wait>(&mut self, rt: &R)
        ensures { self.new.receiver.link ≡ self.old.receiver.link }
    {
        for number in 1..=self.last {
            let item = take_surely(rt, &mut self.receiver);
            if item.number() != number {
                self.in_order = false;
            }
        }
    }
}

fn beside<T: Numbered, R: Threads + Wait + Sync>(
    rt: &R,
    feeder: &mut Feeder<T>,
    fetcher: &mut Fetcher<T>,
)
    ensures feeder { feeder.new.sender.link ≡ feeder.old.sender.link }
    ensures fetcher { fetcher.new.receiver.link ≡ fetcher.old.receiver.link }
{
    join_mut(rt, &mut || feeder.feed(rt), &mut || fetcher.fetch(rt));
}

// Sends the items from thread to thread, the last first: whether all came in order, and how many were left.
fn carried<T: Numbered, R: Threads + Wait + Sync>(
    rt: &R,
    alloc: Global,
    items: Vec<T>,
    last: u32,
) -> Result<(bool, usize), Memory> {
    let (sender, receiver) = link(alloc, 4)?;
    let mut feeder = Feeder { items, sender };
    let mut fetcher = Fetcher {
        receiver,
        last,
        in_order: true,
    };
    beside(rt, &mut feeder, &mut fetcher);
    let Feeder { sender, .. } = feeder;
    let Fetcher {
        receiver,
        in_order,
        ..
    } = fetcher;
    Ok((in_order, settle(rt, sender, receiver)))
}

fn make_parcel(alloc: Global, number: u32) -> Result<Parcel, AllocError> {
    Ok(match number % 4 {
        0 => Parcel::Plain(number),
        1 => Parcel::Boxed(Box::new(alloc, number)?),
        2 => Parcel::Listed(vec![in alloc; number]?),
        _ => Parcel::Shared(Arc::new(alloc, vec![in alloc; number]?)?),
    })
}

// Passes parcels on from one link to another, one at a time.
#[derive(Drop)]
struct Relay {
    source: Receiver<Parcel>,
    target: Sender<Parcel>,
    due: Option<Parcel>,
}

impl Relay {
    // Takes a parcel, or sends the one that is due. False where there was none to take, or no room to send.
    fn turn<R: Wait>(&mut self, rt: &R) -> bool
        ensures order { MatchOption self.old.due (self.old.target.sent ≡ self.old.source.taken) (λ item. self.old.target.sent ++ item ∷ [] ≡ self.old.source.taken)
            → MatchOption self.new.due (self.new.target.sent ≡ self.new.source.taken) (λ item. self.new.target.sent ++ item ∷ [] ≡ self.new.source.taken) }
        ensures idle { result ≡ false → (self.new.target.refusals ≡ self.old.target.refusals + 1) ⊎ (self.new.source.empties ≡ self.old.source.empties + 1) }
        ensures source { self.new.source.link ≡ self.old.source.link }
        ensures target { self.new.target.link ≡ self.old.target.link }
    {
        match self.due.take() {
            Some(item) => match self.target.post(rt, item) {
                Ok(()) => true,
                Err(Full(back)) => {
                    self.due = Some(back);
                    false
                }
            },
            None => match self.source.take(rt) {
                Some(item) => {
                    self.due = Some(item);
                    true
                }
                None => false,
            },
        }
    }
}

#[test]
fn a_link_of_one_place(rt: HostRuntime) -> Result<(), Fail> {
    let Ok((mut sender, mut receiver)) = link(rt.alloc(), 1) else {
        assert!(rt; false, "memory");
        return Ok(());
    };
    assert_eq!(rt; receiver.take(&rt), None);
    assert!(rt; sender.post(&rt, 5).is_ok());
    assert!(rt; matches!(sender.post(&rt, 6), Err(Full(6))));
    assert_eq!(rt; receiver.take(&rt), Some(5));
    assert!(rt; sender.post(&rt, 7).is_ok());
    assert_eq!(rt; settle(&rt, sender, receiver), 1);
    Ok(())
}

#[test]
fn ends_in_a_struct(rt: HostRuntime) -> Result<(), Fail> {
    let alloc = rt.alloc();
    let (Ok((mut first, source)), Ok((target, mut last))) = (link(alloc, 2), link(alloc, 1)) else {
        assert!(rt; false, "memory");
        return Ok(());
    };
    assert!(rt; first.post(&rt, make_parcel(alloc, 1)?).is_ok());
    assert!(rt; first.post(&rt, make_parcel(alloc, 2)?).is_ok());
    let mut relay = Relay {
        source,
        target,
        due: None,
    };
    for (turn, worked) in [true, true, true, false].iter().enumerate() {
        assert_eq!(rt; relay.turn(&rt), *worked, "turn {turn}");
    }
    assert_eq!(rt; last.take(&rt).map(|parcel| parcel.number()), Some(1));
    Ok(())
}

#[test]
fn two_threads_in_order(rt: HostRuntime) -> Result<(), Fail> {
    let alloc = rt.alloc();
    let last = 100_000;
    let mut numbers = Vec::new(alloc);
    let mut boxes = Vec::new(alloc);
    for number in (1..=last).rev() {
        numbers.push(number)?;
        boxes.push(Box::new(alloc, number)?)?;
    }
    assert!(rt;
        matches!(carried(&rt, alloc, numbers, last), Ok((true, 0))),
        "numbers"
    );
    assert!(rt;
        matches!(carried(&rt, alloc, boxes, last), Ok((true, 0))),
        "boxes"
    );
    Ok(())
}

#[test]
fn items_of_several_kinds(rt: HostRuntime) -> Result<(), Fail> {
    let alloc = rt.alloc();
    let mut parcels = Vec::new(alloc);
    for number in (1..=1_000).rev() {
        parcels.push(make_parcel(alloc, number)?)?;
    }
    assert!(rt; matches!(carried(&rt, alloc, parcels, 1_000), Ok((true, 0))));
    Ok(())
}
