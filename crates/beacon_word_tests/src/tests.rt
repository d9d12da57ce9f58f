ghost use Rattle.std.specs.Prelude.{◌≡◌};
ghost use Rattle.beacon_word.specs.Beacon.{last_or_zero};

use beacon_word::{Looker, Raiser, beacon, settle};
use km_base::Memory;
use std::alloc::Global;
use std::sync::Wait;
use std::test::*;
use std::thread;
use std::thread::{Threads, join_mut};

// Raises its beacon to each number after the last one, up to `end`.
#[derive(Drop)]
struct Climber {
    raiser: Raiser,
    last: u32,
    end: u32,
}

impl Climber {
    fn climb<R: Wait>(&mut self, rt: &R)
        requires { last_or_zero self.old.raiser.raised ≡ self.old.last }
        ensures { self.new.raiser.beacon ≡ self.old.raiser.beacon }
    {
        let end = self.end;
        while self.last < end {
            self.last += 1;
            self.raiser.raise(rt, self.last);
        }
    }
}

// Looks until it sees `end`, and keeps whether a number was below the one before.
#[derive(Drop)]
struct Watcher {
    looker: Looker,
    end: u32,
    seen: u32,
    fell: bool,
}

impl Watcher {
    fn watch<R: Wait>(&mut self, rt: &R)
        ensures { self.new.looker.beacon ≡ self.old.looker.beacon }
    {
        for _ in rt.forever() {
            let shown = self.looker.look(rt);
            if shown < self.seen {
                self.fell = true;
            }
            self.seen = shown;
            if shown >= self.end {
                return;
            }
            thread::yield_now();
        }
    }
}

fn beside<R: Threads + Wait + Sync>(rt: &R, climber: &mut Climber, watcher: &mut Watcher)
    requires { last_or_zero climber.old.raiser.raised ≡ climber.old.last }
    ensures climber { climber.new.raiser.beacon ≡ climber.old.raiser.beacon }
    ensures watcher { watcher.new.looker.beacon ≡ watcher.old.looker.beacon }
{
    join_mut(rt, &mut || climber.climb(rt), &mut || watcher.watch(rt));
}

// Raises a beacon to each number up to `end` beside a looker: whether what it saw fell, and what the beacon shows at last.
fn watched<R: Threads + Wait + Sync>(
    rt: &R,
    alloc: Global,
    end: u32,
) -> Result<(bool, u32), Memory> {
    let (raiser, looker) = beacon(alloc)?;
    let mut climber = Climber {
        raiser,
        last: 0,
        end,
    };
    let mut watcher = Watcher {
        looker,
        end,
        seen: 0,
        fell: false,
    };
    beside(rt, &mut climber, &mut watcher);
    let Climber { raiser, .. } = climber;
    let Watcher { looker, fell, .. } = watcher;
    Ok((fell, settle(rt, raiser, looker)))
}

#[test]
fn shows_what_was_raised(rt: HostRuntime) -> Result<(), Fail> {
    let Ok((mut raiser, mut looker)) = beacon(rt.alloc()) else {
        assert!(rt; false, "memory");
        return Ok(());
    };
    assert_eq!(rt; looker.look(&rt), 0);
    raiser.raise(&rt, 3);
    assert_eq!(rt; looker.look(&rt), 3);
    assert_eq!(rt; settle(&rt, raiser, looker), 3);
    Ok(())
}

#[test]
fn two_threads_never_see_it_fall(rt: HostRuntime) -> Result<(), Fail> {
    assert!(rt; matches!(watched(&rt, rt.alloc(), 100_000), Ok((false, 100_000))));
    Ok(())
}
