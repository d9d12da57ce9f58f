use crate::counter::{Watch, count_down};
use actor_kit::{Event, Job, NoGate, Note, Order, PenTask, Place, RobotTask, Verdict};
use km_base::{Count, Memory};
use kumir_tree::Chars;
use kumir_values::{EndKind, Values};
use mail_link::{link, settle};
use performer_kit::{PenCommand, RobotCommand};
use robot_field::Field;
use std::alloc::Global;
use std::cell::Cell;
use std::sync::Wait;
use std::test::*;

#[test]
fn an_actor_is_driven_to_its_end(rt: HostRuntime) {
    let mut count = Count::new();
    let gate = Watch {
        passes: Cell::new(0),
        last: Cell::new(Place::Job { version: 0 }),
    };
    count_down(&rt, &gate, 5, &mut count);
    assert_eq!(rt; gate.passes.get(), 5);
    assert_eq!(rt; gate.last.get(), Place::Output { run: 1 });
    count_down(&rt, &NoGate, 5, &mut count);
    assert_eq!(rt; gate.passes.get(), 5);
}

// Sends two messages over a link with room for one: whether the second found no room.
fn crosses<T: Send + Drop, R: Wait>(
    rt: &R,
    alloc: Global,
    first: T,
    second: T,
) -> Result<bool, Memory> {
    let (mut sender, receiver) = link(alloc, 1)?;
    let went = sender.post(rt, first).is_ok();
    let refused = sender.post(rt, second).is_err();
    Ok(went && refused && settle(rt, sender, receiver) == 1)
}

fn start(alloc: Global) -> Result<Order<u32>, Memory> {
    Ok(Order::Start {
        run: 1,
        program: 7,
        inputs: Values::new(alloc),
        field: Field::usual(alloc)?,
        budget: 1_000,
    })
}

fn begin(alloc: Global) -> Result<RobotTask, Memory> {
    Ok(RobotTask::Begin {
        run: 1,
        field: Field::usual(alloc)?,
    })
}

#[test]
fn messages_cross_links(rt: HostRuntime) -> Result<(), Fail> {
    let alloc = rt.alloc();
    let job = Job::Analyse {
        version: 1,
        text: 7u32,
    };
    assert!(rt; crosses(&rt, alloc, job, Job::Close)?, "jobs");
    let skipped = Verdict::Skipped {
        version: 1,
        newer: 2,
    };
    assert!(rt;
        crosses(&rt, alloc, Verdict::Done(7u32), skipped)?,
        "verdicts"
    );
    assert!(rt;
        crosses(&rt, alloc, start(alloc)?, Order::Halt { run: 1 })?,
        "orders"
    );
    let out = Event::Out {
        run: 1,
        text: Chars::new(alloc),
    };
    let ended = Event::Ended {
        run: 1,
        end: EndKind::Steps,
        outs: 1,
        robot: 0,
        pen: 0,
    };
    assert!(rt; crosses(&rt, alloc, out, ended)?, "events");
    let act = RobotTask::Act {
        run: 1,
        number: 1,
        command: RobotCommand::Up,
    };
    assert!(rt;
        crosses(&rt, alloc, begin(alloc)?, act)?,
        "tasks of the Robot"
    );
    let lower = PenTask::Act {
        run: 1,
        number: 1,
        command: PenCommand::Lower,
    };
    assert!(rt;
        crosses(&rt, alloc, PenTask::Begin { run: 1 }, lower)?,
        "tasks of the Draughtsman"
    );
    assert!(rt; crosses(&rt, alloc, Note::Gone, Note::Gone)?, "notes");
    Ok(())
}
