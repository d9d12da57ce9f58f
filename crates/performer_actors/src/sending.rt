//! Sending what is due.

ghost use Rattle.performer_actors.specs.Sends.{Sends};

use actor_kit::Turn;
use mail_link::Sender;
use std::sync::Wait;

/// Sends the item that is due, and goes on to what is due behind it where the item found room.
pub fn send<T: Send + Drop, D: Copy, R: Wait>(
    rt: &R,
    sender: &mut Sender<T>,
    item: T,
    due: &mut D,
    behind: D,
) -> Turn
    ensures { Sends item behind sender.old due.old result sender.new due.new }
{
    match sender.post(rt, item) {
        Ok(()) => {
            *due = behind;
            Turn::Worked
        }
        Err(_full) => Turn::Idle,
    }
}
