//! The ends of the links that the performers work with.

use actor_kit::{Note, PenTask, RobotTask};
use mail_link::{Receiver, Sender};
use performer_kit::Reply;

/// The Robot's ends.
#[derive(Drop)]
pub struct RobotEnds {
    pub tasks: Receiver<RobotTask>,
    pub replies: Sender<Reply>,
    pub notes: Sender<Note>,
}

/// The Draughtsman's ends. It posts no reply.
#[derive(Drop)]
pub struct PenEnds {
    pub tasks: Receiver<PenTask>,
    pub notes: Sender<Note>,
}
