//! Laws of a run together with its Robot, which no code needs to run.

ghost use Rattle.closed_meaning.specs.Laws.{OnePlay, PlayIsAnswered, PlayOnlyGrows, PlayGoesOn, KnownLaws};

use kumir_compiler::{
    awaits_one_reply, commands_are_answered, commands_take_steps, meaning_only_grows,
    no_further_reply_is_read,
};
use robot_field::robot_goes_on;

/// What holds of every run, and of the replies of a field.
fn laws_are_known()
    ensures { KnownLaws }
{
    meaning_only_grows();
    no_further_reply_is_read();
    awaits_one_reply();
    commands_are_answered();
    commands_take_steps();
    robot_goes_on();
}

/// For each program, its inputs, a field and a number of steps there is exactly one run together with the Robot.
pub fn one_play()
    ensures { OnePlay }
{
    laws_are_known();
}

/// A run together with its Robot awaits no reply.
pub fn play_is_answered()
    ensures { PlayIsAnswered }
{
    laws_are_known();
}

/// A run together with its Robot on less steps begins that on more: its acts, its outputs, its commands to each performer.
pub fn play_only_grows()
    ensures { PlayOnlyGrows }
{
    laws_are_known();
}

/// What a program does on the field's first replies to its own commands begins its run together with the Robot.
pub fn play_goes_on()
    ensures { PlayGoesOn }
{
    laws_are_known();
}
