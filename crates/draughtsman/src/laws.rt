//! The law of the pen's replies, which no code needs to run.

ghost use Rattle.draughtsman.specs.Laws.{GoesOn};

/// The replies to two lists of commands one after the other are those to the first, and then those to the second from
/// the pen that the first leaves. So each call of `Pen::act` adds its one reply to the replies so far.
pub fn pen_goes_on()
    ensures { GoesOn }
{}
