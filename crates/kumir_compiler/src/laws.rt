//! Laws of the code of a program, and of what programs mean, which no code needs to run.

ghost use Rattle.kumir_compiler.specs.Laws.{CodeMeansTheProgram, FaultlessCodeIsValid};
ghost use Rattle.kumir_compiler.specs.Laws.{FaultlessIsCompilable, SamplesAreCompilable};
ghost use Rattle.kumir_compiler.specs.Laws.{MeaningOnlyGrows, NoFurtherReplyIsRead};
ghost use Rattle.kumir_compiler.specs.Laws.{AwaitsOneReply, CommandsAreAnswered, CommandsTakeSteps};

/// The code of a program runs as the program means, for each number of steps, on all inputs and
/// all replies.
pub fn code_means_the_program()
    ensures { CodeMeansTheProgram }
{}

/// Its premise holds of sample programs.
pub fn samples_are_compilable()
    ensures { SamplesAreCompilable }
{}

/// The premise holds of each program without a fault.
pub fn faultless_is_compilable()
    ensures { FaultlessIsCompilable }
{}

/// The code of each program without a fault is valid; a run begins with the first algorithm,
/// where that has no parameters.
pub fn faultless_code_is_valid()
    ensures { FaultlessCodeIsValid }
{}

/// What a program does on less steps and less replies begins what it does on more: its acts,
/// its outputs, and its commands to each performer.
pub fn meaning_only_grows()
    ensures { MeaningOnlyGrows }
{}

/// A run that awaits no reply is the same with any further replies.
pub fn no_further_reply_is_read()
    ensures { NoFurtherReplyIsRead }
{}

/// A run that awaits a reply has one command to the Robot more than replies.
pub fn awaits_one_reply()
    ensures { AwaitsOneReply }
{}

/// A run that awaits no reply has a reply to each command to the Robot.
pub fn commands_are_answered()
    ensures { CommandsAreAnswered }
{}

/// Each command takes a step: a run has at most as many commands to both performers as steps.
pub fn commands_take_steps()
    ensures { CommandsTakeSteps }
{}
