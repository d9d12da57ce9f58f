//! The status that a command ends with.

ghost use Rattle.std.specs.Prelude.{◌≡◌};
ghost use Rattle.km_ports.specs.declared.status.Status.TheVariants.{Read as ReadFault, Memory as WantOfMemory};
ghost use Rattle.km_ports.specs.Status.{status_number, put_status, read_status};

use crate::port::{Failed, PutFault};
use crate::whole::ReadRefusal;
use km_base::Memory;
use std::alloc::AllocError;

/// Which limit the input passes (docs/PROGRAM.md, "Limits").
#[derive(Clone, Copy, Debug, PartialEq, Eq)]
pub enum Excess {
    /// More bytes than the command reads.
    Bytes,
    /// More lines than a text has.
    Lines,
    /// A line with more characters than a line has; the first such line, from 1.
    Characters { line: u32 },
}

/// How a command ended (docs/PROGRAM.md, "Statuses").
#[derive(Clone, Copy, Debug, PartialEq, Eq)]
pub enum Status {
    /// The work was done.
    Fine,
    /// The work was done, and the text has faults.
    Faults,
    /// The words of the command line are none of the listed forms.
    Words,
    /// The source failed.
    Read,
    /// The sink failed.
    Write,
    /// Want of memory.
    Memory,
    /// The input is not UTF-8. `place` is the number of bytes before the first ill-formed sequence.
    NotUtf8 { place: u64 },
    /// The input passes a limit.
    TooLong(Excess),
}

impl Status {
    /// The number that the program ends with, from 0 to 7 in the order of the variants.
    pub fn number(&self) -> u8
        ensures { result ≡ status_number self.now }
    {
        match self {
            Status::Fine => 0,
            Status::Faults => 1,
            Status::Words => 2,
            Status::Read => 3,
            Status::Write => 4,
            Status::Memory => 5,
            Status::NotUtf8 { .. } => 6,
            Status::TooLong(_) => 7,
        }
    }
}

impl From<Memory> for Status {
    ghost from_gives = { λ _ status. status ≡ WantOfMemory };

    fn from(_refused: Memory) -> Status {
        Status::Memory
    }
}

impl From<AllocError> for Status {
    ghost from_gives = { λ _ status. status ≡ WantOfMemory };

    fn from(_refused: AllocError) -> Status {
        Status::Memory
    }
}

impl From<Failed> for Status {
    ghost from_gives = { λ _ status. status ≡ ReadFault };

    fn from(_failed: Failed) -> Status {
        Status::Read
    }
}

impl From<PutFault> for Status {
    ghost from_gives = { λ fault status. status ≡ put_status fault };

    fn from(fault: PutFault) -> Status {
        match fault {
            PutFault::Failed => Status::Write,
            PutFault::Memory => Status::Memory,
        }
    }
}

impl From<ReadRefusal> for Status {
    ghost from_gives = { λ refusal status. status ≡ read_status refusal };

    fn from(refusal: ReadRefusal) -> Status {
        match refusal {
            ReadRefusal::Failed => Status::Read,
            ReadRefusal::TooLong => Status::TooLong(Excess::Bytes),
            ReadRefusal::Memory => Status::Memory,
        }
    }
}
