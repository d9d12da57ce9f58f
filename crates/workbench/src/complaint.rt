//! What the program says of a status other than success.

ghost use Rattle.std.specs.Prelude.{◌≡◌};
ghost use Rattle.workbench.specs.Complaints.{complaint_of};

use km_ports::Status;
use thiserror::Error;

/// The line that the program prints on standard error for a status from 2 to 7 (docs/PROGRAM.md, "Statuses").
#[derive(Debug, Drop, Error)]
pub enum Complaint {
    #[error("workbench: words")]
    Words,
    #[error("workbench: read fault")]
    Read,
    #[error("workbench: write fault")]
    Write,
    #[error("workbench: want of memory")]
    Memory,
    #[error("workbench: not UTF-8")]
    NotUtf8,
    #[error("workbench: input too long")]
    TooLong,
}

impl Complaint {
    /// None exactly for the statuses 0 and 1, where the work was done.
    pub fn of(status: &Status) -> Option<Complaint>
        ensures { result ≡ complaint_of status.now }
    {
        match status {
            Status::Fine | Status::Faults => None,
            Status::Words => Some(Complaint::Words),
            Status::Read => Some(Complaint::Read),
            Status::Write => Some(Complaint::Write),
            Status::Memory => Some(Complaint::Memory),
            Status::NotUtf8 { .. } => Some(Complaint::NotUtf8),
            Status::TooLong(_) => Some(Complaint::TooLong),
        }
    }
}
