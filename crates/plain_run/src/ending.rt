//! With which status a command ends.

ghost use Rattle.std.specs.Prelude.{◌≡◌};
ghost use Rattle.plain_run.specs.Ending.{ended};

use km_ports::{PutFault, Status};

/// The status of work that ends with `done`, once its text was put.
pub fn ended(done: Status, put: Result<(), PutFault>) -> Status
    ensures { result ≡ ended done put }
{
    match put {
        Ok(()) => done,
        Err(fault) => Status::from(fault),
    }
}
