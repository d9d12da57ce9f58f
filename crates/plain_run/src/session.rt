//! What `plain` keeps from request to request.

ghost use Rattle.std.specs.Prelude.{◌≡◌, ◌≤◌, IfOk};
ghost use Rattle.km_base.specs.Limits.{most_steps};
ghost use Rattle.plain_run.specs.Kept.{begun_with};
ghost use Rattle.plain_run.specs.Sessions.{kept_in, IsSession};

use crate::analysis::analysis_of;
use incr_analysis::Analysed;
use km_base::Memory;
use robot_field::Field;
use run_control::Runs;
use std::alloc::Global;
use text_versions::Versions;

/// The versions of the text, the analysis of the newest, the runs so far, and the field of the next run.
#[derive(Drop)]
pub struct Session {
    pub versions: Versions,
    pub analysed: Analysed,
    pub runs: Runs,
    pub field: Field,
    /// How many steps a run may take.
    pub budget: u32,
}

/// A session with version 0 and no run, whose runs may take so many steps.
pub fn new_session(alloc: Global, budget: u32) -> Result<Session, Memory>
    requires { budget ≤ most_steps }
    ensures session { IfOk result (λ session. IsSession session) }
    ensures kept { IfOk result (λ session. kept_in session ≡ begun_with budget) }
{
    let versions = Versions::new(alloc)?;
    let analysed = analysis_of(alloc, versions.newest(), versions.snapshot()?)?;
    Ok(Session {
        versions,
        analysed,
        runs: Runs::new(),
        field: Field::usual(alloc)?,
        budget,
    })
}
