//! The runs of a session: at most one is pinned or active.
#![tactic(auto)]

ghost use Rattle.std.specs.Prelude.{◌≡◌, ◌+◌, ◌<◌, ◌↔◌, IfOk, IfErr, IsErr, OnOk, OnErr};

use std::marker::Model;

/// Where the newest run stands.
#[derive(Clone, Copy, Debug, PartialEq, Eq)]
pub enum Stage {
    /// There is no run, or it is over.
    NoRun,
    /// The run waits for the margin of its version.
    Pinned { version: u32 },
    /// The run of this version goes on.
    Active { version: u32 },
}

/// A run is pinned or active, so no other can be pinned.
#[derive(Clone, Copy, Debug, PartialEq, Eq)]
pub struct Busy;

/// No run is pinned or active.
#[derive(Clone, Copy, Debug, PartialEq, Eq)]
pub struct Idle;

/// Why a pinned run does not begin (docs/PROGRAM.md, "Transcript").
#[derive(Clone, Copy, Debug, PartialEq, Eq)]
pub enum BeginRefusal {
    /// Its version has faults.
    Faults,
    /// Its version has no algorithm, or the first one has parameters.
    NoMain,
}

/// The runs so far. Contracts see how many were pinned and where the newest stands. Nothing here takes memory.
#[derive(Drop)]
pub struct Runs {
    count: u32,
    stage: Stage,
}

impl Model for Runs {
    ghost use Rattle.run_control.specs.Runs.{RunsSoFar};

    ghost Value = { RunsSoFar };

    ghost view = { λ r. record { count = r.count; stage = r.stage } };
}

impl Runs {
    ghost use Rattle.run_control.specs.declared.Stage.TheVariants.{NoRun, Pinned};
    ghost use Rattle.run_control.specs.Runs.{IsOpen, IsPinned, activated, begin_answer};

    /// No run was pinned.
    pub fn new() -> Runs
        ensures { result ≡ record { count = 0; stage = NoRun } }
    {
        Runs {
            count: 0,
            stage: Stage::NoRun,
        }
    }

    /// How many runs were pinned.
    pub fn count(&self) -> u32
        ensures { result ≡ self.now.count }
    {
        self.count
    }

    /// Where the newest run stands.
    pub fn stage(&self) -> Stage
        ensures { result ≡ self.now.stage }
    {
        self.stage
    }

    /// Pins a run of this version and answers the run's number, from 1.
    pub fn pin(&mut self, version: u32) -> Result<u32, Busy>
        requires { self.old.count < 4294967295 }
        ensures busy { IsErr result ↔ IsOpen self.old.stage }
        ensures free { OnOk result (self.old.stage ≡ NoRun) }
        ensures number { IfOk result (λ run. run ≡ self.old.count + 1) }
        ensures pinned { OnOk result (self.new ≡ record { count = self.old.count + 1; stage = Pinned version }) }
        ensures unchanged { OnErr result (self.new ≡ self.old) }
    {
        match self.stage {
            Stage::NoRun => {
                self.count += 1;
                self.stage = Stage::Pinned { version };
                Ok(self.count)
            }
            Stage::Pinned { .. } | Stage::Active { .. } => Err(Busy),
        }
    }

    /// Makes the pinned run active and answers its number. A run that is refused is over.
    pub fn begin(&mut self, fault_free: bool, has_main: bool) -> Result<u32, BeginRefusal>
        requires { IsPinned self.old.stage }
        ensures answer { result ≡ begin_answer fault_free has_main self.old.count }
        ensures active { OnOk result (self.new ≡ record self.old { stage = activated self.old.stage }) }
        ensures over { OnErr result (self.new ≡ record self.old { stage = NoRun }) }
    {
        let pinned = self.stage;
        self.stage = Stage::NoRun;
        if !fault_free {
            return Err(BeginRefusal::Faults);
        }
        if !has_main {
            return Err(BeginRefusal::NoMain);
        }
        if let Stage::Pinned { version } = pinned {
            self.stage = Stage::Active { version };
        }
        Ok(self.count)
    }

    /// The run that is pinned or active.
    pub fn halt(&self) -> Result<u32, Idle>
        ensures idle { IsErr result ↔ (self.now.stage ≡ NoRun) }
        ensures open { OnOk result (IsOpen self.now.stage) }
        ensures number { IfOk result (λ run. run ≡ self.now.count) }
    {
        match self.stage {
            Stage::NoRun => Err(Idle),
            Stage::Pinned { .. } | Stage::Active { .. } => Ok(self.count),
        }
    }

    /// The run that is pinned or active is over.
    pub fn end(&mut self)
        requires { IsOpen self.old.stage }
        ensures { self.new ≡ record self.old { stage = NoRun } }
    {
        self.stage = Stage::NoRun;
    }
}

#[cfg(test)]
mod tests;
