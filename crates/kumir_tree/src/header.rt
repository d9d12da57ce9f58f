//! Headers of algorithms.
ghost use Rattle.std.specs.Prelude.{◌≡◌, IfOk};

use crate::expr::{BoundExprs, copy_some_bounds};
use crate::kind::{Kind, Mode};
use crate::names::{Name, copy_some_name};
use sqlite_items::Items;
use std::alloc::{AllocError, Global};

/// A parameter. It is a table exactly where it has bounds.
#[derive(Drop)]
pub struct Param {
    pub mode: Mode,
    pub kind: Kind,
    pub name: Name,
    pub bounds: Option<BoundExprs>,
}

pub type Params = Items<Param>;

/// A header. Its line counts from the first line of its unit.
#[derive(Drop)]
pub struct Header {
    pub name: Option<Name>,
    pub gives: Option<Kind>,
    pub params: Params,
    pub line: u32,
}

impl Param {
    pub fn copy(&self, alloc: Global) -> Result<Param, AllocError>
        ensures { IfOk result (λ c. c ≡ self.now) }
    {
        let name = self.name.copy(alloc)?;
        let bounds = copy_some_bounds(alloc, &self.bounds)?;
        Ok(Param {
            mode: self.mode,
            kind: self.kind,
            name,
            bounds,
        })
    }
}

pub fn copy_params(alloc: Global, all: &[Param]) -> Result<Params, AllocError>
    ensures { IfOk result (λ c. c ≡ all.now) }
{
    let mut out = Items::new(alloc);
    for param in all {
        out.push(param.copy(alloc)?)?;
    }
    Ok(out)
}

impl Header {
    pub fn copy(&self, alloc: Global) -> Result<Header, AllocError>
        ensures { IfOk result (λ c. c ≡ self.now) }
    {
        let name = copy_some_name(alloc, &self.name)?;
        let params = copy_params(alloc, self.params.as_slice())?;
        Ok(Header {
            name,
            gives: self.gives,
            params,
            line: self.line,
        })
    }
}
