// Copies of transformations.
ghost use Rattle.std.specs.Prelude.{◌≡◌, IfOk};

use crate::{Cmp, Spec, SpecFault, Target, Test};
use std::alloc::{AllocError, Global};
use sx_lists::Copied;

impl Copied for Spec {
    fn copy(&self, alloc: Global) -> Result<Self, AllocError> {
        match self {
            Spec::Join {
                left,
                right,
                on_left,
                on_right,
                into,
            } => Ok(Spec::Join {
                left: left.copy(alloc)?,
                right: right.copy(alloc)?,
                on_left: on_left.copy(alloc)?,
                on_right: on_right.copy(alloc)?,
                into: into.copy(alloc)?,
            }),
            Spec::Split {
                table,
                by,
                dep,
                rest,
                dependent,
            } => Ok(Spec::Split {
                table: table.copy(alloc)?,
                by: by.copy(alloc)?,
                dep: dep.copy(alloc)?,
                rest: rest.copy(alloc)?,
                dependent: dependent.copy(alloc)?,
            }),
            Spec::Part {
                table,
                tests,
                yes,
                no,
            } => Ok(Spec::Part {
                table: table.copy(alloc)?,
                tests: tests.copy(alloc)?,
                yes: yes.copy(alloc)?,
                no: no.copy(alloc)?,
            }),
            Spec::Union { left, right, into } => Ok(Spec::Union {
                left: left.copy(alloc)?,
                right: right.copy(alloc)?,
                into: into.copy(alloc)?,
            }),
        }
    }
}

impl Copied for Test {
    fn copy(&self, alloc: Global) -> Result<Self, AllocError> {
        Ok(Test {
            column: self.column.copy(alloc)?,
            cmp: self.cmp,
            value: self.value.copy(alloc)?,
        })
    }
}

impl Copied for Cmp {
    fn copy(&self, _alloc: Global) -> Result<Self, AllocError> {
        Ok(*self)
    }
}

impl Copied for Target {
    fn copy(&self, alloc: Global) -> Result<Self, AllocError> {
        Ok(Target {
            name: self.name.copy(alloc)?,
            schema: self.schema.copy(alloc)?,
        })
    }
}

impl Copied for SpecFault {
    fn copy(&self, alloc: Global) -> Result<Self, AllocError> {
        match self {
            SpecFault::Memory => Ok(SpecFault::Memory),
            SpecFault::NoTable { name } => Ok(SpecFault::NoTable {
                name: name.copy(alloc)?,
            }),
            SpecFault::SameTable { name } => Ok(SpecFault::SameTable {
                name: name.copy(alloc)?,
            }),
            SpecFault::NoColumn { name } => Ok(SpecFault::NoColumn {
                name: name.copy(alloc)?,
            }),
            SpecFault::Repeated { name } => Ok(SpecFault::Repeated {
                name: name.copy(alloc)?,
            }),
            SpecFault::Types { place } => Ok(SpecFault::Types { place: *place }),
            SpecFault::Nullable { name } => Ok(SpecFault::Nullable {
                name: name.copy(alloc)?,
            }),
            SpecFault::KeyMissing { name } => Ok(SpecFault::KeyMissing {
                name: name.copy(alloc)?,
            }),
            SpecFault::NameTaken { name } => Ok(SpecFault::NameTaken {
                name: name.copy(alloc)?,
            }),
            SpecFault::NoIndex { table } => Ok(SpecFault::NoIndex {
                table: table.copy(alloc)?,
            }),
        }
    }
}
