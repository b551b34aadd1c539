//! The pool in which covers are made.

ghost use Rattle.std.specs.Prelude.{◌≡◌, ◌+◌, ◌≤◌, ◌++◌, IfOk, length, vec_capacity, vec_len};
ghost use Rattle.fit_plans.specs.Prelude.{IsPrimeIrredundant};
ghost use Rattle.fit_plans.specs.Covering.{IsInside};

use covers::{Cube, CubePool, minimise};
use pld_base::OutOfMemory;
use std::alloc::{AllocError, Global};
use std::marker::Model;

/// The cubes of the pool in which all covers are made.
const POOL: usize = 49_152;

/// Where lists are made, and a pool with room for any cover. A contract sees nothing of it.
#[derive(Drop)]
pub struct Workspace {
    pub alloc: Global,
    pub pool: CubePool,
}

impl Model for Workspace {
    ghost use Rattle.std.specs.Prelude.{◌≤◌};

    ghost Value = { Unit {0} };

    ghost view = { λ w. tt };

    ghost invariant = { λ w. 27672 ≤ w.pool.spare };
}

/// Appends the cubes to a list that has room for them. Takes no memory.
fn append(list: &mut Vec<Cube>, cubes: &[Cube])
    requires { vec_len list.old + length cubes.now ≤ vec_capacity list.old }
    ensures cubes { list.new.items ≡ list.old.items ++ cubes.now }
    ensures len { vec_len list.new ≡ vec_len list.old + length cubes.now }
{
    for cube in cubes {
        list.push_reserved(*cube);
    }
}

impl Workspace {
    /// One for all covers.
    pub fn new(alloc: Global) -> Result<Workspace, OutOfMemory> {
        let pool = CubePool::with_room(alloc, POOL)?;
        Ok(Workspace { alloc, pool })
    }

    /// The prime and irredundant rows between two lists of cubes. Room for the rows is taken first, and nothing once the
    /// minimiser begins.
    pub fn minimised(
        &mut self,
        needed: &[Cube],
        allowed: &[Cube],
        vars: u8,
    ) -> Result<Vec<Cube>, AllocError>
        requires vars { vars ≤ 22 }
        requires needed_few { length needed.now ≤ 1024 }
        requires allowed_few { length allowed.now ≤ 1024 }
        requires inside { IsInside vars needed.now allowed.now }
        ensures rows { IfOk result (λ r. IsPrimeIrredundant needed.now allowed.now vars r.items) }
        ensures few { IfOk result (λ r. vec_len r ≤ length needed.now) }
    {
        let mut found = Vec::with_capacity(self.alloc, needed.len())?;
        let mark = self.pool.mark();
        let needs = self.pool.push_all(needed);
        let allows = self.pool.push_all(allowed);
        let rows = minimise(&mut self.pool, needs, allows, vars);
        append(&mut found, self.pool.slice(rows));
        self.pool.release(mark);
        Ok(found)
    }
}
