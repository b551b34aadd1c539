//! A region of cubes that grows and shrinks at its end.

ghost use Rattle.std.specs.Prelude.{◌≡◌, ◌+◌, ◌<◌, ◌≤◌, [], ◌∷◌, ◌++◌, length, take, swap, slice_range, slice_get, Some, IfOk};

use crate::cube::Cube;
use pld_base::OutOfMemory;
use std::alloc::Global;
use std::marker::Model;

/// A length of the pool to go back to.
#[derive(Clone, Copy, PartialEq, Eq)]
pub struct Mark {
    pub length: usize,
}

/// The places from `from` up to `to`, which is not in it.
#[derive(Clone, Copy, PartialEq, Eq)]
pub struct Range {
    pub from: usize,
    pub to: usize,
}

/// A list of cubes with a number spare: so many more fit without memory. After `with_room` it takes none.
#[derive(Drop)]
pub struct CubePool {
    cubes: Vec<Cube>,
}

impl Model for CubePool {
    ghost use Rattle.std.specs.Prelude.{◌-◌, ◌≤◌, vec_len, vec_capacity};
    ghost use Rattle.covers.specs.Pool.{Pool};

    ghost Value = { Pool };

    ghost view = { λ p. record { cubes = p.cubes.items; spare = vec_capacity p.cubes - vec_len p.cubes } };

    ghost invariant = { λ p. vec_len p.cubes ≤ vec_capacity p.cubes };
}

impl CubePool {
    /// An empty pool for at least `room` cubes.
    pub fn with_room(alloc: Global, room: usize) -> Result<CubePool, OutOfMemory>
        ensures cubes { IfOk result (λ pool. pool.cubes ≡ []) }
        ensures spare { IfOk result (λ pool. room ≤ pool.spare) }
    {
        let cubes = Vec::with_capacity(alloc, room)?;
        Ok(CubePool { cubes })
    }

    /// How many cubes it holds.
    pub fn len(&self) -> usize
        ensures { result ≡ length self.now.cubes }
    {
        self.cubes.len()
    }

    /// How many more cubes fit.
    pub fn spare(&self) -> usize
        ensures { result ≡ self.now.spare }
    {
        self.cubes.capacity() - self.cubes.len()
    }

    /// The length as it is now, for `release`.
    pub fn mark(&self) -> Mark
        ensures { result.length ≡ length self.now.cubes }
    {
        Mark {
            length: self.cubes.len(),
        }
    }

    /// Appends the cube.
    pub fn push(&mut self, cube: Cube)
        requires { 0 < self.old.spare }
        ensures cubes { self.new.cubes ≡ self.old.cubes ++ cube ∷ [] }
        ensures spare { self.new.spare + 1 ≡ self.old.spare }
    {
        self.cubes.push_reserved(cube);
    }

    /// Appends the cubes, and answers their places.
    pub fn push_all(&mut self, cubes: &[Cube]) -> Range
        requires { length cubes.now ≤ self.old.spare }
        ensures from { result.from ≡ length self.old.cubes }
        ensures to { result.to ≡ length self.new.cubes }
        ensures cubes { self.new.cubes ≡ self.old.cubes ++ cubes.now }
        ensures spare { self.new.spare + length cubes.now ≡ self.old.spare }
    {
        let from = self.len();
        for cube in cubes {
            self.push(*cube);
        }
        let to = self.len();
        Range { from, to }
    }

    /// Cuts the list at the mark's length.
    pub fn release(&mut self, mark: Mark)
        requires { mark.length ≤ length self.old.cubes }
        ensures cubes { self.new.cubes ≡ take mark.length self.old.cubes }
        ensures spare { self.new.spare + mark.length ≡ self.old.spare + length self.old.cubes }
    {
        self.cubes.truncate(mark.length);
    }

    /// Puts two cubes each in the other's place.
    pub fn swap(&mut self, first: usize, second: usize)
        requires first { first < length self.old.cubes }
        requires second { second < length self.old.cubes }
        ensures cubes { self.new.cubes ≡ swap self.old.cubes first second }
        ensures spare { self.new.spare ≡ self.old.spare }
    {
        self.cubes.swap(first, second);
    }

    /// The cube at a place.
    pub fn cube_at(&self, place: usize) -> Cube
        requires { place < length self.now.cubes }
        ensures { slice_get self.now.cubes place ≡ Some result }
    {
        self.cubes[place]
    }

    /// The cubes of a range.
    pub fn slice(&self, range: Range) -> &[Cube]
        requires order { range.from ≤ range.to }
        requires within { range.to ≤ length self.now.cubes }
        ensures { result.now ≡ slice_range self.now.cubes range.from range.to }
    {
        &self.cubes[range.from..range.to]
    }
}
