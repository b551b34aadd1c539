//! The vectors that are drawn, in strips.

ghost use Rattle.std.specs.Prelude.{◌≤◌};

use crate::drawn_design::Design;
use device_sim::Mismatch;
use page_model::RunModel;
use pld_base::{Trace, Vector, level_at};

/// How many vectors are drawn at most.
pub const DRAWN: usize = 256;

/// How many strips there are at most.
pub const STRIPS: u8 = 8;

/// How many vectors are side by side.
pub const STRIP: u16 = 32;

/// The width of a vector.
pub const STEP: u16 = 24;

/// The part of a vector before its clocks are turned, and the part while they are.
pub const BEFORE: u16 = 8;

pub const TURNED: u16 = 8;

/// The height of a lane.
pub const LANE: u32 = 22;

/// Vectors side by side: the first of them, from 0, and how many there are. The first one begins so far to the right. A strip that
/// links lead to has the vectors' numbers as words for them.
#[derive(Clone, Copy)]
pub struct Strip {
    pub first: u16,
    pub count: u8,
    pub left: u16,
    pub is_linked: bool,
}

impl Strip {
    /// The number of a strip's vector among all, from 0. Takes no memory.
    pub fn index(&self, place: u8) -> usize
        ensures { result ≤ 65790 }
    {
        usize::from(self.first) + usize::from(place)
    }

    /// The beginning of a vector of a strip. Takes no memory.
    pub fn left_of(&self, place: u8) -> u16 {
        self.left.saturating_add(u16::from(place) * STEP)
    }

    /// The end of the last vector. Takes no memory.
    pub fn right(&self) -> u16 {
        self.left_of(self.count)
    }
}

/// The run of the vectors: of each, the number of its first point among all.
#[derive(Clone, Copy)]
pub struct Run<'a> {
    pub design: Design<'a>,
    pub run: &'a RunModel,
    pub firsts: &'a [usize],
}

impl<'a> Run<'a> {
    /// The vectors that are drawn. Takes no memory.
    pub fn drawn(&self) -> &'a [Vector] {
        let design = self.design;
        let vectors = design.file.vectors.as_slice();
        if vectors.len() <= DRAWN {
            return vectors;
        }
        vectors.split_at(DRAWN).0
    }

    /// The character of a pin in a vector, `N` past the last one. Takes no memory.
    pub fn char_at(&self, index: usize, pin: u8) -> u8 {
        let design = self.design;
        match design.file.vectors.as_slice().get(index) {
            Some(vector) => char_at(vector, pin),
            None => b'N',
        }
    }

    /// The number of a vector's first point, and of the one after its last one. Takes no memory.
    pub fn points(&self, index: usize) -> (usize, usize) {
        let first = self.firsts.get(index).copied().unwrap_or(0);
        let next = self
            .firsts
            .get(index.saturating_add(1))
            .copied()
            .unwrap_or(first);
        (first, next)
    }

    /// What the pins show at a point. Takes no memory.
    fn shown(&self, point: usize) -> Option<Trace> {
        self.run.shown.as_slice().get(point).copied()
    }

    /// The level that the device drives at a pin at a point, if it does. Takes no memory.
    pub fn level(&self, point: usize, pin: u8) -> Option<bool> {
        let shown = self.shown(point)?;
        if pin < 32 && level_at(shown.driven, pin) {
            Some(level_at(shown.level, pin))
        } else {
            None
        }
    }

    /// The disagreement of a vector at a pin. Takes no memory.
    pub fn mismatch(&self, index: usize, pin: u8) -> Option<Mismatch> {
        let run = self.run;
        let number = index.saturating_add(1);
        for found in run.report.list.as_slice() {
            if found.vector as usize > number {
                return None;
            }
            if found.vector as usize == number && found.pin == pin {
                return Some(*found);
            }
        }
        None
    }
}

/// The character of a pin in a vector. Takes no memory.
pub fn char_at(vector: &Vector, pin: u8) -> u8 {
    let place = usize::from(pin).saturating_sub(1);
    match vector.chars.get(place) {
        Some(char) => *char,
        None => b'N',
    }
}
