//! How many rows a section has, and which of them are not as they should be.

use crate::found::Found;
use std::alloc::Global;

/// The report on a section, or on any other run of cases.
#[derive(Drop)]
pub struct Report<'a> {
    name: &'a str,
    count: usize,
    text: Found,
}

impl<'a> Report<'a> {
    /// The report on a section of which no row is done. Takes no memory.
    pub fn new(alloc: Global, name: &'a str) -> Report<'a> {
        Report {
            name,
            count: 0,
            text: Found::new(alloc),
        }
    }

    /// Counts a row, and says what was found if it isn't what was wanted.
    pub fn row(&mut self, number: usize, wanted: &[u8], found: &Found) {
        self.count = self.count.saturating_add(1);
        if found.is_cut() {
            self.told(number, b"no memory")
        } else if found.bytes() != wanted {
            self.told(number, found.bytes())
        }
    }

    /// Counts a row that can't be read.
    pub fn unread(&mut self, number: usize) {
        self.count = self.count.saturating_add(1);
        self.told(number, b"no row")
    }

    /// Says what was found at a row.
    fn told(&mut self, number: usize, found: &[u8]) {
        let name = self.name;
        self.text.text(name);
        self.text.text(", line ");
        self.text.number(number);
        self.text.text(": ");
        self.text.shown(found);
        self.text.text("\n")
    }

    /// The whole report: a line for each row that is not as it should be, and then how many rows there are.
    pub fn end(mut self) -> Found {
        let (name, count) = (self.name, self.count);
        self.text.text(name);
        self.text.text(": ");
        self.text.number(count);
        self.text.text(" rows\n");
        self.text
    }
}
