//! What devices say of their cells, pairs and rows.

ghost use Rattle.std.specs.Prelude.{◌≡◌};
ghost use Rattle.devices.specs.Models.{table_at};

use crate::asked::{Ask, ask_rows};
use crate::cells::{put_cell, put_fixed, put_low_pin, put_pair, put_pair_pin, put_switch};
use crate::model_words::model_named;
use crate::numbers::put_named;
use crate::sample::sample_device;
use devices::loaded_at;
use pld_base::Model;
use pld_device::{Device, Loaded, Sample};
use std::alloc::Global;
use std::marker::Brand;
use test_rows::{Found, Report, Section};

/// What a device says at a number.
#[derive(Clone, Copy)]
enum Entry {
    Cell,
    LowPin,
    Pair,
    PairPin,
    Switch,
    Fixed,
}

/// What is asked of a device: its numbers by their names, or entries.
#[derive(Clone, Copy)]
enum Question {
    Numbers,
    At(Entry),
}

/// The question of a section's name.
fn question_of(name: &str) -> Option<Question> {
    let questions = [
        ("numbers", Question::Numbers),
        ("cells", Question::At(Entry::Cell)),
        ("pin 11 at the cells", Question::At(Entry::LowPin)),
        ("pairs", Question::At(Entry::Pair)),
        ("pins of pairs", Question::At(Entry::PairPin)),
        ("switches", Question::At(Entry::Switch)),
        ("fixed fuses", Question::At(Entry::Fixed)),
    ];
    for (words, question) in questions {
        if words == name {
            return Some(question);
        }
    }
    None
}

/// Appends the entry at a number.
fn put_entry<D: Device>(device: &Loaded<D>, entry: Entry, number: u8, found: &mut Found) {
    match entry {
        Entry::Cell => put_cell::<D>(device, number, found),
        Entry::LowPin => put_low_pin::<D>(device, number, found),
        Entry::Pair => put_pair::<D>(device, u16::from(number), found),
        Entry::PairPin => put_pair_pin::<D>(device, u16::from(number), found),
        Entry::Switch => put_switch::<D>(device, u16::from(number), found),
        Entry::Fixed => put_fixed::<D>(device, u16::from(number), found),
    }
}

/// A question to a device, at one word or at several.
#[derive(Drop)]
struct LookUp<'a, D: Device> {
    device: &'a Loaded<D>,
    question: Question,
}

impl<'a, D: Device> LookUp<'a, D> {
    /// Appends the answer at a word.
    fn put_answer(&self, word: &str, found: &mut Found) {
        match (self.question, word.parse::<u8>()) {
            (Question::Numbers, _) => put_named::<D>(self.device, word, found),
            (Question::At(entry), Ok(number)) => {
                put_entry::<D>(self.device, entry, number, found)
            }
            (Question::At(_), Err(_)) => found.text("no number"),
        }
    }
}

impl<'a, D: Device> Ask for LookUp<'a, D> {
    fn answer(&mut self, _alloc: Global, input: &str, found: &mut Found) {
        for (place, word) in input.split_whitespace().enumerate() {
            if place != 0 {
                found.text("; ");
            }
            self.put_answer(word, found);
        }
    }
}

/// Asks the device of a model.
fn ask_model<D: Device>(
    alloc: Global,
    model: Model,
    question: Question,
    section: &Section<'_>,
    report: &mut Report<'_>,
)
    requires table { table_at model ≡ D.table }
{
    let device = loaded_at::<D>(model);
    let mut look_up = LookUp::<D> {
        device: &device,
        question,
    };
    ask_rows(alloc, section.rows.as_slice(), &mut look_up, report);
}

/// Asks the device with whose words a section's name ends.
pub fn ask_devices(alloc: Global, section: &Section<'_>, report: &mut Report<'_>) -> bool {
    let Some((words, device)) = section.name.split_once(" of the ") else {
        return false;
    };
    let Some(question) = question_of(words) else {
        return false;
    };
    if device == "sample device" {
        let device = sample_device();
        let mut look_up = LookUp::<Sample> {
            device: &device,
            question,
        };
        ask_rows(alloc, section.rows.as_slice(), &mut look_up, report);
        return true;
    }
    match model_named(device) {
        Some(model) => {
            ask_model::<Brand>(alloc, model, question, section, report);
            true
        }
        None => false,
    }
}
