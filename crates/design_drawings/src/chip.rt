//! The chip from above, with its labels at its pins.

ghost use Rattle.std.specs.Prelude.{◌≤◌};

use crate::labels::{label_length, put_behind, put_label};
use crate::page::{Page, Piece};
use crate::pin_words::{is_assigned, is_register, put_use};
use page_model::{PageModel, PinFacts, PinUse};
use pld_base::OutOfMemory;

/// From one pin to the next one below it.
const PITCH: usize = 26;

/// The width of the package.
const BODY: usize = 132;

/// From a label to the package: an arrow and the leg.
const LEG: u16 = 46;

/// A package: its number of pins, and how far from the left it begins.
#[derive(Clone, Copy)]
struct Package {
    pins: u8,
    left: u16,
}

impl Package {
    /// How high the drawing is: a line for each pin of a side, and room above and below.
    fn height(self) -> usize
        ensures { 40 ≤ result }
    {
        usize::from(self.pins / 2) * PITCH + 40
    }

    /// How wide the drawing is.
    fn width(self) -> usize {
        2 * usize::from(self.left) + BODY
    }

    /// Whether a pin is at the left side.
    fn is_left(self, pin: u8) -> bool {
        pin <= self.pins / 2
    }

    /// How far down a pin is.
    fn down(self, pin: u8) -> usize {
        let before = if self.is_left(pin) {
            pin.saturating_sub(1)
        } else {
            self.pins.saturating_sub(pin)
        };
        34 + usize::from(before) * PITCH
    }

    /// The edge of the package at a pin.
    fn edge(self, pin: u8) -> usize {
        let left = usize::from(self.left);
        if self.is_left(pin) { left } else { left + BODY }
    }
}

/// How many bytes the longest label shows, or a word of the package's own.
fn longest(model: &PageModel) -> u8 {
    let mut most = 3u8;
    for facts in model.pins.as_slice() {
        let length = label_length(facts.label.bytes());
        if most < length {
            most = length;
        }
    }
    most
}

/// The number of the last pin.
fn last_pin(model: &PageModel) -> u8 {
    match model.pins.as_slice().last() {
        Some(facts) => facts.number,
        None => 0,
    }
}

/// The package of a device.
fn package_of(model: &PageModel) -> Package {
    Package {
        pins: last_pin(model),
        left: 8 * u16::from(longest(model)) + 8 + LEG,
    }
}

/// The arrow of a pin at the left side, or at the right one.
fn arrow(used_as: PinUse, is_left: bool) -> &'static str {
    match (used_as, is_left) {
        (PinUse::Input, true) | (PinUse::Output, false) => "→",
        (PinUse::Input, false) | (PinUse::Output, true) => "←",
        (PinUse::Both, _) => "↔",
        _ => "",
    }
}

/// Writes what a pin is used as, as a sentence.
fn put_sentence(page: &mut Page, model: &PageModel, facts: &PinFacts) -> Result<(), OutOfMemory> {
    page.put(&[
        Piece::Markup("Pin "),
        Piece::Number(usize::from(facts.number)),
    ])?;
    put_behind(page, facts.label.bytes())?;
    page.put(&[Piece::Markup(": ")])?;
    put_use(page, model, facts)?;
    page.put(&[Piece::Markup(". ")])
}

/// Writes the label of a pin, with its arrow.
fn put_pin_label(page: &mut Page, facts: &PinFacts, is_left: bool) -> Result<(), OutOfMemory> {
    page.put(&[
        Piece::Markup(if is_left {
            "<text class=\"m\" x=\"-26\" y=\"5\">"
        } else {
            "<text class=\"m\" x=\"26\" y=\"5\">"
        }),
        Piece::Markup(arrow(facts.used_as, is_left)),
        Piece::Markup(if is_left {
            "</text><text class=\"e\" x=\"-38\" y=\"5\">"
        } else {
            "</text><text x=\"38\" y=\"5\">"
        }),
    ])?;
    match facts.used_as {
        PinUse::Ground => page.put(&[Piece::Markup("GND")])?,
        PinUse::Supply => page.put(&[Piece::Markup("VCC")])?,
        _ => put_label(page, facts.label.bytes())?,
    }
    page.put(&[Piece::Markup("</text>")])
}

/// Writes the leg of a pin with its number.
fn put_leg(page: &mut Page, facts: &PinFacts, is_left: bool) -> Result<(), OutOfMemory> {
    page.put(&[
        Piece::Markup(if is_left {
            "<path class=\"leg\" d=\"M-14 -4h14v8h-14z\"/><text class=\"n\" x=\"12\" y=\"5\">"
        } else {
            "<path class=\"leg\" d=\"M0 -4h14v8h-14z\"/><text class=\"n e\" x=\"-12\" y=\"5\">"
        }),
        Piece::Number(usize::from(facts.number)),
        Piece::Markup("</text>"),
    ])
}

/// Writes the marks of a clock and of a register.
fn put_marks(
    page: &mut Page,
    model: &PageModel,
    facts: &PinFacts,
    is_left: bool,
) -> Result<(), OutOfMemory> {
    if facts.is_clock {
        page.put(&[Piece::Markup(if is_left {
            "<path class=\"reg\" d=\"M0 -5l8 5l-8 5\"/>"
        } else {
            "<path class=\"reg\" d=\"M0 -5l-8 5l8 5\"/>"
        })])?;
    }
    if is_register(model, facts) {
        page.put(&[Piece::Markup(if is_left {
            "<path class=\"reg\" d=\"M34 -5h10v10h-10z\"/>"
        } else {
            "<path class=\"reg\" d=\"M-44 -5h10v10h-10z\"/>"
        })])?;
    }
    Ok(())
}

/// Writes a pin.
fn put_pin(
    page: &mut Page,
    model: &PageModel,
    package: Package,
    facts: &PinFacts,
) -> Result<(), OutOfMemory> {
    let is_faint = facts.used_as == PinUse::Unused && !is_assigned(model, facts);
    page.put(&[
        Piece::Markup(if is_faint {
            "<g class=\"dim\" transform=\"translate("
        } else {
            "<g transform=\"translate("
        }),
        Piece::Number(package.edge(facts.number)),
        Piece::Markup(" "),
        Piece::Number(package.down(facts.number)),
        Piece::Markup(")\"><title>"),
    ])?;
    put_sentence(page, model, facts)?;
    page.put(&[Piece::Markup("</title>")])?;
    let is_left = package.is_left(facts.number);
    put_leg(page, facts, is_left)?;
    put_marks(page, model, facts, is_left)?;
    put_pin_label(page, facts, is_left)?;
    page.put(&[Piece::Markup("</g>\n")])
}

/// Writes the package with its notch and the device's name.
fn put_body(page: &mut Page, model: &PageModel, package: Package) -> Result<(), OutOfMemory> {
    let middle = usize::from(package.left) + BODY / 2;
    let height = package.height();
    page.put(&[
        Piece::Markup("<path class=\"body\" d=\"M"),
        Piece::Number(usize::from(package.left)),
        Piece::Markup(" 12h54a12 12 0 0 0 24 0h54v"),
        Piece::Number(height - 24),
        Piece::Markup("h-132z\"/><text class=\"m dev\" transform=\"translate("),
        Piece::Number(middle),
        Piece::Markup(" "),
        Piece::Number(height / 2),
        Piece::Markup(")rotate(-90)\">"),
        Piece::Markup(model.device.text()),
        Piece::Markup("</text>\n"),
    ])
}

/// Writes the drawing of the chip.
pub fn put_chip(page: &mut Page, model: &PageModel) -> Result<(), OutOfMemory> {
    let package = package_of(model);
    page.put(&[
        Piece::Markup("<svg class=\"chip\" role=\"img\" width=\""),
        Piece::Number(package.width()),
        Piece::Markup("\" height=\""),
        Piece::Number(package.height()),
        Piece::Markup("\" viewBox=\"0 0 "),
        Piece::Number(package.width()),
        Piece::Markup(" "),
        Piece::Number(package.height()),
        Piece::Markup("\"><title>"),
        Piece::Markup(model.device.text()),
        Piece::Markup(" from above</title><desc>"),
    ])?;
    for facts in model.pins.as_slice() {
        put_sentence(page, model, facts)?;
    }
    page.put(&[Piece::Markup("</desc>\n")])?;
    put_body(page, model, package)?;
    for facts in model.pins.as_slice() {
        put_pin(page, model, package, facts)?;
    }
    page.put(&[Piece::Markup("</svg>\n")])
}
