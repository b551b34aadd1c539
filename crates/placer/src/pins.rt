//! The pins that signals were given, by their names.

ghost use Rattle.std.specs.Prelude.{◌≡◌, ◌<◌, All, IfSome, Some, None, if◌then◌else◌, length, map, get_or, position, bytes_eq};
ghost use Rattle.placer.specs.Prelude.{has_bit, view_declared, view_meaning, no_name};
ghost use Rattle.placer.specs.Given.{AreKnown, IsEachPinned, node_given, pin_given};
ghost use Rattle.placer.specs.Placements.{dc_of, is_node};

use abel_tree::{Attributes, Declared, Meaning};
use bitflags::Flags;

/// Signals by their numbers, each with a pin.
#[derive(Drop)]
pub(crate) struct PlacedPins {
    pub(crate) signals: Vec<usize>,
    pub(crate) pins: Vec<u32>,
}

/// Whether it has this name.
fn is_named(declared: &Declared, name: &[u8]) -> bool
    ensures { result ≡ bytes_eq name.now declared.now.name }
{
    name == declared.name.bytes()
}

/// Whether the attributes say `dc`.
fn has_dc(attributes: Attributes) -> bool
    ensures { result ≡ has_bit 16 attributes }
{
    attributes.contains(Attributes::DC)
}

/// The place of the first signal that has this name.
fn place_of(names: &[Declared], signals: &[usize], name: &[u8]) -> Option<usize>
    requires { All (λ s. s < length names.now) signals.now }
    ensures found { result ≡ position (λ s. bytes_eq name.now (get_or (map view_declared names.now) s no_name).name) signals.now }
    ensures within { IfSome result (λ k. k < length signals.now) }
{
    for (place, signal) in signals.iter().enumerate() {
        if is_named(&names[*signal], name) {
            return Some(place);
        }
    }
    None
}

/// Whether it is a node.
pub(crate) fn is_node(meaning: &Meaning) -> bool
    ensures { result ≡ is_node (view_meaning meaning.now) }
{
    match meaning {
        Meaning::Node(_) => true,
        _ => false,
    }
}

impl PlacedPins {
    /// The pin of a name, if it was given one.
    pub(crate) fn pin_of(&self, names: &[Declared], name: &[u8]) -> Option<u32>
        requires { IsEachPinned (length names.now) self.now }
        ensures { result ≡ pin_given (map view_declared names.now) self.now name.now }
    {
        match place_of(names, self.signals.as_slice(), name) {
            Some(place) => {
                let pin = self.pins[place];
                Some(pin)
            }
            None => None,
        }
    }

    /// The pin of a node, if it was given one.
    pub(crate) fn node_pin_of(&self, names: &[Declared], name: &[u8]) -> Option<u32>
        requires { IsEachPinned (length names.now) self.now }
        ensures { AreKnown (map view_declared names.now) → result ≡ node_given (map view_declared names.now) self.now name.now }
    {
        match place_of(names, self.signals.as_slice(), name) {
            Some(place) => self.node_pin_at(names, place),
            None => None,
        }
    }

    /// The pin at a place, if its signal is a node.
    fn node_pin_at(&self, names: &[Declared], place: usize) -> Option<u32>
        requires pins { IsEachPinned (length names.now) self.now }
        requires inside { place < length self.now.signals.items }
        ensures { result ≡ (if is_node (get_or (map view_declared names.now) (get_or self.now.signals.items place 0) no_name).kind then Some (get_or self.now.pins.items place 0) else None) }
    {
        let signal = self.signals[place];
        let pin = self.pins[place];
        let declared = &names[signal];
        if is_node(&declared.meaning) {
            Some(pin)
        } else {
            None
        }
    }
}

/// Whether a name has `dc`.
pub(crate) fn dc_of(names: &[Declared], name: &[u8]) -> bool
    ensures { result ≡ dc_of (map view_declared names.now) name.now }
{
    for declared in names {
        if is_named(declared, name) {
            return has_dc(declared.attributes);
        }
    }
    false
}
