//! Shapes and refusals of expressions, without an arena.

ghost use Rattle.std.specs.Prelude.{◌≡◌, List, [], ◌∷◌, ◌++◌, Option, Some, None};
ghost use Rattle.set_expr.specs.Prelude.{Place, first_refusal, Entry, entries_of, view, view_member, Value};
ghost use Rattle.set_expr.specs.{found_of, found_use, found_special, name_found, names_found, expression_found, IsKnown, SumsUp, HasShapeIf, Found, large_member, width_with, found_set, AreSummedUp, section_order};

use crate::checked::Checked;
use crate::fault::SectionFault;
use crate::known::KnownNames;
use crate::rules::settled;
use crate::shaped::Shape;
use abel_tree::earlier;
use pld_base::Place;

/// A value of a shape without X positions.
pub(crate) fn plain(shape: Shape) -> Checked
    ensures { result ≡ record { shape = Some shape; special = None; fault = None } }
{
    Checked {
        shape: Some(shape),
        special: None,
        fault: None,
    }
}

/// Refused.
fn refused(fault: SectionFault) -> Checked
    ensures { result ≡ record { shape = None; special = None; fault = Some fault } }
{
    Checked {
        shape: None,
        special: None,
        fault: Some(fault),
    }
}

/// `.X.`, and else `.C.` or `.Z.`.
pub(crate) fn check_special(letter: u8, place: Place) -> Checked
    ensures { SumsUp result (found_special letter place) }
{
    if letter == b'X' {
        Checked {
            special: Some(SectionFault::MisplacedSpecial(place)),
            ..plain(Shape::Single)
        }
    } else {
        refused(SectionFault::MisplacedSpecial(place))
    }
}

/// What is found of the name with this text, used at this place; one that is not declared is a number. Takes no memory.
pub(crate) fn checked_name(known: &KnownNames, text: &[u8], place: Place) -> Checked
    ensures { (es : List Entry) → IsKnown es known.now → SumsUp result (found_use place (name_found (names_found es) text.now)) }
{
    let Some(name) = known.get(text) else {
        return plain(Shape::Number(0));
    };
    if name.pulse {
        return refused(SectionFault::MisplacedSpecial(place));
    }
    match name.checked.special {
        None => name.checked,
        Some(_) => Checked {
            special: Some(SectionFault::MisplacedSpecial(place)),
            ..name.checked
        },
    }
}

/// A member that is a number is 0 or 1.
fn large(place: Place, shape: Option<Shape>) -> Option<SectionFault>
    ensures { (v : Option Value) → HasShapeIf shape v → result ≡ first_refusal section_order (large_member place v) }
{
    match shape {
        Some(Shape::Number(n)) => (n >= 2).then_some(SectionFault::BadWidth(place)),
        _ => None,
    }
}

/// How many positions a member gives.
fn part_width(shape: Option<Shape>) -> u8
    ensures { (v : Option Value) → HasShapeIf shape v → result ≡ width_with v }
{
    match shape {
        None => 0,
        Some(Shape::Number(_)) => 1,
        Some(Shape::Single) => 1,
        Some(Shape::Set(width)) => width,
    }
}

/// What is found of the members of a set so far: their X positions, their refusals and how many positions they have,
/// 255 if there are more.
#[derive(Clone, Copy, PartialEq, Eq)]
pub(crate) struct Members {
    special: Option<SectionFault>,
    fault: Option<SectionFault>,
    width: u8,
}

impl Members {
    pub(crate) fn new() -> Members
        ensures { (place : Place) → AreSummedUp place result [] }
    {
        Members {
            special: None,
            fault: None,
            width: 0,
        }
    }

    /// One member more.
    pub(crate) fn with(self, place: Place, part: Checked) -> Members
        ensures { (fs : List Found) (f : Found) → AreSummedUp place self fs → SumsUp part f → AreSummedUp place result (fs ++ f ∷ []) }
    {
        let fault = earlier(part.fault, large(place, part.shape));
        Members {
            special: earlier(self.special, part.special),
            fault: earlier(self.fault, fault),
            width: self.width.saturating_add(part_width(part.shape)),
        }
    }

    /// The set of these members, which has at most 32 positions.
    pub(crate) fn whole(self, place: Place) -> Checked
        ensures { (fs : List Found) → AreSummedUp place self fs → SumsUp result (found_set place fs) }
    {
        let wide = (self.width > 32).then_some(SectionFault::BadWidth(place));
        let fault = earlier(self.fault, wide);
        settled(Some(Shape::Set(self.width)), self.special, fault)
    }
}
