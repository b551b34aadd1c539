//! Places, shapes and refusals as a row gives them.

use crate::sources::ROW;
use abel_tree::Ranked;
use pld_base::Place;
use set_expr::{SectionFault, Shape};
use test_rows::Found;

/// The column, and the line too if it is another than the row's.
pub(crate) fn put_place(place: Place, found: &mut Found) {
    if place.line != ROW {
        found.number(place.line as usize);
        found.text(":");
    }
    found.number(place.column as usize)
}

/// Parts what results from what is there, if anything does.
pub(crate) fn put_blank(found: &mut Found) {
    if !found.bytes().is_empty() {
        found.text(" ")
    }
}

pub(crate) fn put_shape(shape: Shape, found: &mut Found) {
    match shape {
        Shape::Single => found.text("Single"),
        Shape::Number(number) => {
            found.text("Number ");
            found.number(number as usize)
        }
        Shape::Set(width) => {
            found.text("Set ");
            found.number(usize::from(width))
        }
    }
}

fn kind(fault: &SectionFault) -> &'static str {
    match *fault {
        SectionFault::MisplacedSpecial(_) => "MisplacedSpecial ",
        SectionFault::NotConstant(_) => "NotConstant ",
        SectionFault::ZeroDivisor(_) => "ZeroDivisor ",
        SectionFault::BadWidth(_) => "BadWidth ",
        SectionFault::NotAnOutput(_, _) => "NotAnOutput ",
        SectionFault::MixedAssignment(_, _) => "MixedAssignment ",
        SectionFault::BadRow(_) => "BadRow ",
        SectionFault::BadState(_) => "BadState ",
        SectionFault::BadVector(_) => "BadVector ",
        SectionFault::NodeLimit(_) => "NodeLimit ",
        SectionFault::OutOfMemory => "OutOfMemory ",
    }
}

/// The number of the name that a refusal reports.
fn name_of(fault: &SectionFault) -> Option<usize> {
    match *fault {
        SectionFault::NotAnOutput(_, name) => name,
        SectionFault::MixedAssignment(_, name) => Some(name),
        _ => None,
    }
}

/// A refusal with its place and its name, or `none`.
pub(crate) fn put_fault(fault: Option<SectionFault>, found: &mut Found) {
    let Some(fault) = fault else {
        found.text("none");
        return;
    };
    found.text(kind(&fault));
    put_place(fault.place(), found);
    if let Some(name) = name_of(&fault) {
        found.text(" name ");
        found.number(name)
    }
}
