//! Places and refusals in words.

use abel_expand::ExpandFault;
use abel_lexer::ScanFault;
use abel_parser::ParseFault;
use pld_base::Place;
use test_rows::Found;

/// Puts a place as `LINE:COLUMN`.
pub fn put_place(found: &mut Found, place: Place) {
    found.number(place.line as usize);
    found.text(":");
    found.number(place.column as usize)
}

/// Puts the kind of a refusal and its place.
pub fn put_refusal(found: &mut Found, kind: &str, place: Place) {
    found.text(kind);
    found.text(" ");
    put_place(found, place)
}

/// Puts the refusal of a scan.
pub fn put_scan_fault(found: &mut Found, fault: ScanFault) {
    match fault {
        ScanFault::NotText(place) => put_refusal(found, "NotText", place),
        ScanFault::BadNumber(place) => put_refusal(found, "BadNumber", place),
        ScanFault::LongName(place) => put_refusal(found, "LongName", place),
        ScanFault::Unsupported(place) => put_refusal(found, "Unsupported", place),
        ScanFault::OutOfMemory => found.text("OutOfMemory"),
    }
}

/// Puts the refusal of an expansion.
pub fn put_expand_fault(found: &mut Found, fault: ExpandFault) {
    match fault {
        ExpandFault::TooLong(place) => put_refusal(found, "TooLong", place),
        ExpandFault::ExpansionLimit(place) => put_refusal(found, "ExpansionLimit", place),
        ExpandFault::BadDirective(place) => put_refusal(found, "BadDirective", place),
        ExpandFault::Unsupported(place) => put_refusal(found, "Unsupported", place),
        ExpandFault::OutOfMemory => found.text("OutOfMemory"),
    }
}

/// Puts the refusal of tokens.
pub fn put_parse_fault(found: &mut Found, fault: ParseFault) {
    match fault {
        ParseFault::Syntax(place) => put_refusal(found, "Syntax", place),
        ParseFault::TooDeep(place) => put_refusal(found, "TooDeep", place),
        ParseFault::OutOfMemory => found.text("OutOfMemory"),
    }
}
