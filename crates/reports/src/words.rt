//! The word, the place and the name of each refusal; of lack of memory there aren't any.

ghost use Rattle.std.specs.Prelude.{◌≡◌};
ghost use Rattle.std.specs.Result.{result_ok};
ghost use Rattle.reports.specs.Prelude.{option_map, entries_of};
ghost use Rattle.reports.specs.SourceLines.{expand_telling, scan_telling, parse_telling, read_telling, name_telling, name_of, name_of_some, section_telling};

use crate::telling::Telling;
use abel_expand::ExpandFault;
use abel_lexer::ScanFault;
use abel_parser::ParseFault;
use abel_tree::Names;
use decls::NameFault;
use module_reader::ReadFault;
use pld_base::OutOfMemory;
use set_expr::SectionFault;

fn of_expanding(fault: ExpandFault) -> Result<Telling<'static>, OutOfMemory>
    ensures { result_ok result ≡ expand_telling fault }
{
    match fault {
        ExpandFault::TooLong(place) => Ok(Telling::plain(b"TooLong", place)),
        ExpandFault::ExpansionLimit(place) => Ok(Telling::plain(b"ExpansionLimit", place)),
        ExpandFault::BadDirective(place) => Ok(Telling::plain(b"BadDirective", place)),
        ExpandFault::Unsupported(place) => Ok(Telling::plain(b"Unsupported", place)),
        ExpandFault::OutOfMemory => Err(OutOfMemory),
    }
}

fn of_scanning(fault: ScanFault) -> Result<Telling<'static>, OutOfMemory>
    ensures { result_ok result ≡ scan_telling fault }
{
    match fault {
        ScanFault::NotText(place) => Ok(Telling::plain(b"NotText", place)),
        ScanFault::BadNumber(place) => Ok(Telling::plain(b"BadNumber", place)),
        ScanFault::LongName(place) => Ok(Telling::plain(b"LongName", place)),
        ScanFault::Unsupported(place) => Ok(Telling::plain(b"Unsupported", place)),
        ScanFault::OutOfMemory => Err(OutOfMemory),
    }
}

fn of_parsing(fault: ParseFault) -> Result<Telling<'static>, OutOfMemory>
    ensures { result_ok result ≡ parse_telling fault }
{
    match fault {
        ParseFault::Syntax(place) => Ok(Telling::plain(b"Syntax", place)),
        ParseFault::TooDeep(place) => Ok(Telling::plain(b"TooDeep", place)),
        ParseFault::OutOfMemory => Err(OutOfMemory),
    }
}

/// Of a text that is no module.
pub(crate) fn of_reading(fault: ReadFault) -> Result<Telling<'static>, OutOfMemory>
    ensures { result_ok result ≡ read_telling fault }
{
    match fault {
        ReadFault::Expand(fault) => of_expanding(fault),
        ReadFault::Scan(fault) => of_scanning(fault),
        ReadFault::Parse(fault) => of_parsing(fault),
        ReadFault::OutOfMemory => Err(OutOfMemory),
    }
}

/// Of names.
pub(crate) fn of_names(fault: &NameFault) -> Result<Telling<'_>, OutOfMemory>
    ensures { result_ok result ≡ name_telling fault.now }
{
    match fault {
        NameFault::Redeclared(place, name) => Ok(Telling::named(
            b"Redeclared",
            *place,
            Some(name.bytes()),
        )),
        NameFault::UnknownDevice(place) => Ok(Telling::plain(b"UnknownDevice", *place)),
        NameFault::BadRange(place) => Ok(Telling::plain(b"BadRange", *place)),
        NameFault::BadPin(place, name) => Ok(Telling::named(b"BadPin", *place, Some(name.bytes()))),
        NameFault::PinTaken(place, name) => Ok(Telling::named(
            b"PinTaken",
            *place,
            Some(name.bytes()),
        )),
        NameFault::BadAttribute(place) => Ok(Telling::plain(b"BadAttribute", *place)),
        NameFault::TooManyNodes(place, name) => Ok(Telling::named(
            b"TooManyNodes",
            *place,
            Some(name.bytes()),
        )),
        NameFault::Undeclared(place, name) => Ok(Telling::named(
            b"Undeclared",
            *place,
            Some(name.bytes()),
        )),
        NameFault::OutOfMemory => Err(OutOfMemory),
    }
}

/// The name of a number.
pub fn name_of(names: &Names, number: usize) -> Option<&[u8]>
    ensures { option_map (λ n. n.now) result ≡ name_of (entries_of names.now) number }
{
    match names.list.as_slice().get(number) {
        Some(declared) => Some(declared.name.bytes()),
        None => None,
    }
}

/// Of sections.
pub(crate) fn of_sections<'a>(
    names: &'a Names,
    fault: &SectionFault,
) -> Result<Telling<'a>, OutOfMemory>
    ensures { result_ok result ≡ section_telling (entries_of names.now) fault.now }
{
    match *fault {
        SectionFault::MisplacedSpecial(place) => Ok(Telling::plain(b"MisplacedSpecial", place)),
        SectionFault::NotConstant(place) => Ok(Telling::plain(b"NotConstant", place)),
        SectionFault::ZeroDivisor(place) => Ok(Telling::plain(b"ZeroDivisor", place)),
        SectionFault::BadWidth(place) => Ok(Telling::plain(b"BadWidth", place)),
        SectionFault::NotAnOutput(place, None) => Ok(Telling::plain(b"NotAnOutput", place)),
        SectionFault::NotAnOutput(place, Some(number)) => {
            Ok(Telling::named(b"NotAnOutput", place, name_of(names, number)))
        }
        SectionFault::MixedAssignment(place, number) => {
            Ok(Telling::named(b"MixedAssignment", place, name_of(names, number)))
        }
        SectionFault::BadRow(place) => Ok(Telling::plain(b"BadRow", place)),
        SectionFault::BadState(place) => Ok(Telling::plain(b"BadState", place)),
        SectionFault::BadVector(place) => Ok(Telling::plain(b"BadVector", place)),
        SectionFault::NodeLimit(place) => Ok(Telling::plain(b"NodeLimit", place)),
        SectionFault::OutOfMemory => Err(OutOfMemory),
    }
}
