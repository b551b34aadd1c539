//! The line of the report on each refusal of a source.

ghost use Rattle.std.specs.Prelude.{◌≡◌, Some, IfOk};
ghost use Rattle.std.specs.Result.{result_ok};
ghost use Rattle.reports.specs.Prelude.{option_map, entries_of};
ghost use Rattle.reports.specs.RefusalTold.{told_line};
ghost use Rattle.reports.specs.SourceLines.{read_telling, name_telling, section_telling};

use crate::telling::Telling;
use crate::words::{of_names, of_reading, of_sections};
use abel_tree::Names;
use decls::NameFault;
use module_reader::ReadFault;
use pld_base::OutOfMemory;
use set_expr::SectionFault;
use std::alloc::Global;

/// The line of what there is to report, unless memory is out.
fn line(alloc: Global, telling: Result<Telling<'_>, OutOfMemory>) -> Result<Vec<u8>, OutOfMemory>
    ensures { IfOk result (λ line. option_map told_line (result_ok telling.entry) ≡ Some line.items) }
{
    match telling {
        Ok(telling) => telling.line(alloc),
        Err(memory) => Err(memory),
    }
}

/// `error NAME at LINE:COLUMN`, of a text that is no module. Lack of memory has no line.
pub fn read_line(alloc: Global, fault: ReadFault) -> Result<Vec<u8>, OutOfMemory>
    ensures { IfOk result (λ line. option_map told_line (read_telling fault) ≡ Some line.items) }
{
    line(alloc, of_reading(fault))
}

/// The same of names, with the name that is refused after the place.
pub fn name_line(alloc: Global, fault: &NameFault) -> Result<Vec<u8>, OutOfMemory>
    ensures { IfOk result (λ line. option_map told_line (name_telling fault.now) ≡ Some line.items) }
{
    line(alloc, of_names(fault))
}

/// The same of sections, over the names of the source.
pub fn section_line(
    alloc: Global,
    names: &Names,
    fault: &SectionFault,
) -> Result<Vec<u8>, OutOfMemory>
    ensures { IfOk result (λ line. option_map told_line (section_telling (entries_of names.now) fault.now) ≡ Some line.items) }
{
    line(alloc, of_sections(names, fault))
}
