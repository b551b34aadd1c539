//! Refusals with their lines.

ghost use Rattle.std.specs.Prelude.{◌≡◌, ℕ, List, Some, Err};
ghost use Rattle.compile_phases.specs.Prelude.{entries_of, ModuleTree, names_of, IsSoundNetlist, design_text, fit_text, FitAnswers, IsUnread, Table};
ghost use Rattle.decls.specs.declared.fault.NameFault.TheVariants as naming;
ghost use Rattle.compile_phases.specs.declared.fault.CompileFault.TheVariants as compiling;
ghost use Rattle.compile_phases.specs.declared.fault.SourceFault.TheVariants as source;
ghost use Rattle.compile_phases.specs.Lines.{name_text, section_text};
ghost use Rattle.placer.specs.Faults.{IsUnplaced};
ghost use Rattle.compile_phases.specs.Phases.{IsFitRefused, IsMade, IsOfPlacing, IsOfSource, IsTextFault, IsTold};
ghost use Rattle.compile_phases.specs.Placings.{IsUnplacedFor};

use crate::fault::{CompileFault, SourceFault};
use abel_tree::Names;
use bit_expr::Netlist;
use decls::NameFault;
use design::DesignFault;
use fitter::FitFault;
use module_reader::ReadFault;
use placer::PlaceFault;
use pld_base::OutOfMemory;
use pld_device::{Device, Loaded};
use reports::{design_line, fit_line, name_line, placing_line, read_line, section_line};
use set_expr::SectionFault;
use std::alloc::Global;

/// A refusal of the source with its line, if there was memory for that.
fn source_refused(fault: SourceFault, line: Result<Vec<u8>, OutOfMemory>) -> CompileFault
    ensures { IsOfSource (λ f text. (f ≡ fault) × IsMade line text) result }
{
    match line {
        Ok(line) => CompileFault::Source(fault, line),
        Err(OutOfMemory) => CompileFault::OutOfMemory,
    }
}

/// Why a text is no source.
pub(crate) fn unread(alloc: Global, fault: ReadFault) -> CompileFault
    ensures { (text : List ℕ) → IsUnread text fault → IsOfSource (IsTextFault text) result }
{
    let line = read_line(alloc, fault);
    match fault {
        ReadFault::Expand(fault) => source_refused(SourceFault::Expand(fault), line),
        ReadFault::Scan(fault) => source_refused(SourceFault::Scan(fault), line),
        ReadFault::Parse(fault) => source_refused(SourceFault::Parse(fault), line),
        ReadFault::OutOfMemory => CompileFault::OutOfMemory,
    }
}

/// Why names are refused.
pub(crate) fn unnamed(alloc: Global, fault: NameFault) -> CompileFault
    ensures { IsOfSource (λ f text. (f ≡ source.Names fault) × (name_text fault ≡ Some text)) result }
{
    let line = name_line(alloc, &fault);
    source_refused(SourceFault::Names(fault), line)
}

/// That memory is out: names of which nothing is refused have no other fault.
pub(crate) fn memory_alone(fault: NameFault) -> CompileFault
    requires { fault ≡ naming.OutOfMemory }
    ensures { result ≡ compiling.OutOfMemory }
{
    match fault {
        NameFault::OutOfMemory => CompileFault::OutOfMemory,
        _ => unreachable!(),
    }
}

/// Why a source can't be placed.
pub(crate) fn unplaced(alloc: Global, names: &Names, fault: PlaceFault) -> CompileFault
    requires { (t : Table) × (m : ModuleTree) × (entries_of names.now ≡ names_of t m) × IsUnplaced t m fault }
    ensures { (t : Table) (m : ModuleTree) → entries_of names.now ≡ names_of t m → IsUnplaced t m fault
        → IsOfPlacing (λ f line. IsUnplacedFor f line t m) result }
{
    match fault {
        PlaceFault::NoPlacement { signals, places } => {
            match placing_line(alloc, names, signals.as_slice(), places) {
                Ok(line) => CompileFault::Place(PlaceFault::NoPlacement { signals, places }, line),
                Err(OutOfMemory) => CompileFault::OutOfMemory,
            }
        }
        PlaceFault::OutOfMemory => CompileFault::OutOfMemory,
    }
}

/// Why sections are refused.
pub(crate) fn uncontributed(alloc: Global, names: &Names, fault: SectionFault) -> CompileFault
    ensures { IsOfSource (λ f text. (f ≡ source.Sections fault)
        × (section_text (entries_of names.now) fault ≡ Some text)) result }
{
    let line = section_line(alloc, names, &fault);
    source_refused(SourceFault::Sections(fault), line)
}

/// Why a design is refused.
pub(crate) fn undesigned(alloc: Global, names: &Names, fault: DesignFault) -> CompileFault
    ensures { IsOfSource (λ f text. (f ≡ source.Design fault)
        × (design_text (entries_of names.now) fault ≡ Some text)) result }
{
    let line = design_line(alloc, names, &fault);
    source_refused(SourceFault::Design(fault), line)
}

/// A refusal of the fit with its line; that a function is too wide is one of the source.
fn fit_refused(fault: FitFault, line: Vec<u8>) -> CompileFault
    ensures { IsTold fault line result }
{
    match fault {
        FitFault::TooWide(_) => CompileFault::Source(SourceFault::Width(fault), line),
        _ => CompileFault::Fit(fault, line),
    }
}

/// Why a netlist does not fit.
pub(crate) fn unfit<D: Device>(
    alloc: Global,
    device: &Loaded<D>,
    names: &Names,
    net: &Netlist,
    fault: FitFault,
) -> CompileFault
    requires sound { IsSoundNetlist D.table net.now }
    requires unfit { FitAnswers D.table net.now (Err fault) }
    ensures { IsFitRefused D.table (entries_of names.now) net.now result }
{
    match fit_line::<D>(alloc, device, names, net, &fault) {
        Ok(line) => fit_refused(fault, line),
        Err(OutOfMemory) => CompileFault::OutOfMemory,
    }
}
