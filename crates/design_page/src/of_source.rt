//! The page of a source.

ghost use Rattle.std.specs.Prelude.{◌≡◌, ◌≤◌, ◌<◌, ◌^◌, length};
ghost use Rattle.abel_commands.specs.Limit.{limit};
ghost use Rattle.abel_tree.specs.View.{view_module};
ghost use Rattle.compile_phases.specs.Phases.{AreNamesFor};
ghost use Rattle.devices.specs.Models.{table_at};

use crate::costly::put_costly_outputs;
use crate::drawn::drawn_page;
use crate::head::Parts;
use crate::made::{Input, Made, joined, without_end};
use crate::outcome::outcome_of;
use crate::placed::placed_module;
use crate::refused::made_refused;
use crate::telling::put_vectors;
use crate::unfit::put_unfit;
use crate::vector_lines::vector_lines;
use crate::warned::put_warnings;
use abel_commands::{LIMIT, Taken, read_files_have_few_vectors, take_file};
use abel_compile::{CompileFault, Compiled, compile};
use abel_tree::{Module, Names};
use compile_phases::{module_of, names_of, parts_of};
use design_drawings::Design;
use devices::loaded_at;
use jedec_reader::FuseFile;
use page_model::page_model_of;
use pld_base::OutOfMemory;
use pld_device::{Device, Loaded};
use std::alloc::Global;
use std::marker::Brand;

/// The bytes of a string without its quotes.
fn unquoted(text: &[u8]) -> &[u8] {
    match text {
        [b'\'', inner @ .., b'\''] => inner,
        _ => text,
    }
}

/// The bytes of a module's title, none if it has none.
fn title_of(module: &Module) -> &[u8] {
    match &module.title {
        Some(title) => unquoted(title.text.bytes()),
        None => b"",
    }
}

/// A source that is compiled: its file, what results from it, and its placed module.
#[derive(Clone, Copy)]
struct Source<'a> {
    input: Input<'a>,
    compiled: &'a Compiled,
    module: &'a Module,
}

/// The lines of the warnings on a source.
fn warnings_on<D: Device>(
    device: &Loaded<D>,
    design: Design,
    module: &Module,
    input: Input,
) -> Result<Vec<u8>, CompileFault>
    requires names { AreNamesFor D.table (view_module module.now) design.names.now }
    requires within { length input.bytes.now ≤ limit }
{
    let mut text = Vec::new(design.alloc);
    put_warnings::<D>(device, &mut text, design, module, input)?;
    put_costly_outputs::<D>(device, &mut text, design, module, input)?;
    Ok(text)
}

/// The page of a source with these warnings, whose fuse file is read again.
fn made_of<D: Device>(
    device: &Loaded<D>,
    source: Source,
    design: Design,
    warnings: &[u8],
) -> Result<Made, OutOfMemory>
    requires text { length source.input.bytes.now ≤ limit }
    requires fuses { length design.file.now.fuses ≡ D.table.fuses }
    requires few { length design.file.now.vectors < 2 ^ 32 }
{
    let alloc = design.alloc;
    let outcome = outcome_of::<D>(alloc, device, design.file)?;
    let lines = vector_lines(alloc, source.module, source.input.bytes)?;
    let parts = Parts {
        name: source.module.name.text.bytes(),
        title: title_of(source.module),
        summary: without_end(&source.compiled.summary),
        file_name: source.input.name,
        file: &source.compiled.file,
        source: source.input.bytes,
        lines: &lines,
        warnings,
    };
    let mut made = Made {
        status: outcome.status(),
        report: joined(alloc, &[&source.compiled.summary])?,
        page: Some(drawn_page::<D>(device, design, parts, &outcome)?),
    };
    put_vectors::<D>(alloc, device, &mut made.report, &outcome)?;
    made.report.extend_from_slice(warnings)?;
    Ok(made)
}

/// The page of a source with these names, whose fuse file is this one.
fn made_with<D: Device>(
    alloc: Global,
    device: &Loaded<D>,
    source: Source,
    names: &Names,
    file: &FuseFile,
) -> Result<Made, CompileFault>
    requires names { AreNamesFor D.table (view_module source.module.now) names.now }
    requires within { length source.input.bytes.now ≤ limit }
    requires fuses { length file.now.fuses ≡ D.table.fuses }
    requires few { length file.now.vectors < 2 ^ 32 }
{
    let model = page_model_of::<D>(alloc, device, names, &file.fuses)?;
    let design = Design {
        alloc,
        names,
        file,
        model: &model,
    };
    let warnings = warnings_on::<D>(device, design, source.module, source.input)?;
    Ok(made_of::<D>(device, source, design, &warnings)?)
}

/// The page of a source that is compiled for this device. Its fuse file is taken as `simulate` takes one.
fn made_for<D: Device>(
    alloc: Global,
    input: Input,
    compiled: &Compiled,
    module: Module,
) -> Result<Made, CompileFault>
    requires table { table_at compiled.now.device ≡ D.table }
    requires within { length input.bytes.now ≤ limit }
{
    read_files_have_few_vectors();
    let device = loaded_at::<D>(compiled.device);
    let placed = placed_module::<D>(alloc, &device, module)?;
    let parts = parts_of(alloc, &placed)?;
    let names = names_of::<D>(alloc, &device, &parts)?;
    let bytes = compiled.file.as_slice();
    if bytes.len() > LIMIT {
        return Ok(Made::told(alloc, 4, &[b"error TooLong\n"])?);
    }
    let taken = take_file::<D>(alloc, &device, bytes)?;
    match taken {
        Taken::File(file) => {
            let source = Source {
                input,
                compiled,
                module: &placed,
            };
            made_with::<D>(alloc, &device, source, &names, &file)
        }
        Taken::Refused(line) => Ok(Made::told(alloc, 4, &[&line])?),
    }
}

/// The page of a source that is compiled, or why it is not.
fn made_compiled(alloc: Global, input: Input) -> Result<Made, CompileFault>
    requires { length input.bytes.now ≤ limit }
{
    let compiled = compile(alloc, input.bytes)?;
    let module = module_of(alloc, input.bytes)?;
    made_for::<Brand>(alloc, input, &compiled, module)
}

/// The page of a source that does not fit, with a line on each cell that is over its room.
fn made_unfit(alloc: Global, input: Input, line: &[u8]) -> Result<Made, OutOfMemory>
    requires { length input.bytes.now ≤ limit }
{
    let mut made = made_refused(alloc, input, line, 3)?;
    put_unfit(alloc, &mut made.report, input.bytes)?;
    Ok(made)
}

/// What results from a source: its page, and how `compile` and `simulate` end with it.
pub fn page_of_source(alloc: Global, input: Input) -> Result<Made, OutOfMemory>
    requires { length input.bytes.now ≤ limit }
{
    match made_compiled(alloc, input) {
        Ok(made) => Ok(made),
        Err(CompileFault::Source(_, line)) => made_refused(alloc, input, &line, 2),
        Err(CompileFault::Place(_, line)) => made_refused(alloc, input, &line, 3),
        Err(CompileFault::Fit(_, line)) => made_unfit(alloc, input, &line),
        Err(CompileFault::OutOfMemory) => Err(OutOfMemory),
    }
}
