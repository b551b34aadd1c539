//! The lines of the report on a form.

ghost use Rattle.std.specs.Prelude.{◌≡◌, IfOk};
ghost use Rattle.form_commands.specs.Writing.{form_text, no_form_line, no_signature_line, wrote_line};

use fuse_forms::Form;
use fuse_reports::put_numbered;
use pld_base::OutOfMemory;
use pld_device::{Device, Loaded};
use std::alloc::Global;

/// The word of a form. Takes no memory.
fn form_text(form: Form) -> &'static [u8]
    ensures { result.now ≡ form_text form }
{
    match form {
        Form::Jed => b"jed",
        Form::Jed5828 => b"jed5828",
        Form::Jed5893 => b"jed5893",
        Form::Bin => b"bin",
    }
}

/// The line on a form that was written.
pub fn wrote_line(alloc: Global, form: Form, count: usize) -> Result<Vec<u8>, OutOfMemory>
    ensures { IfOk result (λ v. v.items ≡ wrote_line form count) }
{
    let mut line = Vec::from_slice(alloc, b"wrote ")?;
    line.extend_from_slice(form_text(form))?;
    put_numbered(alloc, &mut line, b" bytes ", count)?;
    line.push(b'\n')?;
    Ok(line)
}

/// The line on a file that a form can't hold.
pub fn no_form_line<D: Device>(
    alloc: Global,
    device: &Loaded<D>,
    form: Form,
) -> Result<Vec<u8>, OutOfMemory>
    ensures { IfOk result (λ v. v.items ≡ no_form_line D.table form) }
{
    let mut line = Vec::from_slice(alloc, b"error NoForm ")?;
    line.extend_from_slice(form_text(form))?;
    line.push(b' ')?;
    line.extend_from_slice(device.name().text().as_bytes())?;
    line.push(b'\n')?;
    Ok(line)
}

/// The line on a device without a signature.
pub fn no_signature_line<D: Device>(
    alloc: Global,
    device: &Loaded<D>,
) -> Result<Vec<u8>, OutOfMemory>
    ensures { IfOk result (λ v. v.items ≡ no_signature_line D.table) }
{
    let mut line = Vec::from_slice(alloc, b"error NoSignature ")?;
    line.extend_from_slice(device.name().text().as_bytes())?;
    line.push(b'\n')?;
    Ok(line)
}
