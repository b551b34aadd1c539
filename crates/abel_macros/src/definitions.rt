//! Definitions of macros ahead, after their names.

ghost use Rattle.std.specs.Prelude.{◌≡◌, ◌≤◌, option_map, true, false, Some, None, IfOk, IfSome, IfNone};
ghost use Rattle.abel_macros.specs.Prelude.{ahead};
ghost use Rattle.abel_macros.specs.Pieces.{names};
ghost use Rattle.abel_macros.specs.Rules as spec;
ghost use Rattle.abel_macros.specs.Forms as forms;

use crate::blocks::read_block;
use crate::gaps::{is_next, skip_any, skip_byte, skip_gap};
use crate::tables::Macro;
use crate::words::read_name;
use std::alloc::{AllocError, Global};
use text_pieces::Ahead;

/// Reads the word MACRO, blanks and comments before it passed over.
pub fn skip_macro_word(alloc: Global, at: &mut Ahead) -> Result<bool, AllocError>
    ensures yes { IfOk result (λ o. o ≡ true → spec.macro_word (ahead at.old) ≡ Some (ahead at.new)) }
    ensures no { IfOk result (λ o. o ≡ false → spec.macro_word (ahead at.old) ≡ None) }
    ensures whole { at.new.whole ≡ at.old.whole }
    ensures further { at.old.passed ≤ at.new.passed }
{
    match read_name(alloc, at)? {
        Some(word) => Ok(b"MACRO".eq_ignore_ascii_case(&word)),
        None => Ok(false),
    }
}

/// Reads the names in front of a closing parenthesis, and passes it; at most so many.
#[tactic(auto, using(crate::proofs::Lists::parameter_none, crate::proofs::Lists::parameter_last, crate::proofs::Lists::parameter_broken, crate::proofs::Lists::parameter_next, crate::proofs::Lists::parameters_out, crate::proofs::Lists::names_push))]
pub fn read_parameters_in(
    alloc: Global,
    at: &mut Ahead,
    most: usize,
) -> Result<Option<Vec<Vec<u8>>>, AllocError>
    ensures some { IfOk result (λ o. IfSome o (λ w. forms.parameters_in most (ahead at.old) ≡ Some (names w.items, ahead at.new))) }
    ensures none { IfOk result (λ o. IfNone o (forms.parameters_in most (ahead at.old) ≡ None)) }
    ensures whole { at.new.whole ≡ at.old.whole }
    ensures further { at.old.passed ≤ at.new.passed }
{
    let mut parameters = Vec::new(alloc);
    let mut more = most;
    'parameters: while more > 0 {
        let Some(name) = read_name(alloc, at)? else {
            return Ok(None);
        };
        parameters.push(name)?;
        skip_gap(at);
        if skip_byte(at, b')') {
            return Ok(Some(parameters));
        }
        if !skip_byte(at, b',') {
            return Ok(None);
        }
        more -= 1;
    }
    Ok(None)
}

/// Reads the parameters of a definition, if it has them.
fn read_heading(alloc: Global, at: &mut Ahead) -> Result<Option<Option<Vec<Vec<u8>>>>, AllocError>
    ensures some { IfOk result (λ o. IfSome o (λ h. spec.heading (ahead at.old) ≡ Some (option_map (λ ps. names ps.items) h, ahead at.new))) }
    ensures none { IfOk result (λ o. IfNone o (spec.heading (ahead at.old) ≡ None)) }
    ensures whole { at.new.whole ≡ at.old.whole }
    ensures further { at.old.passed ≤ at.new.passed }
{
    let most = at.left();
    let mut look = at.fork();
    skip_gap(&mut look);
    if !is_next(&look, b'(') {
        return Ok(Some(None));
    }
    skip_gap(at);
    skip_any(at);
    match read_parameters_in(alloc, at, most)? {
        Some(parameters) => Ok(Some(Some(parameters))),
        None => Ok(None),
    }
}

/// Passes a semicolon that may follow blanks and comments, with these.
fn skip_semicolon(at: &mut Ahead)
    ensures ahead { ahead at.new ≡ spec.optional_semicolon (ahead at.old) }
    ensures whole { at.new.whole ≡ at.old.whole }
    ensures further { at.old.passed ≤ at.new.passed }
{
    let mut look = at.fork();
    skip_gap(&mut look);
    if is_next(&look, b';') {
        skip_gap(at);
        skip_any(at);
    }
}

/// Reads a macro's parameters and block after the word MACRO.
pub fn read_macro<'a>(
    alloc: Global,
    at: &mut Ahead<'_, 'a>,
) -> Result<Option<Macro<'a>>, AllocError>
    ensures some { IfOk result (λ o. IfSome o (λ m. spec.macro_form (ahead at.old) ≡ Some (m, ahead at.new))) }
    ensures none { IfOk result (λ o. IfNone o (spec.macro_form (ahead at.old) ≡ None)) }
    ensures whole { at.new.whole ≡ at.old.whole }
    ensures further { at.old.passed ≤ at.new.passed }
{
    match read_heading(alloc, at)? {
        Some(parameters) => match read_block(alloc, at)? {
            Some(block) => {
                skip_semicolon(at);
                Ok(Some(Macro::new(parameters, block)))
            }
            None => Ok(None),
        },
        None => Ok(None),
    }
}
