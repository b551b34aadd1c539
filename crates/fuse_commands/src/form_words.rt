//! The words after the files of `read` and `write`.

ghost use Rattle.std.specs.Prelude.{◌≡◌, option_map};
ghost use Rattle.std.specs.List.{list_all};
ghost use Rattle.form_commands.specs.Writing.{wanted_seen};
ghost use Rattle.fuse_commands.specs.FormWords.{form_of, is_printable, is_signature, mends_of, secured, signature_of, wanted_in, wanted_of};
ghost use Rattle.fuse_commands.specs.View.{texts};

use form_commands::Wanted;
use fuse_forms::Form;

/// Whether sums are to be mended, by the words after the files of `read`. Takes no memory.
pub fn mends_of(options: &[String]) -> Option<bool>
    ensures { result ≡ mends_of (texts options.now) }
{
    match options {
        [] => Some(false),
        [word] => {
            if word.as_str() == "mend" {
                Some(true)
            } else {
                None
            }
        }
        _ => None,
    }
}

/// The form that a word names. Takes no memory.
fn form_of(word: &str) -> Option<Form>
    ensures { result ≡ form_of word.now }
{
    if word == "jed" {
        Some(Form::Jed)
    } else if word == "jed5828" {
        Some(Form::Jed5828)
    } else if word == "jed5893" {
        Some(Form::Jed5893)
    } else if word == "bin" {
        Some(Form::Bin)
    } else {
        None
    }
}

/// Whether each byte is a printable character. Takes no memory.
fn are_printable(bytes: &[u8]) -> bool
    ensures { result ≡ list_all is_printable bytes.now }
{
    bytes.iter().all(|byte| *byte >= 32 && *byte <= 126)
}

/// Whether a text is one to eight printable characters. Takes no memory.
fn is_signature(text: &[u8]) -> bool
    ensures { result ≡ is_signature text.now }
{
    !text.is_empty() && text.len() < 9 && are_printable(text)
}

/// The text of a signature. Takes no memory.
fn signature_of<'a>(sign: &str, text: &'a str) -> Option<&'a str>
    ensures { option_map (λ text. text.now) result ≡ signature_of sign.now text.now }
{
    if sign == "sign" && is_signature(text.as_bytes()) {
        Some(text)
    } else {
        None
    }
}

/// A fuse file that forbids reading; the binary form can't. Takes no memory.
fn secured<'a>(form: Form, signature: Option<&'a str>, word: &str) -> Option<Wanted<'a>>
    ensures { option_map wanted_seen result
        ≡ secured form (option_map (λ text. text.now) signature.entry) word.now }
{
    if word == "secured" && form != Form::Bin {
        Some(Wanted {
            form,
            signature,
            secured: true,
        })
    } else {
        None
    }
}

/// What is to be written in a form, by the words after it. Takes no memory.
fn wanted_in<'a>(form: Form, options: &'a [String]) -> Option<Wanted<'a>>
    ensures { option_map wanted_seen result ≡ wanted_in form (texts options.now) }
{
    match options {
        [] => Some(Wanted {
            form,
            signature: None,
            secured: false,
        }),
        [word] => secured(form, None, word.as_str()),
        [sign, text] => {
            let text = signature_of(sign.as_str(), text.as_str())?;
            Some(Wanted {
                form,
                signature: Some(text),
                secured: false,
            })
        }
        [sign, text, word] => {
            let text = signature_of(sign.as_str(), text.as_str())?;
            secured(form, Some(text), word.as_str())
        }
        _ => None,
    }
}

/// What is to be written, by the words after the files of `write`. Takes no memory.
pub fn wanted_of<'a>(word: &str, options: &'a [String]) -> Option<Wanted<'a>>
    ensures { option_map wanted_seen result ≡ wanted_of word.now (texts options.now) }
{
    let form = form_of(word)?;
    wanted_in(form, options)
}
