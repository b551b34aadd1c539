//! The place of a byte of the expanded text in the source.

ghost use Rattle.std.specs.Prelude.{◌≡◌, ◌<◌, ◌≤◌, ◌+◌};
ghost use Rattle.abel_expand.specs.declared.standing.Origin.TheVariants as origin;
ghost use Rattle.abel_expand.specs.Origins.{goes_on, lesser};

/// What a byte of the expanded text is of.
#[derive(Clone, Copy)]
pub enum Origin {
    /// The source, which has it there.
    Source,
    /// A comment or a directive that begins there: its space, its line feeds.
    Form,
    /// What a macro or a directive represents that is called there.
    Call,
}

/// The place of a byte of the expanded text in the source.
#[derive(Clone, Copy)]
pub struct Standing {
    pub offset: usize,
    pub origin: Origin,
}

/// The place of a byte of the rest, from which on so many are left; so many at the end of the rest are the source's own.
pub fn copied_at(length: usize, own: usize, left: usize, call: usize) -> Standing
    requires own { own ≤ length }
    requires call { call ≤ length }
    ensures source { result.origin ≡ origin.Source → (left ≤ own) × (result.offset + left ≡ length) }
    ensures call { result.origin ≡ origin.Call → own < left }
    ensures before { own < left → result.origin ≡ origin.Call }
    ensures within { result.offset ≤ length }
    ensures place { result.offset ≡ goes_on length own left call }
{
    if left <= own {
        Standing {
            offset: length - left,
            origin: Origin::Source,
        }
    } else {
        Standing {
            offset: call,
            origin: Origin::Call,
        }
    }
}

/// The place of a byte that is said for a form; from it on so many are left.
pub fn said_at(own: usize, left: usize, form: usize) -> Standing
    ensures source { result.origin ≡ origin.Source → ⊥ }
    ensures call { result.origin ≡ origin.Call → own < left }
    ensures before { own < left → result.origin ≡ origin.Call }
    ensures form { result.offset ≡ form }
{
    let origin = if left <= own {
        Origin::Form
    } else {
        Origin::Call
    };
    Standing {
        offset: form,
        origin,
    }
}

/// What is left of the source's own end where so many bytes follow a rewriting.
pub fn own_behind(own: usize, left: usize) -> usize
    ensures { result ≡ lesser own left }
{
    if left < own { left } else { own }
}
