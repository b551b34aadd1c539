//! The marks of names: what targets name, and what is read.

ghost use Rattle.std.specs.Prelude.{◌≡◌, get_or};
ghost use Rattle.declared_names.specs.{clear, hit};

/// How a name is named: plainly, and strongly, which is as a target on the clock or by a read of its Q.
#[derive(Clone, Copy)]
pub(crate) struct Mark {
    pub(crate) plain: bool,
    pub(crate) strong: bool,
}

/// The mark of what nothing names.
pub(crate) const CLEAR: Mark = Mark {
    plain: false,
    strong: false,
};

/// The mark of a name.
pub(crate) fn mark_of(marks: &[Mark], number: usize) -> Mark
    ensures { result ≡ get_or marks.now number clear }
{
    *marks.get(number).unwrap_or(&CLEAR)
}

/// The name of this number is named once more.
pub(crate) fn mark_number(marks: &mut Vec<Mark>, number: usize, strong: bool)
    ensures { marks.new.items ≡ hit strong marks.old.items number }
{
    if number < marks.len() {
        if strong {
            marks[number].strong = true;
        } else {
            marks[number].plain = true;
        }
    }
}
