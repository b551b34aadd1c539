//! From the last constant to the first: what is in a constant that is marked is marked.

ghost use Rattle.std.specs.Prelude.{◌≡◌, [], IfOk, OnOk, get_or, if◌then◌else◌, map, slice_get};
ghost use Rattle.declared_names.specs.Prelude.{view_declared, view, view_module, view_use};
ghost use Rattle.declared_names.specs.{all_marked, clear, IsNumbering, value_at, all_marks, given_by, uses_in, value_uses};

use crate::marks::{CLEAR, Mark, mark_of};
use crate::numbers::{FirstNames, Numbers};
use abel_tree::{Declared, Expr, Meaning};
use name_uses::{ModuleParts, NameUse, names_used, targets_in};
use pld_base::OutOfMemory;
use std::alloc::Global;

/// What of an expression is marked: what it names as a target, or what it reads.
#[derive(Clone, Copy)]
pub(crate) enum Follow {
    Targets,
    Reads,
}

/// The names of an expression that are marked.
fn uses_in(alloc: Global, expr: &Expr, follow: Follow) -> Result<Vec<NameUse<'_>>, OutOfMemory>
    ensures { IfOk result (λ uses. map view_use uses.items ≡ uses_in follow (view expr.now)) }
{
    match follow {
        Follow::Targets => targets_in(alloc, expr),
        Follow::Reads => names_used(alloc, expr),
    }
}

/// The names in the value of the name of this number that are marked; none if it is no constant.
fn value_uses<'a>(
    alloc: Global,
    names: &'a [Declared],
    number: usize,
    follow: Follow,
) -> Result<Vec<NameUse<'a>>, OutOfMemory>
    ensures { IfOk result (λ uses. map view_use uses.items
        ≡ value_uses follow (value_at (slice_get (map view_declared names.now) number))) }
{
    let Some(declared) = names.get(number) else {
        return Ok(Vec::new(alloc));
    };
    match &declared.meaning {
        Meaning::Constant(value) => uses_in(alloc, value, follow),
        _ => Ok(Vec::new(alloc)),
    }
}

impl Numbers {
    /// The marks of the names by what the sections assign, or by what they read, also through constants: from the last
    /// name to the first, what is in a constant that is marked is marked.
    pub(crate) fn marks_by(
        &self,
        alloc: Global,
        names: &[Declared],
        source: &ModuleParts<'_>,
        follow: Follow,
    ) -> Result<Vec<Mark>, OutOfMemory>
        requires { IsNumbering self.now (map view_declared names.now) }
        ensures { IfOk result (λ marks. marks.items
            ≡ all_marks follow (map view_declared names.now) (view_module source.now).sections) }
    {
        let mut marks = vec![in alloc; CLEAR; names.len()]?;
        let all = FirstNames {
            numbers: self,
            limit: names.len(),
        };
        let sections = source.sections();
        for section in sections {
            all.mark_parts(alloc, &mut marks, section.parts.as_slice(), follow)?;
        }
        let mut number = names.len();
        while 0 < number {
            number -= 1;
            let earlier = FirstNames {
                numbers: self,
                limit: number,
            };
            earlier.pass_last(alloc, &mut marks, names, follow)?;
        }
        Ok(marks)
    }
}

/// These uses, or none.
fn uses_if<'a, 'b>(asked: bool, uses: &'b [NameUse<'a>]) -> &'b [NameUse<'a>]
    ensures { map view_use result.now ≡ (if asked then map view_use uses.now else []) }
{
    if asked { uses } else { &[] }
}

impl FirstNames<'_> {
    /// Marks what is in the name after them by its mark, if it is a constant.
    fn pass_last(
        &self,
        alloc: Global,
        marks: &mut Vec<Mark>,
        names: &[Declared],
        follow: Follow,
    ) -> Result<(), OutOfMemory>
        requires { IsNumbering self.now.numbers.now (map view_declared names.now) }
        ensures { OnOk result (marks.new.items ≡ all_marked marks.old.items
            (given_by follow (map view_declared names.now) self.now.limit (get_or marks.old.items self.now.limit clear))) }
    {
        let mark = mark_of(marks.as_slice(), self.limit);
        let uses = value_uses(alloc, names, self.limit, follow)?;
        self.mark_uses(alloc, marks, false, uses_if(mark.plain, uses.as_slice()))?;
        self.mark_uses(alloc, marks, true, uses_if(mark.strong, uses.as_slice()))
    }
}
