//! Whether `.C.` or `.Z.` is in an expression, and what is refused inside an entry.

ghost use Rattle.std.specs.Prelude.{◌≡◌, IfOk};
ghost use Rattle.truth_tables.specs.Prelude.{entries_of, first_refusal, list_any, view, view_member, name_found, names_found, section_order};
ghost use Rattle.name_uses.specs.RangeParts.{name_items};
ghost use Rattle.truth_tables.specs.{holds_pulse, is_pulse_named, member_holds_pulse, operator_refused, refused_inside, member_refused_inside};

use abel_tree::{Expr, Member, earlier};
use name_uses::range_list;
use pld_base::OutOfMemory;
use set_expr::{Scope, SectionFault};
use std::alloc::Global;

/// Whether a name represents `.C.` or `.Z.`.
fn names_pulse(scope: &Scope<'_>, text: &[u8]) -> bool
    ensures { result ≡ is_pulse_named (names_found (entries_of scope.now)) text.now }
{
    scope.get(text).is_some_and(|name| name.pulse)
}

/// Whether one of these names represents one of them.
fn any_names_pulse(scope: &Scope<'_>, names: &[Vec<u8>]) -> bool
    ensures { result ≡ list_any (λ n. is_pulse_named (names_found (entries_of scope.now)) (name_items n)) names.now }
{
    names.iter().any(|name| names_pulse(scope, name.as_slice()))
}

/// Whether one of them is in a member.
#[cycle(pulses)]
fn member_holds(alloc: Global, scope: &Scope<'_>, member: &Member) -> Result<bool, OutOfMemory>
    ensures { IfOk result (λ b. b ≡ member_holds_pulse (names_found (entries_of scope.now)) (view_member member.now)) }
{
    match member {
        Member::One(expr) => holds_pulse(alloc, scope, expr),
        Member::Span { first, last } => {
            let names = range_list(alloc, first.text.bytes(), last.text.bytes())?;
            Ok(any_names_pulse(scope, names.as_slice()))
        }
    }
}

/// Whether `.C.` or `.Z.` is in an expression, or a name of one. Goes down the left side of operators in a loop, and
/// deeper by the nestings alone.
#[cycle(pulses)]
pub(crate) fn holds_pulse(
    alloc: Global,
    scope: &Scope<'_>,
    expr: &Expr,
) -> Result<bool, OutOfMemory>
    ensures { IfOk result (λ b. b ≡ holds_pulse (names_found (entries_of scope.now)) (view expr.now)) }
{
    let mut first = expr;
    let mut found = false;
    'down: loop {
        match first {
            Expr::Number(_) => return Ok(found),
            Expr::Special { letter, .. } => return Ok(found || *letter != b'X'),
            Expr::Name { word, .. } => {
                let holds = names_pulse(scope, word.text.bytes());
                return Ok(found || holds);
            }
            Expr::Set { members, .. } => {
                for member in members.as_slice() {
                    let holds = member_holds(alloc, scope, member)?;
                    found = found | holds;
                }
                return Ok(found);
            }
            Expr::Paren { inner, .. } => first = inner.get(),
            Expr::Unary { inner, .. } => first = inner.get(),
            Expr::Binary { left, right, .. } => {
                let holds = holds_pulse(alloc, scope, right.get())?;
                found = found | holds;
                first = left.get();
            }
        }
    }
}

/// What is refused of the declaration of a name.
fn refuse_name(scope: &Scope<'_>, text: &[u8]) -> Option<SectionFault>
    ensures { result ≡ first_refusal section_order (name_found (names_found (entries_of scope.now)) text.now).found.refusals }
{
    scope.get(text).and_then(|name| name.checked.fault)
}

/// What is refused of an operator in a row that is refused so.
fn refuse_operator(
    alloc: Global,
    scope: &Scope<'_>,
    row: SectionFault,
    expr: &Expr,
) -> Result<Option<SectionFault>, OutOfMemory>
    ensures { IfOk result (λ f. f ≡ first_refusal section_order (operator_refused (names_found (entries_of scope.now)) row (view expr.now))) }
{
    if holds_pulse(alloc, scope, expr)? {
        return Ok(Some(row));
    }
    let found = scope.check(alloc, expr)?;
    Ok(found.fault)
}

/// What is refused inside a member.
#[cycle(inside)]
fn refuse_member(
    alloc: Global,
    scope: &Scope<'_>,
    row: SectionFault,
    member: &Member,
) -> Result<Option<SectionFault>, OutOfMemory>
    ensures { IfOk result (λ f. f ≡ first_refusal section_order (member_refused_inside (names_found (entries_of scope.now)) row (view_member member.now))) }
{
    match member {
        Member::One(expr) => refuse_inside(alloc, scope, row, expr),
        Member::Span { first, last } => {
            let names = range_list(alloc, first.text.bytes(), last.text.bytes())?;
            let mut fault = None;
            for name in &names {
                fault = earlier(fault, refuse_name(scope, name.as_slice()));
            }
            Ok(fault)
        }
    }
}

/// The first refusal inside an entry of a row that is refused so, whose sets are taken member by member. Calls go as
/// deep as the nestings of sets and parentheses; constants are looked up.
#[cycle(inside)]
pub(crate) fn refuse_inside(
    alloc: Global,
    scope: &Scope<'_>,
    row: SectionFault,
    entry: &Expr,
) -> Result<Option<SectionFault>, OutOfMemory>
    ensures { IfOk result (λ f. f ≡ first_refusal section_order (refused_inside (names_found (entries_of scope.now)) row (view entry.now))) }
{
    match entry {
        Expr::Number(_) | Expr::Special { .. } => Ok(None),
        Expr::Name { word, .. } => Ok(refuse_name(scope, word.text.bytes())),
        Expr::Set { members, .. } => {
            let mut fault = None;
            for member in members.as_slice() {
                let found = refuse_member(alloc, scope, row, member)?;
                fault = earlier(fault, found);
            }
            Ok(fault)
        }
        Expr::Paren { inner, .. } => refuse_inside(alloc, scope, row, inner.get()),
        Expr::Unary { .. } => refuse_operator(alloc, scope, row, entry),
        Expr::Binary { .. } => refuse_operator(alloc, scope, row, entry),
    }
}
