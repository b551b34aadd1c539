//! What the positions of expressions are, by those of the names in them.

ghost use Rattle.std.specs.Prelude.{◌≡◌, IfOk};
ghost use Rattle.design_checks.specs.Prelude.{view, view_member, Context, NoTerm, member_before, term_of};
ghost use Rattle.design_checks.specs.{Knows, all_positions, positions_of};

use crate::front::Positions;
use crate::names::KeptUses;
use abel_tree::{Expr, Member, Unary};
use name_uses::range_list;
use pld_base::OutOfMemory;
use std::alloc::Global;

/// Of a member of a set.
#[cycle(positions)]
fn member_positions(
    alloc: Global,
    names: &KeptUses<'_, '_>,
    member: &Member,
) -> Result<Positions, OutOfMemory>
    ensures { IfOk result (λ p. (d : Context) → Knows d names.now
        → p ≡ all_positions d (member_before d.known (view_member member.now) NoTerm)) }
{
    match member {
        Member::One(expr) => positions_of(alloc, names, expr),
        Member::Span { first, last } => {
            let list = range_list(alloc, first.text.bytes(), last.text.bytes())?;
            let mut positions = Positions::none();
            for name in &list {
                let next = names.get(name.as_slice()).positions;
                positions = positions.with(next);
            }
            Ok(positions)
        }
    }
}

/// Of an expression. Calls go as deep as the nestings of sets, complements and parentheses; constants are looked up.
#[cycle(positions)]
pub(crate) fn positions_of(
    alloc: Global,
    names: &KeptUses<'_, '_>,
    expr: &Expr,
) -> Result<Positions, OutOfMemory>
    ensures { IfOk result (λ p. (d : Context) → Knows d names.now
        → p ≡ positions_of d (term_of d.known (view expr.now))) }
{
    match expr {
        Expr::Name { word, .. } => Ok(names.get(word.text.bytes()).positions),
        Expr::Set { members, .. } => {
            let mut positions = Positions::none();
            for member in members.as_slice() {
                let next = member_positions(alloc, names, member)?;
                positions = positions.with(next);
            }
            Ok(positions)
        }
        Expr::Paren { inner, .. } => positions_of(alloc, names, inner.get()),
        Expr::Unary { sign, inner, .. } => match sign {
            Unary::Not => {
                let inner = positions_of(alloc, names, inner.get())?;
                Ok(Positions {
                    by_pin: true,
                    ..inner
                })
            }
            Unary::Minus => Ok(Positions::other()),
        },
        Expr::Special { .. } => Ok(Positions::other()),
        Expr::Number(_) | Expr::Binary { .. } => Ok(Positions::other()),
    }
}
