//! What signals are given under a guard.

ghost use Rattle.std.specs.Prelude.{◌≡◌, ◌<◌, List, length};
ghost use Rattle.section_targets.specs.Prelude.{arena, Formula, entries_of, is_dontcare, Context, name_at, Keeps, view_guard};
ghost use Rattle.section_targets.specs.{AreNamed, AreIn, GivesOne, GivesAll};

use crate::aim::Aim;
use crate::nodes::add_node;
use abel_tree::{Attributes, Extension};
use bit_expr::{ExprId, Exprs, Node};
use bitflags::Flags;
use pld_base::Place;
use set_expr::{Contribution, Gives, Guard, Scope, SectionFault, Target};

/// How the unit at a place gives values to signals: under a guard, to what an extension names of them or to the
/// complement, on the clock or not.
#[derive(Clone, Copy, PartialEq, Eq)]
pub struct Giving {
    pub unit: Place,
    pub guard: Guard,
    pub extension: Option<Extension>,
    pub complement: bool,
    pub clocked: bool,
    pub what: Gives,
}

/// How signals are given values, over the names of their source.
#[derive(Clone, Copy)]
pub struct Giver<'a> {
    pub scope: &'a Scope<'a>,
    pub giving: Giving,
}

/// Whether the block that the guard is in is don't-care for the signal.
fn is_free(scope: &Scope<'_>, guard: Guard, signal: usize) -> bool
    requires { signal < length (entries_of scope.now) }
    ensures { (d : Context) (fs : List Formula) → d.names ≡ entries_of scope.now → result ≡ is_dontcare (view_guard fs guard) (name_at d signal) guard.block }
{
    let attributes = scope.list()[signal].attributes;
    guard.block.is_some() && (guard.dontcare || attributes.contains(Attributes::DC))
}

/// Appends what a signal is given if the guard and this bit are 1.
pub fn give(
    giver: &Giver<'_>,
    aim: Aim,
    bit: ExprId,
    exprs: &mut Exprs,
    list: &mut Vec<Contribution>,
) -> Result<(), SectionFault>
    requires signal { aim.signal < length (entries_of giver.now.scope.now) }
    requires guard { giver.now.giving.guard.when.0 < length (arena exprs.old) }
    requires bit { bit.0 < length (arena exprs.old) }
    ensures keeps { Keeps (arena exprs.old) (arena exprs.new) }
    ensures builds { GivesOne giver.now.scope.now giver.now.giving aim bit
        exprs.old exprs.new list.old.items list.new.items result }
{
    let giving = giver.giving;
    let when = add_node(exprs, Node::And(giving.guard.when, bit), giving.unit)?;
    list.push(Contribution {
        target: Target {
            signal: aim.signal,
            extension: giving.extension,
        },
        complement: giving.complement,
        clocked: giving.clocked,
        block: giving.guard.block,
        dontcare: is_free(giver.scope, giving.guard, aim.signal),
        what: giving.what,
        when,
        place: aim.place,
    })?;
    Ok(())
}

/// Appends what the signals of a target are given, each its bit, from the left.
pub fn give_all(
    giver: &Giver<'_>,
    aims: &[Aim],
    bits: &[ExprId],
    exprs: &mut Exprs,
    list: &mut Vec<Contribution>,
) -> Result<(), SectionFault>
    requires signals { AreNamed (length (entries_of giver.now.scope.now)) aims.now }
    requires guard { giver.now.giving.guard.when.0 < length (arena exprs.old) }
    requires bits { AreIn (length (arena exprs.old)) bits.now }
    requires each { length bits.now ≡ length aims.now }
    ensures keeps { Keeps (arena exprs.old) (arena exprs.new) }
    ensures builds { GivesAll giver.now.scope.now giver.now.giving aims.now bits.now
        exprs.old exprs.new list.old.items list.new.items result }
{
    for index in 0..aims.len() {
        give(giver, aims[index], bits[index], exprs, list)?;
    }
    Ok(())
}
