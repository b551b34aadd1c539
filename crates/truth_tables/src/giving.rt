//! What outputs are given, position by position.

ghost use Rattle.std.specs.Prelude.{◌<◌, [], ◌∷◌, length};
ghost use Rattle.truth_tables.specs.Prelude.{arena, entries_of, Keeps, AreNamed};
ghost use Rattle.truth_tables.specs.{some_aims, GivesOutput, GivesMatched, GivesPosition, GivesPositions, GivesNoMatches};

use bit_expr::{ExprId, Exprs};
use pld_base::Place;
use section_targets::{Aim, Giver, Giving, give};
use set_expr::{Contribution, Gives, Guard, Scope, SectionFault};

/// How the unit at a place gives values to outputs, on the clock or not. The guard's bit doesn't count.
#[derive(Clone, Copy, PartialEq, Eq)]
pub struct Assigning {
    pub unit: Place,
    pub guard: Guard,
    pub clocked: bool,
}

/// What gives values to outputs if its bit is 1, as a row that matches, over the names of its source.
#[derive(Drop)]
pub struct Matching<'a> {
    pub scope: &'a Scope<'a>,
    pub assigning: Assigning,
    pub bit: ExprId,
}

/// Appends what an output is given if the bit is 1; makes no node.
pub fn give_output(
    matching: &Matching<'_>,
    what: Gives,
    aim: Aim,
    exprs: &mut Exprs,
    list: &mut Vec<Contribution>,
) -> Result<(), SectionFault>
    requires signal { aim.signal < length (entries_of matching.now.scope.now) }
    requires bit { matching.now.bit.0 < length (arena exprs.old) }
    ensures keeps { Keeps (arena exprs.old) (arena exprs.new) }
    ensures gives { GivesOutput matching.now.scope.now matching.now.assigning what aim matching.now.bit exprs.old exprs.new list.old.items list.new.items result }
{
    let assigning = matching.assigning;
    let giving = Giving {
        unit: assigning.unit,
        guard: Guard {
            when: matching.bit,
            ..assigning.guard
        },
        extension: None,
        complement: false,
        clocked: assigning.clocked,
        what,
    };
    let giver = Giver {
        scope: matching.scope,
        giving,
    };
    give(&giver, aim, ExprId(1), exprs, list)
}

/// Appends one or any, and then a match.
fn give_matched(
    matching: &Matching<'_>,
    what: Gives,
    aim: Aim,
    exprs: &mut Exprs,
    list: &mut Vec<Contribution>,
) -> Result<(), SectionFault>
    requires signal { aim.signal < length (entries_of matching.now.scope.now) }
    requires bit { matching.now.bit.0 < length (arena exprs.old) }
    ensures keeps { Keeps (arena exprs.old) (arena exprs.new) }
    ensures gives { GivesMatched matching.now.scope.now matching.now.assigning what aim matching.now.bit exprs.old exprs.new list.old.items list.new.items result }
{
    give_output(matching, what, aim, exprs, list)?;
    give_output(matching, Gives::Match, aim, exprs, list)
}

/// A position of a row: one for 1, any for X and nothing for 0, and then a match; an output that is X is given nothing.
fn give_position(
    matching: &Matching<'_>,
    output: Option<Aim>,
    level: Option<bool>,
    exprs: &mut Exprs,
    list: &mut Vec<Contribution>,
) -> Result<(), SectionFault>
    requires signal { AreNamed (length (entries_of matching.now.scope.now)) (some_aims (output ∷ [])) }
    requires bit { matching.now.bit.0 < length (arena exprs.old) }
    ensures keeps { Keeps (arena exprs.old) (arena exprs.new) }
    ensures gives { GivesPosition matching.now.scope.now matching.now.assigning output level matching.now.bit exprs.old exprs.new list.old.items list.new.items result }
{
    match output {
        None => Ok(()),
        Some(aim) => match level {
            None => give_matched(matching, Gives::Any, aim, exprs, list),
            Some(true) => give_matched(matching, Gives::One, aim, exprs, list),
            Some(false) => give_output(matching, Gives::Match, aim, exprs, list),
        },
    }
}

/// The positions of a row.
pub(crate) fn give_positions(
    matching: &Matching<'_>,
    outputs: &[Option<Aim>],
    levels: &[Option<bool>],
    exprs: &mut Exprs,
    list: &mut Vec<Contribution>,
) -> Result<(), SectionFault>
    requires signals { AreNamed (length (entries_of matching.now.scope.now)) (some_aims outputs.now) }
    requires bit { matching.now.bit.0 < length (arena exprs.old) }
    ensures keeps { Keeps (arena exprs.old) (arena exprs.new) }
    ensures gives { GivesPositions matching.now.scope.now matching.now.assigning outputs.now levels.now matching.now.bit exprs.old exprs.new list.old.items list.new.items result }
{
    let count = outputs.len().min(levels.len());
    for index in 0..count {
        give_position(matching, outputs[index], levels[index], exprs, list)?;
    }
    Ok(())
}

/// Appends no match for each output of a header, so that each has some contribution of the block; makes no node.
pub fn give_no_matches(
    scope: &Scope<'_>,
    assigning: Assigning,
    outputs: &[Option<Aim>],
    exprs: &mut Exprs,
    list: &mut Vec<Contribution>,
) -> Result<(), SectionFault>
    requires { AreNamed (length (entries_of scope.now)) (some_aims outputs.now) }
    ensures keeps { Keeps (arena exprs.old) (arena exprs.new) }
    ensures gives { GivesNoMatches scope.now assigning outputs.now exprs.old exprs.new list.old.items list.new.items result }
{
    let matching = Matching {
        scope,
        assigning,
        bit: ExprId(0),
    };
    for index in 0..outputs.len() {
        give_position(&matching, outputs[index], Some(false), exprs, list)?;
    }
    Ok(())
}
