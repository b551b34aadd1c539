//! Signals of targets: what they are given, and what is refused of them.

ghost use Rattle.std.specs.Prelude.{◌≡◌, ◌<◌, true, length};
ghost use Rattle.abel_tree.specs.Entries.{entries_of};

use crate::places::{put_blank, put_fault, put_place};
use crate::sources::{ROW, Source, module_of, source_of};
use bit_expr::{Exprs, Leaf, Node};
use pld_base::Place;
use pld_device::{Sample, load};
use section_targets::{Aim, Assigned, Giver, Giving, Way, add_node, check_aims, give};
use set_expr::{Contribution, Gives, Guard, Scope};
use std::alloc::Global;
use test_rows::Found;

const UNIT: Place = Place {
    line: ROW,
    column: 7,
};

/// The complement of the second name at column 4.
const SECOND: Aim = Aim {
    signal: 1,
    place: Place {
        line: ROW,
        column: 4,
    },
};

/// The third name at column 8.
const THIRD: Aim = Aim {
    signal: 2,
    place: Place {
        line: ROW,
        column: 8,
    },
};

fn are_three(scope: &Scope<'_>) -> bool
    ensures { result ≡ true → 2 < length (entries_of scope.now) }
{
    scope.list().len() > 2
}

fn giving(guard: Guard) -> Giving
    ensures { result.guard ≡ guard }
{
    Giving {
        unit: UNIT,
        guard,
        extension: None,
        complement: false,
        clocked: true,
        what: Gives::One,
    }
}

fn put_contribution(list: &[Contribution], found: &mut Found) {
    for given in list {
        found.text("bit ");
        found.number(given.when.0);
        found.text(if given.dontcare {
            ", don't-care, at "
        } else {
            ", at "
        });
        put_place(given.place, found)
    }
}

/// What the third name is given where pin 2 is 1, under the guard that it is, in the block 4.
fn put_given(alloc: Global, scope: &Scope<'_>, found: &mut Found) -> Option<()> {
    let mut exprs = Exprs::new(alloc);
    let Ok(bit) = add_node(&mut exprs, Node::Leaf(Leaf::Pin(2)), UNIT) else {
        return None;
    };
    let guard = Guard {
        when: bit,
        dontcare: false,
        block: Some(4),
    };
    if !are_three(scope) {
        return None;
    }
    let mut list: Vec<Contribution> = Vec::new(alloc);
    let giver = Giver {
        scope,
        giving: giving(guard),
    };
    match give(&giver, THIRD, bit, &mut exprs, &mut list) {
        Ok(()) => put_contribution(list.as_slice(), found),
        Err(_) => return None,
    }
    Some(())
}

/// What is refused of the second name as data, or of its complement, on the clock or not.
fn put_data(
    scope: &Scope<'_>,
    complement: bool,
    clocked: bool,
    before: &mut Assigned,
    found: &mut Found,
) -> Option<()> {
    if !are_three(scope) {
        return None;
    }
    let aims = [SECOND];
    put_blank(found);
    let way = Way {
        extension: None,
        complement,
        clocked,
    };
    let device = load::<Sample, Sample>(&Sample);
    match check_aims::<Sample>(&device, scope, way, &aims, before) {
        Ok(fault) => put_fault(fault, found),
        Err(_) => return None,
    }
    found.text(";");
    Some(())
}

/// What is refused of the second name, and then of it or its complement, on the clock or not.
fn put_refused(
    alloc: Global,
    scope: &Scope<'_>,
    complement: bool,
    clocked: bool,
    found: &mut Found,
) -> Option<()> {
    let mut before = Assigned::new(alloc);
    put_data(scope, false, false, &mut before, found)?;
    put_data(scope, complement, clocked, &mut before, found)
}

/// Puts what results from a case.
pub(crate) fn ask(alloc: Global, names: &Found, text: &str, found: &mut Found) -> Option<()> {
    let module = module_of(alloc, names, "", "", "")?;
    let Source { module: _, names } = source_of::<Sample>(
        alloc,
        &load::<Sample, Sample>(&Sample),
        module,
    )?;
    let scope = Scope::new(alloc, &names).ok()?;
    match text {
        "an and with the guard" => put_given(alloc, &scope, found),
        "the name and its complement" => put_refused(alloc, &scope, true, false, found),
        "the name, then on the clock" => put_refused(alloc, &scope, false, true, found),
        _ => None,
    }
}
