//! Totals of a few lists over the two constants.

use crate::places::{put_number, put_place, put_word};
use crate::sources::ROW;
use abel_tree::Extension;
use bit_expr::{Control, ExprId, Exprs};
use gathering::{Totals, sum_up};
use pld_base::Place;
use set_expr::{Contribution, Gives, Target};
use std::alloc::Global;
use test_rows::Found;

const ZERO: ExprId = ExprId(0);

const ONE: ExprId = ExprId(1);

/// A contribution to the signal 5 by equations, at column 1 of line 1, which is never there.
const GIVEN: Contribution = Contribution {
    target: Target {
        signal: 5,
        extension: None,
    },
    complement: false,
    clocked: false,
    block: None,
    dontcare: false,
    what: Gives::One,
    when: ZERO,
    place: Place {
        line: ROW,
        column: 1,
    },
};

// W = 1; Y = 0; !Y.OE = 0; Y ?= 1;
const EQUATIONS: [Contribution; 4] = [
    Contribution {
        target: Target {
            signal: 4,
            extension: None,
        },
        when: ONE,
        ..GIVEN
    },
    GIVEN,
    Contribution {
        target: Target {
            signal: 5,
            extension: Some(Extension::Oe),
        },
        complement: true,
        place: Place {
            line: ROW,
            column: 30,
        },
        ..GIVEN
    },
    Contribution {
        what: Gives::Any,
        when: ONE,
        ..GIVEN
    },
];

// A table that is don't-care for Y gives it nothing and never matches.
const UNMATCHED: Contribution = Contribution {
    block: Some(0),
    dontcare: true,
    what: Gives::Match,
    ..GIVEN
};

const FREE: [Contribution; 1] = [UNMATCHED];

// After the table, Y.D = 1.
const FIXED: [Contribution; 2] = [
    UNMATCHED,
    Contribution {
        target: Target {
            signal: 5,
            extension: Some(Extension::D),
        },
        when: ONE,
        ..GIVEN
    },
];

// Y = 1; !Y = 1;
const BOTH: [Contribution; 2] = [
    Contribution { when: ONE, ..GIVEN },
    Contribution {
        complement: true,
        when: ONE,
        ..GIVEN
    },
];

// Y = 0; !Y ?= 1;
const LOOSE: [Contribution; 2] = [
    GIVEN,
    Contribution {
        complement: true,
        what: Gives::Any,
        when: ONE,
        ..GIVEN
    },
];

// After the table, a diagram that is don't-care for Y has !Y in it, and never matches.
const BOTH_FREE: [Contribution; 2] = [
    UNMATCHED,
    Contribution {
        complement: true,
        block: Some(1),
        ..UNMATCHED
    },
];

fn put_control(kind: &str, control: Option<Control>, found: &mut Found) {
    if let Some(control) = control {
        put_word(kind, found);
        put_number(control.bit.0, found);
        put_word("at", found);
        put_place(control.place, found)
    }
}

/// The bits at which a signal is 1 and may be either, of its complement or of the raw input of its register.
fn put_function(totals: &Totals, found: &mut Found) {
    put_word("one", found);
    put_number(totals.function.one.0, found);
    put_word("any", found);
    put_number(totals.function.any.0, found);
    if totals.function.complement {
        put_word("complement", found);
    }
    if totals.raw {
        put_word("raw", found);
    }
}

/// The place of a signal's first data target, and its controls.
fn put_controls(totals: &Totals, found: &mut Found) {
    if let Some(place) = totals.place {
        put_word("at", found);
        put_place(place, found);
    }
    put_control("enable", totals.controls.enable, found);
    put_control("reset", totals.controls.reset, found);
    put_control("preset", totals.controls.preset, found)
}

/// What the signal 5 is given by the contributions of a case.
#[tactic(auto, using(bit_expr::proofs::ArenaLists::arena_count))]
fn totals_of(alloc: Global, text: &str) -> Option<Totals> {
    let mut exprs = Exprs::new(alloc);
    let totals = match text {
        "equations" => sum_up(alloc, &mut exprs, &EQUATIONS, 5),
        "a table that never matches" => sum_up(alloc, &mut exprs, &FREE, 5),
        "both polarities" => sum_up(alloc, &mut exprs, &BOTH, 5),
        "a complement that may be 1" => sum_up(alloc, &mut exprs, &LOOSE, 5),
        "the table, then a diagram" => sum_up(alloc, &mut exprs, &BOTH_FREE, 5),
        _ => sum_up(alloc, &mut exprs, &FIXED, 5),
    };
    totals.ok()
}

/// What the signal 5 is given.
pub(crate) fn put_sum(alloc: Global, text: &str, found: &mut Found) -> Option<()> {
    let totals = totals_of(alloc, text)?;
    put_function(&totals, found);
    if text == "equations" {
        put_controls(&totals, found);
    }
    Some(())
}
