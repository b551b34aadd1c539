//! The netlist of all names.

ghost use Rattle.std.specs.Prelude.{◌≡◌, ◌<◌, ◌+◌, All, ℕ, length, IfOk, get_or};
ghost use Rattle.gathering.specs.Prelude.{arena, entries_of, Context, plain_netlist, no_pair, pair_of_cell, pair_of_pin, given, gathered_from};
ghost use Rattle.set_expr.specs.Answer.{IsContextOf};
ghost use Rattle.gathering.specs.{AllLieIn, Asks, AreLinks, AreIdsIn, IsPlaced};

use crate::asked::{Asked, Named, ask};
use crate::link::Link;
use crate::pairs::{pairs_of_cells, pairs_of_pins};
use abel_tree::Names;
use bit_expr::{Exprs, Netlist};
use pld_base::{ListOf, OutOfMemory};
use pld_device::{Device, Loaded};
use set_expr::{Contribution, Contributions};
use std::alloc::Global;

/// What all names ask.
fn ask_all<D: Device>(
    alloc: Global,
    device: &Loaded<D>,
    exprs: &mut Exprs,
    list: &[Contribution],
    names: &Names,
) -> Result<Asked, OutOfMemory>
    requires { AllLieIn (length (arena exprs.old)) list.now }
    ensures { IfOk result (λ asked.
        Asks D.table (arena exprs.old) (arena exprs.new) list.now (entries_of names.now) asked) }
{
    let mut asked = Asked {
        nodes: Vec::new(alloc),
        cells: Vec::new(alloc),
        signals: Vec::new(alloc),
        links: Vec::new(alloc),
    };
    for (number, declared) in names.list.as_slice().iter().enumerate() {
        let named = Named {
            device,
            number,
            declared,
        };
        ask::<D>(alloc, exprs, list, &named, &mut asked)?;
    }
    Ok(asked)
}

/// A netlist, and the signals of its nodes and cells in order of declaration: their numbers, and how they are read.
#[derive(Drop)]
pub struct Gathered {
    pub net: Netlist,
    pub signals: ListOf<usize>,
    pub links: ListOf<Link>,
}

/// The netlist of a module's names for a device, by all that the sections contribute: the functions of the nodes,
/// and what each assigned signal asks of its cell, over the arena of the contributions. Only nodes and assigned
/// pins of cells are summed up, each in the time of the list.
pub fn gather_up<D: Device>(
    alloc: Global,
    device: &Loaded<D>,
    names: &Names,
    found: Contributions,
) -> Result<Gathered, OutOfMemory>
    requires { AllLieIn (length (arena found.exprs)) found.list }
    ensures netlist { IfOk result (λ r. (d : Context) → IsContextOf D.table names.now d
        → plain_netlist r.net ≡ gathered_from d (given found)) }
    ensures links { IfOk result (λ r. (d : Context) → IsContextOf D.table names.now d
        → AreLinks d (given found) r.signals r.links) }
    ensures ids { IfOk result (λ r. AreIdsIn r.net) }
    ensures places { IfOk result (λ r. All (IsPlaced found.list) r.net.cells) }
    ensures pins { IfOk result (λ r.
        (p : ℕ) → p < 25 → get_or r.net.pair_of_pin p no_pair ≡ pair_of_pin D.table p) }
    ensures registers { IfOk result (λ r.
        (c : ℕ) → c < 25 → get_or r.net.pair_of_cell c no_pair ≡ pair_of_cell D.table c) }
{
    let mut exprs = found.exprs;
    let list = found.list;
    let asked = ask_all::<D>(alloc, device, &mut exprs, list.as_slice(), names)?;
    Ok(Gathered {
        net: Netlist {
            exprs,
            nodes: ListOf::from_vec(asked.nodes),
            cells: ListOf::from_vec(asked.cells),
            pair_of_pin: pairs_of_pins::<D>(device),
            pair_of_cell: pairs_of_cells::<D>(device),
        },
        signals: ListOf::from_vec(asked.signals),
        links: ListOf::from_vec(asked.links),
    })
}
