//! Products inserted into lists.

ghost use Rattle.std.specs.Prelude.{◌≡◌, ◌≤◌, vec_len, IfOk, OnOk, Some, not};
ghost use Rattle.sop_lowering.specs.Prelude.{list_any, lies_in};
ghost use Rattle.sop_lowering.specs.Lowering.{IsList};
ghost use Rattle.sop_lowering.specs.Products.{adds_nothing, others, insert_one, insert_unions, product_of, sum_of};

use crate::fault::LowerFault;
use covers::Cube;
use std::alloc::Global;

/// How many products a list may have.
const MOST: usize = 1_024;

fn is_absorbed(rows: &[Cube], cube: Cube) -> bool
    ensures { result ≡ list_any (lies_in cube) rows.now }
{
    rows.iter().any(|row| cube.lies_in(*row))
}

fn adds_nothing(rows: &[Cube], cube: Cube) -> bool
    ensures { result ≡ adds_nothing rows.now cube }
{
    cube.is_empty() || is_absorbed(rows, cube)
}

/// Takes out the products that lie in the cube.
fn take_out(rows: &mut Vec<Cube>, cube: Cube)
    ensures { rows.new.items ≡ others rows.old.items cube }
{
    rows.retain(
        |row: &Cube| -> bool
            ensures { result ≡ not (lies_in row.now cube) }
        { !row.lies_in(cube) },
    );
}

/// Inserts a product.
fn insert(rows: &mut Vec<Cube>, cube: Cube) -> Result<(), LowerFault>
    ensures list { IsList (λ _. rows.new.items) result (insert_one (Some rows.old.items) cube) }
    ensures few { OnOk result (vec_len rows.old ≤ 1024 → vec_len rows.new ≤ 1024) }
{
    if adds_nothing(rows, cube) {
        return Ok(());
    }
    take_out(rows, cube);
    if rows.len() >= MOST {
        return Err(LowerFault::TooWide);
    }
    rows.push(cube)?;
    Ok(())
}

/// Inserts the unions of a product with each of a list.
fn insert_unions(rows: &mut Vec<Cube>, cube: Cube, list: &[Cube]) -> Result<(), LowerFault>
    ensures list { IsList (λ _. rows.new.items) result (insert_unions (Some rows.old.items) cube list.now) }
    ensures few { OnOk result (vec_len rows.old ≤ 1024 → vec_len rows.new ≤ 1024) }
{
    for other in list {
        insert(rows, cube.union(*other))?;
    }
    Ok(())
}

/// The list of a sum, by the lists of the two: the first, with each product of the second inserted. TooWide is answered
/// if that would be a 1,025th.
pub fn sum_list(first: Vec<Cube>, second: &[Cube]) -> Result<Vec<Cube>, LowerFault>
    ensures list { IsList (λ r. r.items) result (sum_of (Some first.items) (Some second.now)) }
    ensures few { IfOk result (λ r. vec_len first ≤ 1024 → vec_len r ≤ 1024) }
{
    let mut rows = first;
    for cube in second {
        insert(&mut rows, *cube)?;
    }
    Ok(rows)
}

/// The list of a product, by the lists of the two: the unions the first of each of with each of the second, inserted in
/// turn. TooWide is answered if one would be the 1,025th.
pub fn product_list(alloc: Global, first: &[Cube], second: &[Cube]) -> Result<Vec<Cube>, LowerFault>
    ensures list { IsList (λ r. r.items) result (product_of (Some first.now) (Some second.now)) }
    ensures few { IfOk result (λ r. vec_len r ≤ 1024) }
{
    let mut rows = Vec::new(alloc);
    for cube in first {
        insert_unions(&mut rows, *cube, second)?;
    }
    Ok(rows)
}
