//! What is kept of each name, and what expressions read by it.

ghost use Rattle.std.specs.Prelude.{◌≡◌, List, None, length, map, take, IfOk, IfSome};
ghost use Rattle.expr_bits.specs.Prelude.{list_any, Entry, entries_of, view, Context, known_of, term_named, term_of, name_items};
ghost use Rattle.name_uses.specs.Viewed.{view_use};
ghost use Rattle.expr_bits.specs.{Finds, IsReads, named_answer, named_term, used_answer, AreRows, IsKept, reads_at};

use crate::forms::Bits;
use crate::reads::Reads;
use abel_tree::{Expr, Extension};
use name_uses::{NameUse, names_used, range_list};
use pld_base::OutOfMemory;
use set_expr::Scope;
use std::alloc::Global;

/// What a name reads; the bits of a constant, under each extension with which it reads no leaf, if they are kept.
#[derive(Drop)]
pub(crate) struct Row {
    pub reads: Reads,
    pub bits: Option<Bits>,
}

impl Row {
    /// Nothing is kept.
    pub(crate) fn of(reads: Reads) -> Row
        ensures { result ≡ record { reads = reads; bits = None } }
    {
        Row { reads, bits: None }
    }
}

/// What the name with this number reads, of the names that have rows.
pub(crate) fn reads_at(rows: &[Row], number: usize) -> Reads
    ensures { result ≡ reads_at rows.now number }
{
    match rows.get(number) {
        Some(row) => row.reads,
        None => Reads::none(),
    }
}

/// The bits that are kept of a name under an extension.
pub(crate) fn bits_at<'a>(
    rows: &'a [Row],
    number: usize,
    extension: Option<Extension>,
) -> Option<&'a Bits>
    ensures { (es : List Entry) (d : Context) → AreRows es d 0 rows.now → IfSome result (λ b. IsKept d b.now (named_term es number extension)) }
{
    let Some(row) = rows.get(number) else {
        return None;
    };
    if row.reads.leaf(extension) {
        return None;
    }
    match &row.bits {
        Some(bits) => Some(bits),
        None => None,
    }
}

/// What the name with this text reads; one that has no row is a number.
fn text_reads(scope: &Scope<'_>, rows: &[Row], text: &[u8]) -> Reads
    ensures { (d : Context) → AreRows (entries_of scope.now) d 0 rows.now → IsReads d result (term_named (known_of (take (length rows.now) (entries_of scope.now))) text.now) }
{
    match scope.get(text) {
        Some(name) => reads_at(rows, name.number),
        None => Reads::none(),
    }
}

/// What these names read.
fn list_reads(scope: &Scope<'_>, rows: &[Row], names: &[Vec<u8>]) -> Reads
    ensures { (d : Context) → AreRows (entries_of scope.now) d 0 rows.now → Finds result
        (λ q. list_any (named_answer d (known_of (take (length rows.now) (entries_of scope.now))) q) (map name_items names.now)) }
{
    let mut reads = Reads::none();
    for name in names {
        reads = reads.with(text_reads(scope, rows, name.as_slice()));
    }
    reads
}

/// What is read where names are used, with the extension that counts for them.
fn used_reads(
    alloc: Global,
    scope: &Scope<'_>,
    rows: &[Row],
    used: &NameUse<'_>,
) -> Result<Reads, OutOfMemory>
    ensures { IfOk result (λ r. (d : Context) → AreRows (entries_of scope.now) d 0 rows.now → Finds r
        (λ q. used_answer d (known_of (take (length rows.now) (entries_of scope.now))) q (view_use used.now))) }
{
    let first = used.first.text.bytes();
    match used.last {
        None => Ok(text_reads(scope, rows, first).under(used.extension)),
        Some(last) => {
            let names = range_list(alloc, first, last.text.bytes())?;
            Ok(list_reads(scope, rows, names.as_slice()).under(used.extension))
        }
    }
}

/// What an expression over the names that have rows reads; constants are looked up.
pub(crate) fn expr_reads(
    alloc: Global,
    scope: &Scope<'_>,
    rows: &[Row],
    expr: &Expr,
) -> Result<Reads, OutOfMemory>
    ensures { IfOk result (λ r. (d : Context) → AreRows (entries_of scope.now) d 0 rows.now → IsReads d r (term_of (known_of (take (length rows.now) (entries_of scope.now))) (view expr.now))) }
{
    let uses = names_used(alloc, expr)?;
    let mut reads = Reads::none();
    for used in &uses {
        let here = used_reads(alloc, scope, rows, used)?;
        reads = reads.with(here);
    }
    Ok(reads)
}
