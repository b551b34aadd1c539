//! `+` between single signals.

ghost use Rattle.std.specs.Prelude.{◌≡◌, ◌++◌, OnOk, map, option_map};
ghost use Rattle.std.specs.List.{flat_map};
ghost use Rattle.abel_tree.specs.Entries.{entries_of, is_signal, kind_of, names_any, view_meaning};
ghost use Rattle.abel_tree.specs.View.{view, view_stmt};
ghost use Rattle.name_uses.specs.Rolls.{view_when};
ghost use Rattle.reports.specs.Warnings.{is_single, is_sum, sum_if, sums_in, sums_in_statement};

use crate::warning::{Cause, Found};
use abel_tree::{Binary, Declared, Expr, Meaning, Names, Stmt, Unary, When};
use pld_base::{OutOfMemory, Place};

/// What a name is declared as.
fn declared<'a>(names: &'a Names, name: &[u8]) -> Option<&'a Declared>
    ensures { option_map (λ d. view_meaning d.now.meaning) result ≡ kind_of (entries_of names.now) name.now }
{
    for declared in names.list.as_slice() {
        if declared.name.bytes() == name {
            return Some(declared);
        }
    }
    None
}

/// Whether a name is that of a signal.
fn is_signal(names: &Names, name: &[u8]) -> bool
    ensures { result ≡ names_any is_signal (entries_of names.now) name.now }
{
    match declared(names, name) {
        Some(found) => matches!(&found.meaning, Meaning::Pin { .. } | Meaning::Node(_)),
        None => false,
    }
}

/// Whether an expression is a signal or an operation on single signals, and so one bit wide.
#[cycle(single)]
fn is_single(names: &Names, expr: &Expr) -> bool
    ensures { result ≡ is_single (entries_of names.now) (view expr.now) }
{
    match expr {
        Expr::Name { word, extension: _ } => is_signal(names, word.text.bytes()),
        Expr::Paren { place: _, inner } => is_single(names, inner.get()),
        Expr::Unary {
            sign: Unary::Not,
            place: _,
            inner,
        } => is_single(names, inner.get()),
        Expr::Binary {
            sign: Binary::And | Binary::Or | Binary::Xor | Binary::Xnor,
            place: _,
            left: _,
            right,
        } => is_single(names, right.get()),
        _ => false,
    }
}

/// Whether an operator is `+` between single signals.
fn is_sum(names: &Names, sign: Binary, left: &Expr, right: &Expr) -> bool
    ensures { result ≡ is_sum (entries_of names.now) sign (view left.now) (view right.now) }
{
    matches!(sign, Binary::Plus) && is_single(names, left) && is_single(names, right)
}

/// Gives an operator that is `+` between single signals.
fn find_sum(found: &mut Found, is_told: bool, place: Place) -> Result<(), OutOfMemory>
    ensures { OnOk result (found.new ≡ found.old ++ sum_if is_told place) }
{
    if is_told {
        found.add(Cause::PlusOfSingles, place, b"")?;
    }
    Ok(())
}

/// Finds each `+` of an expression that is between single signals.
#[cycle(sums)]
pub fn find_sums(found: &mut Found, names: &Names, expr: &Expr) -> Result<(), OutOfMemory>
    ensures { OnOk result (found.new ≡ found.old ++ sums_in (entries_of names.now) (view expr.now)) }
{
    let mut first = expr;
    'down: while let Expr::Binary {
        sign,
        place,
        left,
        right,
    } = first
    {
        let is_told = is_sum(names, *sign, left.get(), right.get());
        find_sum(found, is_told, *place)?;
        find_sums(found, names, right.get())?;
        first = left.get();
    }
    match first {
        Expr::Paren { place: _, inner } => find_sums(found, names, inner.get()),
        Expr::Unary {
            sign: _,
            place: _,
            inner,
        } => find_sums(found, names, inner.get()),
        _ => Ok(()),
    }
}

/// The same in a statement.
#[cycle(statements)]
pub fn find_in_statement(
    found: &mut Found,
    names: &Names,
    statement: &Stmt,
) -> Result<(), OutOfMemory>
    ensures { OnOk result (found.new
        ≡ found.old ++ sums_in_statement (entries_of names.now) (view_stmt statement.now)) }
{
    match statement {
        Stmt::Assign(assign) => find_sums(found, names, &assign.value),
        Stmt::When(when) => find_in_when(found, names, when),
        Stmt::Group(group) => find_in_statements(found, names, group.as_slice()),
        Stmt::DontCare(_) => Ok(()),
    }
}

/// The same in statements.
#[cycle(statements)]
pub fn find_in_statements(
    found: &mut Found,
    names: &Names,
    statements: &[Stmt],
) -> Result<(), OutOfMemory>
    ensures { OnOk result (found.new
        ≡ found.old ++ flat_map (sums_in_statement (entries_of names.now)) (map view_stmt statements.now)) }
{
    for statement in statements {
        find_in_statement(found, names, statement)?;
    }
    Ok(())
}

/// The same in a choice.
#[cycle(statements)]
fn find_in_when(found: &mut Found, names: &Names, when: &When) -> Result<(), OutOfMemory>
    ensures { OnOk result (found.new
        ≡ found.old ++ sums_in_statement (entries_of names.now) (view_when when.now)) }
{
    find_sums(found, names, &when.condition)?;
    find_in_statement(found, names, when.then.get())?;
    match &when.otherwise {
        Some(otherwise) => find_in_statement(found, names, otherwise.get()),
        None => Ok(()),
    }
}
