//! The rows of a section, each asked what its section asks.

use crate::{lowered, minimised, operations, pairs, plans};
use std::alloc::Global;
use test_rows::{Found, Report, Section, halves};

/// Puts what is found of a row's text, as the section asks it.
fn ask(alloc: Global, section: &str, text: &str, found: &mut Found) -> Option<()> {
    match section {
        "pairs of cubes" => pairs::put_pair(text, found),
        "literals" => pairs::put_literal(text, found),
        "pools" => pairs::put_pool(alloc, found),
        "points that covers miss" => operations::put_missed(alloc, text, found),
        "cofactors" => operations::put_cofactor(alloc, text, found),
        "complements of cubes" => operations::put_complement(alloc, text, found),
        "rows of known functions" => minimised::put_known(alloc, text, found),
        "rows of functions that may have one more" => minimised::put_near(alloc, text, found),
        "products of ten comparisons" => minimised::put_comparisons(alloc, found),
        "products of formulas" => lowered::put_products(alloc, text, true, found),
        "products of complements" => lowered::put_products(alloc, text, false, found),
        "numbers of products" => lowered::put_count(alloc, text, found),
        "shared and deep formulas" => lowered::put_shared(alloc, text, found),
        "plans" => plans::put_fuses(alloc, text, found),
        _ => None,
    }
}

/// The report on a section.
pub(crate) fn report(alloc: Global, section: &Section) -> Found {
    let mut report = Report::new(alloc, section.name);
    for row in section.rows.as_slice() {
        let Some((text, wanted)) = halves(row.text) else {
            report.unread(row.number);
            continue;
        };
        let mut found = Found::new(alloc);
        if ask(alloc, section.name, text, &mut found).is_none() {
            found.text(" nothing");
        }
        report.row(row.number, wanted.as_bytes(), &found)
    }
    report.end()
}
