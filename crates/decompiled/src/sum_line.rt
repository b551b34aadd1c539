//! Sums of products, and the lines that assign them.

ghost use Rattle.std.specs.Prelude.{◌≡◌, ◌++◌, OnOk, codes};
ghost use Rattle.decompiled.specs.SourceText.{line_text, literal_text, product_text, sum_text, target_text};

use crate::literal::{PinLiteral, put_extension, put_name, put_sign};
use abel_tree::Extension;
use pld_base::{ListOf, OutOfMemory};
use std::alloc::Global;

/// A sum of products that is assigned to a pin's name, or to one of its extensions; `negated` if a `!` precedes the
/// name. A product of no literal is 1, a sum of no product 0.
#[derive(Drop)]
pub struct SumLine {
    pub negated: bool,
    pub pin: u8,
    pub extension: Option<Extension>,
    pub products: ListOf<ListOf<PinLiteral>>,
}

/// Appends a literal after another one.
fn put_further_literal(
    alloc: Global,
    out: &mut Vec<u8>,
    literal: &PinLiteral,
) -> Result<(), OutOfMemory>
    ensures { OnOk result (out.new.items ≡ out.old.items ++ (codes " & " ++ literal_text literal.now)) }
{
    out.extend_from_slice(b" & ")?;
    literal.put(alloc, out)
}

/// Appends a product.
fn put_product(alloc: Global, out: &mut Vec<u8>, literals: &[PinLiteral]) -> Result<(), OutOfMemory>
    ensures { OnOk result (out.new.items ≡ out.old.items ++ product_text literals.now) }
{
    let Some((first, rest)) = literals.split_first() else {
        out.push(b'1')?;
        return Ok(());
    };
    first.put(alloc, out)?;
    for literal in rest {
        put_further_literal(alloc, out, literal)?;
    }
    Ok(())
}

/// Appends a product after another one.
fn put_further_product(
    alloc: Global,
    out: &mut Vec<u8>,
    literals: &ListOf<PinLiteral>,
) -> Result<(), OutOfMemory>
    ensures { OnOk result (out.new.items ≡ out.old.items ++ (codes " # " ++ product_text literals.now)) }
{
    out.extend_from_slice(b" # ")?;
    put_product(alloc, out, literals.as_slice())
}

/// Appends a sum.
fn put_sum(
    alloc: Global,
    out: &mut Vec<u8>,
    products: &[ListOf<PinLiteral>],
) -> Result<(), OutOfMemory>
    ensures { OnOk result (out.new.items ≡ out.old.items ++ sum_text products.now) }
{
    let Some((first, rest)) = products.split_first() else {
        out.push(b'0')?;
        return Ok(());
    };
    put_product(alloc, out, first.as_slice())?;
    for product in rest {
        put_further_product(alloc, out, product)?;
    }
    Ok(())
}

impl SumLine {
    /// Appends what the sum is assigned to.
    fn put_target(&self, alloc: Global, out: &mut Vec<u8>) -> Result<(), OutOfMemory>
        ensures { OnOk result (out.new.items ≡ out.old.items ++ target_text self.now) }
    {
        put_sign(out, self.negated)?;
        put_name(alloc, out, self.pin)?;
        put_extension(out, self.extension)
    }

    /// Appends the line.
    pub fn put(&self, alloc: Global, out: &mut Vec<u8>) -> Result<(), OutOfMemory>
        ensures { OnOk result (out.new.items ≡ out.old.items ++ line_text self.now) }
    {
        self.put_target(alloc, out)?;
        out.extend_from_slice(b" = ")?;
        put_sum(alloc, out, self.products.as_slice())?;
        out.extend_from_slice(b";\n")?;
        Ok(())
    }
}
