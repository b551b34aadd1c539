//! Products of literals, and equations that are sums of products.

ghost use Rattle.std.specs.Prelude.{◌≡◌, ◌++◌, IfOk, OnOk, codes};
ghost use Rattle.std.specs.List.{list_all, list_any};
ghost use Rattle.pld_base.specs.Points.{levels_of};
ghost use Rattle.demo_source.specs.Drawing.{state_after, product_drawn, equation_drawn};
ghost use Rattle.demo_source.specs.Machine.{product_holds, equation_holds};
ghost use Rattle.demo_source.specs.SourceText.{literal_text, product_text, sum_text};

use crate::draws::Draws;
use crate::literals::Literal;
use pld_base::{ListOf, OutOfMemory, Point};
use std::alloc::Global;

const LITERALS: u32 = 3;

const PRODUCTS: u32 = 8;

/// Literals that hold together.
#[derive(Drop)]
pub struct Product {
    pub literals: ListOf<Literal>,
}

/// Products of which one holds.
#[derive(Drop)]
pub struct Equation {
    pub products: ListOf<Product>,
}

/// Appends a literal after another one.
fn put_further_literal(
    alloc: Global,
    out: &mut Vec<u8>,
    literal: &Literal,
) -> Result<(), OutOfMemory>
    ensures { OnOk result (out.new.items ≡ out.old.items ++ (codes " & " ++ literal_text literal.now)) }
{
    out.extend_from_slice(b" & ")?;
    literal.put(alloc, out)
}

/// Appends a product after another one.
fn put_further_product(
    alloc: Global,
    out: &mut Vec<u8>,
    product: &Product,
) -> Result<(), OutOfMemory>
    ensures { OnOk result (out.new.items ≡ out.old.items ++ (codes " # " ++ product_text product.now)) }
{
    out.extend_from_slice(b" # ")?;
    product.put(alloc, out)
}

impl Product {
    /// Three literals.
    fn draw(alloc: Global, draws: &mut Draws) -> Result<Product, OutOfMemory>
        ensures product { IfOk result (λ product. product ≡ product_drawn draws.old.state) }
        ensures moved { OnOk result (draws.new.state ≡ state_after 6 draws.old.state) }
    {
        let mut literals = Vec::new(alloc);
        for _ in 0..LITERALS {
            literals.push(Literal::draw(draws))?;
        }
        Ok(Product {
            literals: ListOf::from_vec(literals),
        })
    }

    fn holds(&self, at: &Point) -> bool
        ensures { result ≡ product_holds (levels_of at.now) self.now }
    {
        self.literals
            .as_slice()
            .iter()
            .all(|literal| literal.holds(at))
    }

    fn put(&self, alloc: Global, out: &mut Vec<u8>) -> Result<(), OutOfMemory>
        ensures { OnOk result (out.new.items ≡ out.old.items ++ product_text self.now) }
    {
        if let Some((first, rest)) = self.literals.as_slice().split_first() {
            first.put(alloc, out)?;
            for literal in rest {
                put_further_literal(alloc, out, literal)?;
            }
        }
        Ok(())
    }
}

impl Equation {
    /// Eight products.
    pub fn draw(alloc: Global, draws: &mut Draws) -> Result<Equation, OutOfMemory>
        ensures equation { IfOk result (λ equation. equation ≡ equation_drawn draws.old.state) }
        ensures moved { OnOk result (draws.new.state ≡ state_after 48 draws.old.state) }
    {
        let mut products = Vec::new(alloc);
        for _ in 0..PRODUCTS {
            products.push(Product::draw(alloc, draws)?)?;
        }
        Ok(Equation {
            products: ListOf::from_vec(products),
        })
    }

    /// Whether one of its products holds at a point. Takes no memory.
    pub fn holds(&self, at: &Point) -> bool
        ensures { result ≡ equation_holds (levels_of at.now) self.now }
    {
        self.products
            .as_slice()
            .iter()
            .any(|product| product.holds(at))
    }

    /// Appends its products as ABEL writes a sum.
    pub fn put(&self, alloc: Global, out: &mut Vec<u8>) -> Result<(), OutOfMemory>
        ensures { OnOk result (out.new.items ≡ out.old.items ++ sum_text self.now) }
    {
        if let Some((first, rest)) = self.products.as_slice().split_first() {
            first.put(alloc, out)?;
            for product in rest {
                put_further_product(alloc, out, product)?;
            }
        }
        Ok(())
    }
}
