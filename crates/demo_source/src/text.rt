//! The whole text.

ghost use Rattle.std.specs.Prelude.{◌≡◌, ◌++◌, IfOk, OnOk};
ghost use Rattle.demo_source.specs.Drawing.{equation_drawn, equations_drawn, many, state_after};
ghost use Rattle.demo_source.specs.SourceText.{IsDemoSource, equation_text, equations_text};

use crate::draws::Draws;
use crate::equations::Equation;
use crate::machine::{Machine, REGISTERS};
use crate::vectors::put_vectors;
use pld_base::{OutOfMemory, put_decimal};
use std::alloc::Global;

const HEAD: &[u8] = b"module demo
d device 'GAL22V10';
clk pin 1;
i0,i1,i2,i3,i4,i5,i6,i7,i8,i9 pin 2,3,4,5,6,7,8,9,10,11;
q0,q1,q2,q3,q4,q5,q6,q7,q8,q9 pin 23,22,21,20,19,18,17,16,15,14 istype 'reg,buffer';
equations
";

const VECTORS_HEAD: &[u8] = b"test_vectors ([clk,i0..i9] -> [q0..q9])\n";

/// An equation for each register.
fn draw_equations(alloc: Global, draws: &mut Draws) -> Result<Vec<Equation>, OutOfMemory>
    ensures equations { IfOk result (λ equations. equations.items ≡ equations_drawn draws.old.state) }
    ensures moved { OnOk result (draws.new.state ≡ state_after 480 draws.old.state) }
{
    let mut equations = Vec::new(alloc);
    for _ in 0..REGISTERS {
        equations.push(Equation::draw(alloc, draws)?)?;
    }
    Ok(equations)
}

/// Appends the equation of a register.
fn put_equation(
    alloc: Global,
    out: &mut Vec<u8>,
    register: usize,
    equation: &Equation,
) -> Result<(), OutOfMemory>
    ensures { OnOk result (out.new.items ≡ out.old.items ++ equation_text register equation.now) }
{
    out.push(b'q')?;
    put_decimal(alloc, out, register)?;
    out.extend_from_slice(b" := ")?;
    equation.put(alloc, out)?;
    out.extend_from_slice(b";\n")?;
    Ok(())
}

/// Appends the equations of the registers from 0 on.
fn put_equations(
    alloc: Global,
    out: &mut Vec<u8>,
    equations: &[Equation],
) -> Result<(), OutOfMemory>
    ensures { OnOk result (out.new.items ≡ out.old.items ++ equations_text 0 equations.now) }
{
    for (register, equation) in equations.iter().enumerate() {
        put_equation(alloc, out, register, equation)?;
    }
    Ok(())
}

/// A demo source: a GAL22V10 with ten registers, each with an equation of eight products of three literals,
/// and a thousand test vectors that expect what a run of the source shows. All of it is drawn from `seed`.
///
/// # Errors
/// Only lack of memory.
pub fn demo_text(alloc: Global, seed: u16) -> Result<Vec<u8>, OutOfMemory>
    ensures { IfOk result (λ text. IsDemoSource seed text.items) }
{
    let mut draws = Draws {
        state: u32::from(seed),
    };
    let equations = draw_equations(alloc, &mut draws)?;
    let mut out = Vec::new(alloc);
    out.extend_from_slice(HEAD)?;
    put_equations(alloc, &mut out, &equations)?;
    out.extend_from_slice(VECTORS_HEAD)?;
    let machine = Machine {
        equations: &equations,
    };
    put_vectors(alloc, &mut out, &machine, &mut draws)?;
    out.extend_from_slice(b"end\n")?;
    Ok(out)
}
