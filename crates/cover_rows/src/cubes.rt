//! Cubes as rows of a text.

ghost use Rattle.std.specs.Prelude.{◌≤◌};

use covers::Cube;
use test_rows::Found;

/// A cube as a row of a PLA file: at the place of a variable `1` or `0` if it is asked, `-` if it isn't; and `x` if it
/// is asked to be both.
pub(crate) fn cube_of(row: &str) -> Cube {
    let mut cube = Cube::full();
    for (place, byte) in row.as_bytes().iter().enumerate() {
        if place < 22 {
            if matches!(*byte, b'1' | b'x') {
                cube = cube.union(Cube::literal(place as u8, true));
            }
            if matches!(*byte, b'0' | b'x') {
                cube = cube.union(Cube::literal(place as u8, false));
            }
        }
    }
    cube
}

/// Parts what results from what is there, if anything does.
pub(crate) fn put_blank(found: &mut Found) {
    if !found.bytes().is_empty() {
        found.text(" ")
    }
}

/// A cube as a row of so many variables.
pub(crate) fn put_cube(cube: Cube, vars: u8, found: &mut Found)
    requires { vars ≤ 22 }
{
    put_blank(found);
    for place in 0..vars {
        found.text(match (cube.asks(place, true), cube.asks(place, false)) {
            (true, true) => "x",
            (true, false) => "1",
            (false, true) => "0",
            (false, false) => "-",
        });
    }
}

/// Cubes as rows of so many variables, or `none`.
pub(crate) fn put_cubes(cubes: &[Cube], vars: u8, found: &mut Found)
    requires { vars ≤ 22 }
{
    for cube in cubes {
        put_cube(*cube, vars, found);
    }
    if cubes.is_empty() {
        found.text("none")
    }
}
