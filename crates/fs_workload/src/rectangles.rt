// The rectangles of a staircase.

ghost use Rattle.std.specs.Prelude.{◌≡◌, ℕ, ◌+◌, map, IfOk};
ghost use Rattle.std.specs.List.{range_with_len};
ghost use Rattle.fs_workload.specs.Draws.{state_after};
ghost use Rattle.fs_workload.specs.Staircase.{whole_vector, rectangle, rectangle_at};

use crate::draws::{next_state, number_of};
use fs_fraction::Frac;
use fs_gluing::{Point, Sequence};
use fs_quadratic::Elem;
use std::alloc::{AllocError, Global};

// The rectangles of a staircase, in order.
pub fn find_rectangles(
    alloc: Global,
    k: u32,
    seed: u32,
) -> Result<Sequence<Sequence<Point>>, AllocError>
    ensures { IfOk result (λ polygons. polygons ≡ map (rectangle_at seed) (range_with_len 0 k)) }
{
    let mut polygons = Sequence::new(alloc);
    // Rectangle i has the numbers of draws i and i + 1.
    let mut state = next_state(seed);
    for i in 0..k {
        let next = next_state(state);
        polygons.push(find_rectangle(alloc, i, state, next)?)?;
        state = next;
    }
    Ok(polygons)
}

// Rectangle i, by the states after draws i and i + 1: the draws of even numbers are widths, the others heights.
fn find_rectangle(
    alloc: Global,
    i: u32,
    state: u32,
    next: u32,
) -> Result<Sequence<Point>, AllocError>
    ensures { IfOk result (λ sides. (seed : ℕ) → state ≡ state_after seed (i + 1) → next ≡ state_after seed (i + 2) → sides ≡ rectangle_at seed i) }
{
    let (width, height) = if i % 2 == 0 {
        (state, next)
    } else {
        (next, state)
    };
    rectangle(alloc, number_of(width), number_of(height))
}

// The rectangle of this width and height.
fn rectangle(alloc: Global, width: Elem, height: Elem) -> Result<Sequence<Point>, AllocError>
    ensures { IfOk result (λ sides. sides ≡ rectangle width height) }
{
    let mut sides = Sequence::new(alloc);
    sides.push(whole_vector(width, Elem::ZERO))?;
    sides.push(whole_vector(Elem::ZERO, height))?;
    sides.push(whole_vector(width.neg(), Elem::ZERO))?;
    sides.push(whole_vector(Elem::ZERO, height.neg()))?;
    Ok(sides)
}

// A vector with the denominators 1.
fn whole_vector(x: Elem, y: Elem) -> Point
    ensures { result ≡ whole_vector x y }
{
    Point {
        x: Frac::new(x, 1),
        y: Frac::new(y, 1),
    }
}
