// The names of letters, by their sides.

ghost use Rattle.std.specs.Prelude.{◌≡◌, ◌≢◌, ◌<◌, ◌≤◌, ℕ, Some, length, map, IfOk};
ghost use Rattle.std.specs.List.{slice_get, AllByRecursion};
ghost use Rattle.fs_lists.specs.Members.{IsIn, IsDistinct};
ghost use Rattle.fs_plane.specs.declared.corners.Corner.{Corner};
ghost use Rattle.fs_gluing.specs.Polygons.{at_side, HasSide};
ghost use Rattle.fs_gluing.specs.SurfaceSides.{partner};
ghost use Rattle.fs_iet.specs.ExchangeValue.{most_letters};

use crate::sites::partner_of;
use fs_gluing::Surface;
use fs_plane::Corner;
use std::alloc::{AllocError, Global};
use std::marker::Model;

// A number for each side of a surface's polygons.
#[derive(Drop)]
struct Numbers {
    rows: Vec<Vec<u32>>,
}

impl Model for Numbers {
    ghost use Rattle.std.specs.Prelude.{List, ℕ, map};

    ghost Value = { List (List ℕ) };

    ghost view = { λ n. map (λ row. row.items) n.rows.items };
}

impl Numbers {
    // Each side has the number 0.
    fn new(alloc: Global, surface: &Surface) -> Result<Numbers, AllocError>
        ensures { IfOk result (λ numbers. (c : Corner) → HasSide surface.now.polygons c → HasSide numbers c) }
    {
        let mut rows = Vec::new(alloc);
        for i in 0..surface.polygons() {
            rows.push(vec![in alloc; 0; surface.sides(i) as usize]?)?;
        }
        Ok(Numbers { rows })
    }

    // The number of a side.
    fn get(&self, c: Corner) -> u32
        requires { HasSide self.now c }
        ensures { at_side self.now c ≡ Some result }
    {
        let row = &self.rows[c.polygon as usize];
        row[c.side as usize]
    }

    // Gives a side this number.
    fn set(&mut self, c: Corner, number: u32)
        requires { HasSide self.old c }
        ensures here { at_side self.new c ≡ Some number }
        ensures others { (e : Corner) → e ≢ c → at_side self.new e ≡ at_side self.old e }
        ensures sides { (e : Corner) → HasSide self.old e → HasSide self.new e }
    {
        let row = &mut self.rows[c.polygon as usize];
        row[c.side as usize] = number;
    }
}

// The number of each of these sides: its place among them.
fn find_numbers(
    alloc: Global,
    surface: &Surface,
    outgoing: &[Corner],
) -> Result<Numbers, AllocError>
    requires there { AllByRecursion (HasSide surface.now.polygons) outgoing.now }
    requires once { IsDistinct outgoing.now }
    requires few { length outgoing.now ≤ most_letters }
    ensures numbers { IfOk result (λ numbers. (n : ℕ) (f : Corner) → slice_get outgoing.now n ≡ Some f → at_side numbers f ≡ Some n) }
{
    let mut numbers = Numbers::new(alloc, surface)?;
    for (n, &f) in outgoing.iter().enumerate() {
        numbers.set(f, n as u32);
    }
    Ok(numbers)
}

// The bottom row: for each incoming side the place of its partner in the top row.
pub fn find_bottom(
    alloc: Global,
    surface: &Surface,
    outgoing: &[Corner],
    incoming: &[Corner],
) -> Result<Vec<u32>, AllocError>
    requires there { AllByRecursion (HasSide surface.now.polygons) outgoing.now }
    requires once { IsDistinct outgoing.now }
    requires few { length outgoing.now ≤ most_letters }
    requires sides { AllByRecursion (HasSide surface.now.polygons) incoming.now }
    requires partners { AllByRecursion (λ e. IsIn (partner surface.now.polygons e) outgoing.now) incoming.now }
    ensures { IfOk result (λ bottom. map (λ n. slice_get outgoing.now n) bottom.items ≡ map (λ e. Some (partner surface.now.polygons e)) incoming.now) }
{
    let numbers = find_numbers(alloc, surface, outgoing)?;
    let mut bottom = Vec::new(alloc);
    for &e in incoming {
        bottom.push(numbers.get(partner_of(surface, e)))?;
    }
    Ok(bottom)
}
