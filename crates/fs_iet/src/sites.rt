// The tests of an exchange: the sum of the widths of all incoming sides, and the return vectors of all outgoing ones.

ghost use Rattle.std.specs.Prelude.{◌≡◌, IsOk, Ok, Err, true, IfOk, OnOk, IfErr};
ghost use Rattle.std.specs.List.{AllByRecursion};
ghost use Rattle.fs_quadratic.specs.Ring.{zero};
ghost use Rattle.fs_gluing.specs.FirstCut.{position_in};
ghost use Rattle.fs_gluing.specs.Polygons.{HasSide};
ghost use Rattle.fs_gluing.specs.SurfaceSides.{partner};
ghost use Rattle.fs_iet.specs.ExchangeSites.{add_side, sum_after, checked_return, checked_returns};
ghost use Rattle.fs_iet.specs.Rows.{HaveWidths};

use crate::widths::{across, is_outgoing};
use fs_gluing::Surface;
use fs_plane::steps::vector_difference_after;
use fs_plane::{Corner, Place, Site, V2, cross};
use fs_quadratic::Elem;
use fs_quadratic::steps::sum_at;
use std::cmp::Ordering;

// The sum of the widths of the incoming ones among these sides, or the first site.
pub fn find_total(surface: &Surface, v: V2, sides: &[Corner]) -> Result<Elem, Site>
    requires there { AllByRecursion (HasSide surface.now.polygons) sides.now }
    ensures { result ≡ sum_after surface.now v zero sides.now }
{
    let mut sum = Elem::ZERO;
    for &e in sides {
        match add_side(surface, v, sum, e) {
            Ok(next) => sum = next,
            Err(Place(place)) => {
                return Err(Site::Letter {
                    polygon: u32::from(e.polygon),
                    side: u32::from(e.side),
                    place,
                });
            }
        }
    }
    Ok(sum)
}

// The sum after a side.
#[tactic(auto, unfolding(crate::specs::ExchangeSites::add_side))]
fn add_side(surface: &Surface, v: V2, sum: Elem, e: Corner) -> Result<Elem, Place>
    requires { HasSide surface.now.polygons e }
    ensures { result ≡ add_side surface.now v sum e }
{
    let width = cross(surface.field(), surface.side(e), v)?;
    match surface.field().sign(width) {
        Ordering::Greater => sum_at(4, sum, width),
        _ => Ok(sum),
    }
}

// That the return vectors of the outgoing ones among these sides don't overflow, or the first site.
pub fn check_returns(surface: &Surface, v: V2, sides: &[Corner]) -> Result<(), Site>
    requires there { AllByRecursion (HasSide surface.now.polygons) sides.now }
    requires widths { HaveWidths surface.now v }
    ensures returned { OnOk result (checked_returns surface.now v sides.now ≡ Ok true) }
    ensures stops { IfErr result (λ site. checked_returns surface.now v sides.now ≡ Err site) }
{
    // The contract of this call says what holds of the surface.
    let _ = surface.field();
    for &f in sides {
        if is_outgoing(surface, v, f) {
            if let Err(Place(place)) = find_return(surface, f) {
                return Err(Site::Shift {
                    polygon: u32::from(f.polygon),
                    side: u32::from(f.side),
                    place,
                });
            }
        }
    }
    Ok(())
}

// The return vector of an outgoing side's letter: from the left end of its partner to its own.
pub fn find_return(surface: &Surface, f: Corner) -> Result<V2, Place>
    requires { HasSide surface.now.polygons f }
    ensures { result ≡ checked_return surface.now f }
{
    let end = position_of(surface, surface.corner_after(f));
    let start = position_of(surface, partner_of(surface, f));
    vector_difference_after(0, end, start)
}

// The side that a side is glued to.
pub fn partner_of(surface: &Surface, f: Corner) -> Corner
    requires { HasSide surface.now.polygons f }
    ensures is { result ≡ partner surface.now.polygons f }
    ensures there { HasSide surface.now.polygons result }
{
    // The contract of this call says what holds of the surface.
    let _ = surface.field();
    surface.partner(f)
}

// The position of a corner, where corner 0 of its polygon is at (0,0).
#[tactic(auto, using(crate::proofs::SurfaceReads::position_read))]
pub fn position_of(surface: &Surface, c: Corner) -> V2
    requires { HasSide surface.now.polygons c }
    ensures { result ≡ position_in surface.now c.polygon c.side }
{
    surface.place(c)
}
