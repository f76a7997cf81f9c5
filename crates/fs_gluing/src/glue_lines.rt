// The tests of glue lines, and the partners of sides.

ghost use Rattle.std.specs.Prelude.{◌≡◌, ◌⊎◌, ◌↔◌, ◌≤◌, length, List, [], ◌∷◌, ◌++◌, IsTrue, Some, IfOk, OnOk, IfErr};
ghost use Rattle.std.specs.List.{AllByRecursion};
ghost use Rattle.fs_plane.specs.declared.corners.Corner.{Corner};
ghost use Rattle.fs_plane.specs.Vector.{PlaneVector};
ghost use Rattle.fs_gluing.specs.Limits.{most_polygons, most_sides};
ghost use Rattle.fs_gluing.specs.declared.faults.BuildStop.{BuildStop};
ghost use Rattle.fs_gluing.specs.declared.shapes.Glue.{Glue};
ghost use Rattle.fs_gluing.specs.Polygons.{HasSide, at_side};
ghost use Rattle.fs_gluing.specs.FirstFault.{PassesLine, line_tests, stop_of};
ghost use Rattle.fs_gluing.specs.FirstFault.LineTest.{glued_once};
ghost use Rattle.fs_gluing.specs.FirstFault.Test.{of_line};
ghost use Rattle.fs_gluing.specs.TestsInOrder.{IsFirstStop};
ghost use Rattle.fs_gluing.specs.Gluing.{ArePartners};
ghost use Rattle.fs_gluing.specs.PartnerTable.{partner_of, HasPlace};

use crate::faults::{BuildStop, Fault};
use crate::partners::Partners;
use crate::sequence::Sequence;
use crate::shapes::Glue;
use fs_plane::{Corner, V2};
use std::alloc::Global;

// For each side on a glue line the other side on it, where the lines pass their tests.
pub fn pair_sides(
    alloc: Global,
    polygons: &Sequence<Sequence<V2>>,
    glues: &[Glue],
) -> Result<Partners, BuildStop>
    requires few { length polygons.now ≤ most_polygons }
    requires short { AllByRecursion (λ polygon. length polygon ≤ most_sides) polygons.now }
    ensures passed { OnOk result (AllByRecursion (PassesLine polygons.now) (line_tests [] glues.now)) }
    ensures paired { IfOk result (λ partners. ArePartners glues.now (partner_of partners)) }
    ensures failed { IfErr result (λ e. (e ≡ BuildStop.NoMemory)
        ⊎ IsFirstStop (PassesLine polygons.now) (line_tests [] glues.now) (λ test. stop_of (of_line test)) e) }
{
    let mut partners = Partners::new(alloc, polygons)?;
    for glue in glues {
        check_glue(polygons, &partners, glue)?;
        pair(&mut partners, glue);
    }
    Ok(partners)
}

// Makes each of the two sides on a glue line the partner of the other.
fn pair(partners: &mut Partners, glue: &Glue)
    requires one { HasPlace partners.old glue.now.one }
    requires two { HasPlace partners.old glue.now.two }
    ensures paired { (polygons : List (List PlaneVector)) → (earlier : List Glue) → ArePartners earlier (partner_of partners.old)
        → PassesLine polygons (glued_once earlier glue.now) → ArePartners (earlier ++ glue.now ∷ []) (partner_of partners.new) }
    ensures places { (c : Corner) → HasPlace partners.old c → HasPlace partners.new c }
{
    partners.insert(glue.one, glue.two);
    partners.insert(glue.two, glue.one);
}

// That a glue line passes its tests, where these are the partners from the lines before it.
fn check_glue(
    polygons: &Sequence<Sequence<V2>>,
    partners: &Partners,
    glue: &Glue,
) -> Result<(), BuildStop>
    ensures passed { OnOk result ((earlier : List Glue) → ArePartners earlier (partner_of partners.now)
        → AllByRecursion (PassesLine polygons.now) (line_tests earlier (glue.now ∷ []))) }
    ensures failed { IfErr result (λ e. (earlier : List Glue) → ArePartners earlier (partner_of partners.now)
        → IsFirstStop (PassesLine polygons.now) (line_tests earlier (glue.now ∷ [])) (λ test. stop_of (of_line test)) e) }
{
    let line = glue.line;
    let (Some(one), Some(two)) = (vector_at(polygons, glue.one), vector_at(polygons, glue.two))
    else {
        return Err(BuildStop::Fault(Fault::NoSuchSide { line }));
    };
    if glue.one == glue.two || partners.has(glue.one) || partners.has(glue.two) {
        return Err(BuildStop::Fault(Fault::GluedTwice { line }));
    }
    if two != one.neg() {
        return Err(BuildStop::Fault(Fault::NotOpposite { line }));
    }
    Ok(())
}

// The vector of a side, where that side exists.
fn vector_at(polygons: &Sequence<Sequence<V2>>, c: Corner) -> Option<V2>
    ensures { result ≡ at_side polygons.now c }
{
    let polygon = polygons.as_slice().get(c.polygon as usize)?;
    polygon.as_slice().get(c.side as usize).copied()
}
