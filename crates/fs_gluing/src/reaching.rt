// The test that a surface is connected.

ghost use Rattle.std.specs.Prelude.{◌≡◌, ◌⊎◌, ◌<◌, ◌≤◌, Some, length, IfOk, OnOk, IfErr};
ghost use Rattle.std.specs.List.{AllByRecursion, range_with_len};
ghost use Rattle.fs_plane.specs.declared.corners.Corner.{Corner};
ghost use Rattle.fs_gluing.specs.Limits.{most_polygons};
ghost use Rattle.fs_gluing.specs.declared.faults.BuildStop.{BuildStop};
ghost use Rattle.fs_gluing.specs.declared.surfaces.Side.{Side};
ghost use Rattle.fs_gluing.specs.Polygons.{at_side};
ghost use Rattle.fs_gluing.specs.Surface.{AreNeighbours, IsGlued};
ghost use Rattle.fs_gluing.specs.Reached.{IsReached};
ghost use Rattle.fs_gluing.specs.SearchMarks.{MarksPolygons, AreReachedMarks, partner_polygons};
ghost use Rattle.fs_gluing.specs.FirstFault.{stop_of};
ghost use Rattle.fs_gluing.specs.FirstFault.Test.{polygon_reached};
ghost use Rattle.fs_gluing.specs.TestsInOrder.{IsFirstStop};

use crate::faults::{BuildStop, Fault};
use crate::sequence::Sequence;
use crate::surfaces::Side;
use std::alloc::{AllocError, Global};

// That each polygon is reached from polygon 0 through glued sides.
pub fn check_reached(alloc: Global, polygons: &Sequence<Sequence<Side>>) -> Result<(), BuildStop>
    requires some { 0 < length polygons.now }
    requires few { length polygons.now ≤ most_polygons }
    requires glued { (c : Corner) → (side : Side) → at_side polygons.now c ≡ Some side → IsGlued polygons.now c side }
    ensures passed { OnOk result (AllByRecursion (IsReached (AreNeighbours polygons.now)) (range_with_len 0 (length polygons.now))) }
    ensures failed { IfErr result (λ e. (e ≡ BuildStop.NoMemory)
        ⊎ IsFirstStop (IsReached (AreNeighbours polygons.now)) (range_with_len 0 (length polygons.now)) (λ i. stop_of (polygon_reached i)) e) }
{
    let reached = search(alloc, polygons)?;
    for (i, is_reached) in reached.iter().enumerate() {
        if !*is_reached {
            return Err(BuildStop::Fault(Fault::Apart { polygon: i as u16 }));
        }
    }
    Ok(())
}

// Which polygons are reached from polygon 0 through glued sides.
fn search(alloc: Global, polygons: &Sequence<Sequence<Side>>) -> Result<Vec<bool>, AllocError>
    requires some { 0 < length polygons.now }
    requires glued { (c : Corner) → (side : Side) → at_side polygons.now c ≡ Some side → IsGlued polygons.now c side }
    ensures { IfOk result (λ reached. AreReachedMarks polygons.now reached.items) }
{
    let mut reached = vec![in alloc; false; polygons.len()]?;
    reached[0] = true;
    let mut waiting = Vec::new(alloc);
    waiting.push(0u16)?;
    while let Some(i) = waiting.pop() {
        visit(
            polygons.as_slice()[i as usize].as_slice(),
            &mut reached,
            &mut waiting,
        )?;
    }
    Ok(reached)
}

// Marks the polygons that these sides are glued to. Those that weren't marked wait for their own
// visit.
fn visit(sides: &[Side], reached: &mut Vec<bool>, waiting: &mut Vec<u16>) -> Result<(), AllocError>
    requires { AllByRecursion (λ side. side.partner.polygon < length reached.old.items) sides.now }
    ensures { OnOk result (MarksPolygons (partner_polygons sides.now) reached.old.items reached.new.items waiting.old.items waiting.new.items) }
{
    for side in sides {
        let k = side.partner.polygon;
        if !reached[k as usize] {
            reached[k as usize] = true;
            waiting.push(k)?;
        }
    }
    Ok(())
}
