// The decomposition of a flow into its parts.

ghost use Rattle.std.specs.Prelude.{◌≡◌, ◌≢◌, ◌≤◌, Result, List, [], ◌∷◌, ◌++◌, length, IfOk, IfErr, OnOk};
ghost use Rattle.std.specs.List.{AllByRecursion};
ghost use Rattle.fs_plane.specs.declared.sites.Stop.{Stop};
ghost use Rattle.fs_plane.specs.Vector.{vector_zero};
ghost use Rattle.fs_components.specs.declared.flow.Flow.{Flow};
ghost use Rattle.fs_components.specs.FlowMeaning.{FlowMeans};
ghost use Rattle.fs_components.specs.Flows.{EndsFlow, ReturnsFlow, GivesMeasures, AreMeasured, measured};
ghost use Rattle.fs_components.specs.Gathering.{IsShort, StopsAtMeasure};

use crate::along::list_connections;
use crate::measures::{PartMeasures, measure_cylinder, measure_looped};
use fs_fraction::Frac;
use fs_gluing::{Sequence, Surface};
use fs_iet::find_exchange;
use fs_plane::{Listed, Place, Site, Stop, V2};
use fs_rauzy::{Kind, Part, State, find_parts};
use std::alloc::{AllocError, Global};

/// A part of a flow, with its unscaled measures.
#[derive(Drop)]
pub struct Measured {
    /// The part; its numbers are scaled.
    pub part: Part,
    /// The square of the length of a cylinder's holonomy, else 0.
    pub holonomy_square: Frac,
    /// The square of a cylinder's height, else 0.
    pub height_square: Frac,
    /// The area.
    pub area: Frac,
}

/// The decomposition of a flow.
#[derive(Drop)]
pub struct Flow {
    /// The connections along the direction that are known, ascending.
    pub connections: Sequence<Listed>,
    /// The parts, from left to right.
    pub parts: Sequence<Measured>,
    /// How many steps the induction took.
    pub steps: u32,
}

/// The decomposition of the flow along `v`, scaled, into cylinders and components with a loop: the parts of the run of its
/// exchange, each with its measures, and the connections along `v` that are known from the run. The parts fill the surface:
/// the flow from each position comes to the base of exactly one part, and their areas sum to the area of the surface.
///
/// It is refused as `Overflow` at the first site, in this order: those of `find_exchange`, of `find_run`, of `connections`,
/// and `Value` where a measure of a part overflows, part after part; as `Undecided(budget)` exactly where `find_run` is. The
/// places of `Value` are, for a cylinder: 1 to 5 the square of its holonomy, 6 to 13 that of its height, 14 to 20 its area;
/// for another part 7 to 10 the inverse of the squared length of `v`, 21 + 5t to 25 + 5t the share of letter t, 6018 to 6020
/// the area. The cost is that of the induction; the memory is linear in the sides.
pub fn find_flow(alloc: Global, surface: &Surface, v: V2, budget: u32) -> Result<Flow, Stop>
    requires direction { v ≢ vector_zero }
    requires budget { budget ≤ 1000000 }
    ensures flow { ReturnsFlow (EndsFlow surface.now v budget) result }
    // There is no other end.
    ensures only { (given : Result Flow Stop) → EndsFlow surface.now v budget given → ReturnsFlow (λ returned. returned ≡ given) result }
    // The parts fill the surface, and are what they are said to be.
    ensures means { IfOk result (λ flow. FlowMeans surface.now v flow.parts) }
{
    // The contract of this call says what holds of the surface.
    let _ = surface.field();
    let exchange = find_exchange(alloc, surface, v)?;
    let state = match State::new(alloc, exchange) {
        Ok(state) => state,
        Err(_) => return Err(Stop::NoMemory),
    };
    let run = find_parts(alloc, state, budget)?;
    let connections = list_connections(alloc, surface, v, &run.found)?;
    let parts = measure_parts(alloc, surface, v, run.parts)?;
    Ok(Flow {
        connections,
        parts,
        steps: run.steps,
    })
}

// All parts with their measures.
fn measure_parts(
    alloc: Global,
    surface: &Surface,
    v: V2,
    parts: Sequence<Part>,
) -> Result<Sequence<Measured>, Stop>
    requires direction { v ≢ vector_zero }
    requires short { AllByRecursion IsShort parts }
    requires few { length parts ≤ 1024 }
    ensures measured { IfOk result (AreMeasured surface.now v parts) }
    ensures stops { IfErr result (StopsAtMeasure surface.now v parts) }
{
    let mut list = Sequence::new(alloc);
    for part in parts.into_vec() {
        match measure(surface, v, &part) {
            Ok(measures) => push_measured(&mut list, part, measures)?,
            Err(Place(place)) => {
                let component = list.len() as u32;
                return Err(Stop::Overflow(Site::Value { component, place }));
            }
        }
    }
    Ok(list)
}

// The measures of a part.
fn measure(surface: &Surface, v: V2, part: &Part) -> Result<PartMeasures, Place>
    requires direction { v ≢ vector_zero }
    requires short { IsShort part.now }
    ensures { GivesMeasures surface.now v part.now result }
{
    let field = surface.field();
    let letters = part.letters.as_slice();
    match part.kind {
        Kind::Cylinder => measure_cylinder(field, surface.den(), v, part.width, letters[0].back),
        Kind::Looped { .. } => measure_looped(field, surface.den(), v, letters),
    }
}

// Adds a part with its measures.
fn push_measured(
    list: &mut Sequence<Measured>,
    part: Part,
    measures: PartMeasures,
) -> Result<(), AllocError>
    ensures { OnOk result (list.new ≡ list.old ++ measured part measures ∷ []) }
{
    list.push(Measured {
        part,
        holonomy_square: measures.holonomy_square,
        height_square: measures.height_square,
        area: measures.area,
    })
}
