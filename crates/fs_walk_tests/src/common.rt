// Surfaces, corners and vectors of the tables, and whether a walk is as a row tells.
ghost use Rattle.std.specs.Prelude.{◌≤◌, IfOk, length};
ghost use Rattle.fs_gluing.specs.Shape.{IsWithinLimits};

use fs_develop::{Walk, find_walk};
use fs_fraction::Frac;
use fs_gluing::{Glue, Point, Sequence, Shape, Surface, build};
use fs_plane::{Corner, Site, Stop, V2};
use fs_quadratic::{Elem, Field};
use std::alloc::{AllocError, Global};
use std::process::Abort;
use std::test::Fail;

// p and q of a number p + q·√d.
pub type Pair = (i128, i128);

// The coordinates of a vector.
pub type Vector = (Pair, Pair);

// p, q and the denominator of a fraction.
pub type Parts = (i128, i128, i128);

// The polygon and the side of a corner.
pub type Name = (u16, u16);

// A surface with straight corners or without: d, the sides of its polygons, of which there are one to three,
// and the pairs of sides that are glued.
pub struct Plan {
    pub d: u16,
    pub polygons: &'static [&'static [(Parts, Parts)]],
    pub glues: &'static [(Name, Name)],
    pub straight: bool,
}

// What a walk returns: its word, and the corner where it ends; or the place of a site, after the crossings.
pub enum Told {
    Segment(&'static [Name], Name),
    Vertex(&'static [Name]),
    Inside(&'static [Name]),
    LongWord(&'static [Name]),
    OutOfSector,
    Enter(u32),
    Walk(u32, u32),
}

// A walk: the corner where it starts, its vector, how many sides it may cross, and what it returns.
pub type Row = (Name, Vector, u32, Told);

// The number of these parts.
pub fn elem(rt: &impl Abort, parts: Pair) -> Elem {
    assert!(rt; parts.0 != i128::MIN);
    assert!(rt; parts.1 != i128::MIN);
    Elem::new(parts.0, parts.1)
}

// The fraction of these parts.
pub fn frac(rt: &impl Abort, parts: Parts) -> Frac {
    assert!(rt; parts.2 > 0);
    Frac::new(elem(rt, (parts.0, parts.1)), parts.2)
}

// The unscaled vector of these coordinates.
pub fn point(rt: &impl Abort, parts: &(Parts, Parts)) -> Point {
    Point {
        x: frac(rt, parts.0),
        y: frac(rt, parts.1),
    }
}

// The scaled vector of these coordinates.
pub fn vector(rt: &impl Abort, parts: Vector) -> V2 {
    V2 {
        x: elem(rt, parts.0),
        y: elem(rt, parts.1),
    }
}

// The corner of this name.
pub fn corner(name: Name) -> Corner {
    Corner::new(name.0, name.1)
}

// The polygon with these sides, of which there are at most 100.
fn polygon(
    rt: &impl Abort,
    alloc: Global,
    sides: &[(Parts, Parts)],
) -> Result<Sequence<Point>, AllocError>
    ensures { IfOk result (λ points. length points ≤ 100) }
{
    let mut points = Sequence::new(alloc);
    for side in sides {
        points.push(point(rt, side))?;
    }
    assert!(rt; points.len() <= 100);
    Ok(points)
}

// The glue lines of these pairs of sides.
fn glue_lines(alloc: Global, pairs: &[(Name, Name)]) -> Result<Sequence<Glue>, AllocError> {
    let mut glues = Sequence::new(alloc);
    for (one, two) in pairs {
        glues.push(Glue {
            line: 0,
            one: corner(*one),
            two: corner(*two),
        })?;
    }
    Ok(glues)
}

// The shape of a plan.
fn shape_of(rt: &impl Abort, alloc: Global, plan: &Plan) -> Result<Shape, Fail>
    ensures { IfOk result (λ shape. IsWithinLimits shape) }
{
    let glues = glue_lines(alloc, plan.glues)?;
    let straight = plan.straight;
    let mut polygons = Sequence::new(alloc);
    match plan.polygons {
        [one] => polygons.push(polygon(rt, alloc, one)?)?,
        [one, two] => {
            polygons.push(polygon(rt, alloc, one)?)?;
            polygons.push(polygon(rt, alloc, two)?)?;
        }
        [one, two, three] => {
            polygons.push(polygon(rt, alloc, one)?)?;
            polygons.push(polygon(rt, alloc, two)?)?;
            polygons.push(polygon(rt, alloc, three)?)?;
        }
        _ => return Err("too many polygons".into()),
    }
    Ok(Shape {
        polygons,
        glues,
        straight,
    })
}

// The surface of a plan.
pub fn surface_of(rt: &impl Abort, alloc: Global, plan: &Plan) -> Result<Surface, Fail> {
    let field = Field::new(plan.d).expect(rt, "a squarefree d");
    let shape = shape_of(rt, alloc, plan)?;
    Ok(build(alloc, field, &shape).expect(rt, "a surface"))
}

// Whether the word has the sides of these names.
fn is_word(word: &[Corner], names: &[Name]) -> bool {
    for (side, name) in word.iter().zip(names) {
        if *side != corner(*name) {
            return false;
        }
    }
    word.len() == names.len()
}

// Whether a site is the one that a row tells.
pub fn is_site(site: Site, told: &Told) -> bool {
    match (site, told) {
        (Site::Enter { place }, Told::Enter(number)) => place == *number,
        (Site::Walk { crossings, place }, Told::Walk(after, number)) => {
            crossings == *after && place == *number
        }
        _ => false,
    }
}

// Whether a walk ends as a row tells.
fn is_walk(walk: &Walk, told: &Told) -> bool {
    match (walk, told) {
        (Walk::Segment { word, end }, Told::Segment(names, name)) => {
            is_word(word.as_slice(), names) && *end == corner(*name)
        }
        (Walk::Vertex { word }, Told::Vertex(names)) => is_word(word.as_slice(), names),
        (Walk::Inside { word }, Told::Inside(names)) => is_word(word.as_slice(), names),
        (Walk::LongWord { word }, Told::LongWord(names)) => is_word(word.as_slice(), names),
        (Walk::OutOfSector, Told::OutOfSector) => true,
        _ => false,
    }
}

// Whether what a walk returns is as a row tells.
fn is_told(returned: &Result<Walk, Stop>, told: &Told) -> bool {
    match returned {
        Ok(walk) => is_walk(walk, told),
        Err(Stop::Overflow(site)) => is_site(*site, told),
        Err(_) => false,
    }
}

// That the walk of a row returns what the row tells.
fn expect_walk(rt: &impl Abort, alloc: Global, surface: &Surface, number: usize, row: &Row) {
    let (name, parts, steps, told) = row;
    let start = corner(*name);
    let v = vector(rt, *parts);
    assert!(rt; surface.has(start));
    assert!(rt; v != V2::ZERO);
    assert!(rt; *steps <= 1_000_000);
    let returned = find_walk(alloc, surface, start, v, *steps);
    assert!(rt; is_told(&returned, told), "row {number}");
}

// That each walk on the surface of a plan returns what its row tells.
pub fn expect_walks(rt: &impl Abort, alloc: Global, plan: &Plan, rows: &[Row]) -> Result<(), Fail> {
    let surface = surface_of(rt, alloc, plan)?;
    for (number, row) in rows.iter().enumerate() {
        expect_walk(rt, alloc, &surface, number, row);
    }
    Ok(())
}
