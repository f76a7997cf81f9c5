// Surfaces and directions of the tables, and whether their exchanges are as a row tells.
ghost use Rattle.std.specs.Prelude.{◌≤◌, IfOk, length};
ghost use Rattle.fs_gluing.specs.Shape.{IsWithinLimits};

use fs_fraction::Frac;
use fs_gluing::{Glue, Point, Sequence, Shape, Surface, build};
use fs_iet::{Exchange, Tag, find_exchange};
use fs_plane::{Corner, Place, Site, Stop, V2};
use fs_quadratic::{Elem, Field};
use std::alloc::{AllocError, Global};
use std::cmp::Ordering;
use std::process::Abort;
use std::test::Fail;

// p and q of a number p + q·√d.
pub type Pair = (i128, i128);

// The coordinates of a vector.
pub type Vector = (Pair, Pair);

// p, q and the denominator of a fraction.
pub type Parts = (i128, i128, i128);

// The polygon and the side of a corner.
pub type Name = (u16, u16);

// A surface with straight corners or without: d, the sides of its polygons, of which there are one to four,
// and the pairs of sides that are glued.
pub struct Plan {
    pub d: u16,
    pub polygons: &'static [&'static [(Parts, Parts)]],
    pub glues: &'static [(Name, Name)],
    pub straight: bool,
}

// A letter: its length, its return vector, the corner where it starts, the vectors of its start and of its end, each with
// whether it is real.
pub type Letter = (Pair, Vector, Name, (Vector, bool), (Vector, bool));

// An exchange: the direction, the sum of the lengths, the letters in the order of the top row, and the bottom row.
pub struct Told {
    pub v: Vector,
    pub total: Pair,
    pub letters: &'static [Letter],
    pub bottom: &'static [u32],
}

// Positions of an exchange, by its direction: positions and their images, and closed orbits, of which each position is the
// image of the one before, and the first that of the last.
pub struct Moves {
    pub v: Vector,
    pub images: &'static [(Pair, Pair)],
    pub orbits: &'static [&'static [Pair]],
}

// What the search for an exchange returns: the sum of its lengths, or the polygon, the side and the place of a site.
pub enum Found {
    Total(Pair),
    Letter(u32, u32, u32),
    Shift(u32, u32, u32),
}

// A direction, and what the search for its exchange returns.
pub type Sites = (Vector, Found);

// 2^127 - 1, the greatest part of a number, and 2^126 and the number below it.
pub const MOST: i128 = 170141183460469231731687303715884105727;

pub const HALF: i128 = 85070591730234615865843651857942052864;

pub const BELOW_HALF: i128 = 85070591730234615865843651857942052863;

// The image of a position, or the place where it overflows.
pub enum Shown {
    At(Pair),
    Overflow(u32),
}

// Positions of an exchange, by its direction, and what their images return.
pub struct Places {
    pub v: Vector,
    pub images: &'static [(Pair, Shown)],
}

// The number of these parts.
pub fn elem(rt: &impl Abort, parts: Pair) -> Elem {
    assert!(rt; parts.0 != i128::MIN);
    assert!(rt; parts.1 != i128::MIN);
    Elem::new(parts.0, parts.1)
}

// The fraction of these parts.
fn frac(rt: &impl Abort, parts: Parts) -> Frac {
    assert!(rt; parts.2 > 0);
    Frac::new(elem(rt, (parts.0, parts.1)), parts.2)
}

// The unscaled vector of these coordinates.
fn point(rt: &impl Abort, parts: &(Parts, Parts)) -> Point {
    Point {
        x: frac(rt, parts.0),
        y: frac(rt, parts.1),
    }
}

// The scaled vector of these coordinates.
pub fn vector(rt: &impl Abort, parts: Vector) -> V2 {
    V2 {
        x: elem(rt, parts.0),
        y: elem(rt, parts.1),
    }
}

// The corner of this name.
pub fn corner(name: Name) -> Corner {
    Corner::new(name.0, name.1)
}

// The polygon with these sides, of which there are at most 100.
fn polygon(
    rt: &impl Abort,
    alloc: Global,
    sides: &[(Parts, Parts)],
) -> Result<Sequence<Point>, AllocError>
    ensures { IfOk result (λ points. length points ≤ 100) }
{
    let mut points = Sequence::new(alloc);
    for side in sides {
        points.push(point(rt, side))?;
    }
    assert!(rt; points.len() <= 100);
    Ok(points)
}

// The glue lines of these pairs of sides.
fn glue_lines(alloc: Global, pairs: &[(Name, Name)]) -> Result<Sequence<Glue>, AllocError> {
    let mut glues = Sequence::new(alloc);
    for (one, two) in pairs {
        glues.push(Glue {
            line: 0,
            one: corner(*one),
            two: corner(*two),
        })?;
    }
    Ok(glues)
}

// The shape of a plan.
fn shape_of(rt: &impl Abort, alloc: Global, plan: &Plan) -> Result<Shape, Fail>
    ensures { IfOk result (λ shape. IsWithinLimits shape) }
{
    let glues = glue_lines(alloc, plan.glues)?;
    let straight = plan.straight;
    let mut polygons = Sequence::new(alloc);
    match plan.polygons {
        [one] => polygons.push(polygon(rt, alloc, one)?)?,
        [one, two] => {
            polygons.push(polygon(rt, alloc, one)?)?;
            polygons.push(polygon(rt, alloc, two)?)?;
        }
        [one, two, three] => {
            polygons.push(polygon(rt, alloc, one)?)?;
            polygons.push(polygon(rt, alloc, two)?)?;
            polygons.push(polygon(rt, alloc, three)?)?;
        }
        [one, two, three, four] => {
            polygons.push(polygon(rt, alloc, one)?)?;
            polygons.push(polygon(rt, alloc, two)?)?;
            polygons.push(polygon(rt, alloc, three)?)?;
            polygons.push(polygon(rt, alloc, four)?)?;
        }
        _ => return Err("too many polygons".into()),
    }
    Ok(Shape {
        polygons,
        glues,
        straight,
    })
}

// The surface of a plan.
pub fn surface_of(rt: &impl Abort, alloc: Global, plan: &Plan) -> Result<Surface, Fail> {
    let field = Field::new(plan.d).expect(rt, "a squarefree d");
    let shape = shape_of(rt, alloc, plan)?;
    Ok(build(alloc, field, &shape).expect(rt, "a surface"))
}

// What the search for an exchange returns.
pub fn search(
    rt: &impl Abort,
    alloc: Global,
    surface: &Surface,
    v: Vector,
) -> Result<Exchange, Stop> {
    let direction = vector(rt, v);
    assert!(rt; direction != V2::ZERO);
    find_exchange(alloc, surface, direction)
}

// The exchange of a surface in a direction in which nothing overflows.
pub fn exchange_of(rt: &impl Abort, alloc: Global, surface: &Surface, v: Vector) -> Exchange {
    search(rt, alloc, surface, v).expect(rt, "an exchange")
}

// That a letter of an exchange is as told.
pub fn expect_letter(rt: &impl Abort, exchange: &Exchange, n: u32, letter: &Letter) {
    let (length, back, start, (from_start, start_real), (to_end, end_real)) = *letter;
    assert!(rt; n < exchange.letters());
    assert!(rt;
        exchange.length(n) == elem(rt, length),
        "length of letter {n}"
    );
    assert!(rt;
        exchange.back(n) == vector(rt, back),
        "return vector of letter {n}"
    );
    assert!(rt;
        exchange.start_corner(n) == corner(start),
        "corner of letter {n}"
    );
    let start_tag = Tag {
        v: vector(rt, from_start),
        real: start_real,
    };
    assert!(rt; exchange.start_tag(n) == start_tag, "start of letter {n}");
    let end_tag = Tag {
        v: vector(rt, to_end),
        real: end_real,
    };
    assert!(rt; exchange.end_tag(n) == end_tag, "end of letter {n}");
}

// That the letter at a place of the bottom row is as told.
pub fn expect_bottom(rt: &impl Abort, exchange: &Exchange, n: u32, letter: u32) {
    assert!(rt; n < exchange.letters());
    assert!(rt; exchange.bottom(n) == letter, "place {n} of the bottom row");
}

// That an exchange is as a row tells.
fn expect_exchange(rt: &impl Abort, exchange: &Exchange, row: usize, told: &Told) {
    assert!(rt;
        exchange.total() == elem(rt, told.total),
        "total of row {row}"
    );
    assert!(rt;
        exchange.letters() as usize == told.letters.len(),
        "letters of row {row}"
    );
    assert!(rt;
        told.bottom.len() == told.letters.len(),
        "letters of row {row}"
    );
    for n in 0..exchange.letters() {
        let k = n as usize;
        assert!(rt; k < told.letters.len(), "row {row}");
        assert!(rt; k < told.bottom.len(), "row {row}");
        expect_letter(rt, exchange, n, &told.letters[k]);
        expect_bottom(rt, exchange, n, told.bottom[k]);
    }
}

// That the exchange of each row's direction on the surface of a plan is as the row tells.
pub fn expect_exchanges(
    rt: &impl Abort,
    alloc: Global,
    plan: &Plan,
    rows: &[Told],
) -> Result<(), Fail> {
    let surface = surface_of(rt, alloc, plan)?;
    for (row, told) in rows.iter().enumerate() {
        let exchange = exchange_of(rt, alloc, &surface, told.v);
        assert!(rt; exchange.field() == surface.field(), "field of row {row}");
        expect_exchange(rt, &exchange, row, told);
    }
    Ok(())
}

// What the image of a position returns.
pub fn image_of(rt: &impl Abort, exchange: &Exchange, y: Elem) -> Result<Elem, Place> {
    let field = exchange.field();
    assert!(rt; field.cmp(y, Elem::ZERO) != Ordering::Less);
    assert!(rt; field.cmp(y, exchange.total()) == Ordering::Less);
    exchange.image(y)
}

// That the image of a position is as told.
fn expect_image(rt: &impl Abort, exchange: &Exchange, y: Pair, z: Pair) {
    let image = image_of(rt, exchange, elem(rt, y));
    assert!(rt; image == Ok(elem(rt, z)), "image of {y:?}");
}

// That each position of an orbit is the image of the one before, and the first that of the last.
fn expect_orbit(rt: &impl Abort, exchange: &Exchange, orbit: &[Pair]) {
    let mut before = match orbit.last() {
        Some(last) => *last,
        None => panic!(rt; "an orbit without positions"),
    };
    for position in orbit {
        expect_image(rt, exchange, before, *position);
        before = *position;
    }
}

// That the images of positions under the exchanges of a plan's surface are as the rows tell.
pub fn expect_images(
    rt: &impl Abort,
    alloc: Global,
    plan: &Plan,
    rows: &[Moves],
) -> Result<(), Fail> {
    let surface = surface_of(rt, alloc, plan)?;
    for moves in rows {
        let exchange = exchange_of(rt, alloc, &surface, moves.v);
        for (y, z) in moves.images {
            expect_image(rt, &exchange, *y, *z);
        }
        for orbit in moves.orbits {
            expect_orbit(rt, &exchange, orbit);
        }
    }
    Ok(())
}

// Whether what the search for an exchange returns is as a row tells.
fn is_found(rt: &impl Abort, returned: &Result<Exchange, Stop>, told: &Found) -> bool {
    match (returned, told) {
        (Ok(exchange), Found::Total(total)) => exchange.total() == elem(rt, *total),
        (
            Err(
                Stop::Overflow(
                    Site::Letter {
                        polygon,
                        side,
                        place,
                    },
                ),
            ),
            Found::Letter(i, j, p),
        ) => polygon == i && side == j && place == p,
        (
            Err(
                Stop::Overflow(
                    Site::Shift {
                        polygon,
                        side,
                        place,
                    },
                ),
            ),
            Found::Shift(i, j, p),
        ) => polygon == i && side == j && place == p,
        _ => false,
    }
}

// That what the search for an exchange returns on a surface is as told.
pub fn expect_found(rt: &impl Abort, alloc: Global, surface: &Surface, v: Vector, told: &Found) {
    let returned = search(rt, alloc, surface, v);
    assert!(rt; is_found(rt, &returned, told), "exchange along {v:?}");
}

// That what the search for an exchange returns on the surface of a plan is as the rows tell.
pub fn expect_sites(
    rt: &impl Abort,
    alloc: Global,
    plan: &Plan,
    rows: &[Sites],
) -> Result<(), Fail> {
    let surface = surface_of(rt, alloc, plan)?;
    for (v, told) in rows {
        expect_found(rt, alloc, &surface, *v, told);
    }
    Ok(())
}

// That what the image of a position returns is as told.
pub fn expect_shown(rt: &impl Abort, exchange: &Exchange, y: Pair, shown: &Shown) {
    let expected = match shown {
        Shown::At(z) => Ok(elem(rt, *z)),
        Shown::Overflow(place) => Err(Place(*place)),
    };
    let image = image_of(rt, exchange, elem(rt, y));
    assert!(rt; image == expected, "image of {y:?}");
}

// That what the images of positions return under the exchanges of a plan's surface is as the rows tell.
pub fn expect_places(
    rt: &impl Abort,
    alloc: Global,
    plan: &Plan,
    rows: &[Places],
) -> Result<(), Fail> {
    let surface = surface_of(rt, alloc, plan)?;
    for places in rows {
        let exchange = exchange_of(rt, alloc, &surface, places.v);
        for (y, shown) in places.images {
            expect_shown(rt, &exchange, *y, shown);
        }
    }
    Ok(())
}
