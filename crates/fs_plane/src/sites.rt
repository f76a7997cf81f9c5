ghost use Rattle.std.specs.Prelude.{◌≡◌};
ghost use Rattle.fs_plane.specs.declared.sites.Site.{Site};
ghost use Rattle.fs_plane.specs.declared.sites.Stop.TheVariants.{Overflow, NoMemory};

use crate::corners::Corner;
use std::alloc::AllocError;

/// Where a computation overflows: a formula, what it was applied to, and the place in it. The
/// numbers are in the order in which they are printed.
#[derive(Clone, Copy, Debug, PartialEq, Eq, Hash)]
pub enum Site {
    /// A coordinate of side `side` of a polygon, times the common denominator: places 1 and 2 are
    /// the common denominator up to its x and its y, places 3 and 4 the parts of x, 5 and 6 those
    /// of y.
    Scale {
        polygon: u32,
        side: u32,
        place: u32,
    },
    /// The position of corner `side` of a polygon plus that side: place 1 is x, place 2 is y.
    Close {
        polygon: u32,
        side: u32,
        place: u32,
    },
    /// The test of the two sides at a corner: places 1 to 3 are their cross product, places 4 to 6
    /// their dot product, where the cross product is 0 and straight corners are allowed.
    Corner {
        polygon: u32,
        side: u32,
        place: u32,
    },
    /// The area of a polygon's triangle of corner 0, corner `corner` and the next one: places 1 to
    /// 3 are the cross product of the positions of the latter two, place 4 its sum with that of
    /// the triangles before.
    Area {
        polygon: u32,
        corner: u32,
        place: u32,
    },
    /// The unscaled area: half of that sum over the denominator is place 1, and this over the
    /// denominator once more place 2.
    AreaScale {
        place: u32,
    },
    /// A part of a vector that a job gives, times the denominator over its own: places 1 and 2 are the parts of x, 3
    /// and 4 those of y.
    Grid {
        place: u32,
    },
    /// The beginning of a straight path: places 1 to 9 are the test of the corner's sector, places 10 to 15
    /// compare the lengths of the vector and of the side along which it runs.
    Enter {
        place: u32,
    },
    /// A straight path after some crossings: the position of a corner of the polygon, on which side of the path it is, and
    /// whether the path ends before it or before the side to it.
    Walk {
        crossings: u32,
        place: u32,
    },
    /// The circle value of an edge after some flips, by the places of `circle`.
    Circle {
        flips: u32,
        edge: u32,
        place: u32,
    },
    /// The flip of an edge after some flips: places 1 and 2 are the vector of the new edge. Then place 2 + 18t + q is place
    /// q of the test whether this vector is in the sector of a corner, where t is the number of the corner, from 0, in the
    /// order round the vertex; place 11 + 18t + q is the same for the opposite vector at the edge's other end.
    Flip {
        flips: u32,
        edge: u32,
        place: u32,
    },
    /// The bound of the squared lengths, scaled: place 1 is the bound times the denominator, place 2 that times the
    /// denominator once more.
    Bound {
        place: u32,
    },
    /// The first triangle of a fan: places 1 to 3 are the squared length of the half-edge, places 4 to 25 the test whether
    /// the opposite side comes within the bound.
    First {
        half_edge: u32,
        place: u32,
    },
    /// A word of crossed half-edges, by the number of words before it: places 1 and 2 are the corner beyond, 3 to 8 the
    /// cross products that compare it with the word's bounds, 9 to 11 its squared length, 12 to 33 and 34 to 55 the tests
    /// whether each of the two sides beyond comes within the bound.
    Fan {
        word: u32,
        place: u32,
    },
    /// A vector that is kept in a list: the first of its parts that is too large, 1 and 2 of x, 3 and 4 of y.
    Keep {
        vector: u32,
        place: u32,
    },
    /// The corner at which a ray that was found begins: place 9t + q is place q of the test whether the ray is in the
    /// sector of a corner, where t is the number of the corner, from 0, in the order round the vertex.
    Home {
        ray: u32,
        place: u32,
    },
    /// The length of a letter: places 1 to 3 are the cross product of the side and the direction, place 4 the sum of the
    /// lengths up to an incoming side.
    Letter {
        polygon: u32,
        side: u32,
        place: u32,
    },
    /// The return vector of a letter, by its outgoing side: place 1 is x, place 2 is y.
    Shift {
        polygon: u32,
        side: u32,
        place: u32,
    },
    /// An event of the induction, by the number of events before it.
    Event {
        event: u32,
        place: u32,
    },
    /// The lengths and the area of a component: places 1 to 5 are the square of the circumference, 6 to 13 the square of
    /// the height, 14 to 20 the area; from 21 on come the letters of a component without a cylinder, five places each,
    /// and 6018 to 6020 are its area.
    Value {
        component: u32,
        place: u32,
    },
    /// A coordinate of a table's side, with the places of `Scale`.
    TableScale {
        side: u32,
        place: u32,
    },
    /// The position of a table's corner plus the side there, with the places of `Close`.
    TableClose {
        side: u32,
        place: u32,
    },
    /// The test of the two sides at a table's corner, with the places of `Corner`.
    TableCorner {
        side: u32,
        place: u32,
    },
    /// The reflection in a table's side: places 1 to 3 are the products of the coordinates, 4 the squared length, 5 its
    /// inverse, 6 to 9 the entries of the matrix.
    Reflect {
        side: u32,
        place: u32,
    },
    /// A product of reflections times the reflection in a table's side: three places for each entry of the matrix, row by row.
    Product {
        product: u32,
        side: u32,
        place: u32,
    },
    /// A side of a copy of the table, which is a product of reflections times the table's side: places 1 to 3 are x, 4 to 6
    /// are y.
    Copy {
        copy: u32,
        side: u32,
        place: u32,
    },
}

impl Site {
    /// The site of the scaling of a side, by its place.
    pub fn scaling(corner: Corner, place: u32) -> Site
        ensures { result ≡ Site.Scale corner.polygon corner.side place }
    {
        let (polygon, side) = numbers(corner);
        Site::Scale {
            polygon,
            side,
            place,
        }
    }

    /// The site of the sum of a corner's position and its side, by its place.
    pub fn closing(corner: Corner, place: u32) -> Site
        ensures { result ≡ Site.Close corner.polygon corner.side place }
    {
        let (polygon, side) = numbers(corner);
        Site::Close {
            polygon,
            side,
            place,
        }
    }

    /// The site of the test of a corner, by its place.
    pub fn convexity(corner: Corner, place: u32) -> Site
        ensures { result ≡ Site.Corner corner.polygon corner.side place }
    {
        let (polygon, side) = numbers(corner);
        Site::Corner {
            polygon,
            side,
            place,
        }
    }

    /// The site of the length of a side's letter, by its place.
    pub fn measuring(corner: Corner, place: u32) -> Site
        ensures { result ≡ Site.Letter corner.polygon corner.side place }
    {
        let (polygon, side) = numbers(corner);
        Site::Letter {
            polygon,
            side,
            place,
        }
    }

    /// The site of the return vector of an outgoing side's letter, by its place.
    pub fn returning(corner: Corner, place: u32) -> Site
        ensures { result ≡ Site.Shift corner.polygon corner.side place }
    {
        let (polygon, side) = numbers(corner);
        Site::Shift {
            polygon,
            side,
            place,
        }
    }

    /// The site of the triangle of corner 0, a corner and the next one, by its place.
    pub fn triangle(corner: Corner, place: u32) -> Site
        ensures { result ≡ Site.Area corner.polygon corner.side place }
    {
        let (polygon, corner) = numbers(corner);
        Site::Area {
            polygon,
            corner,
            place,
        }
    }
}

// The two numbers of a corner, as a site holds them.
fn numbers(corner: Corner) -> (u32, u32)
    ensures polygon { result.0 ≡ corner.polygon }
    ensures side { result.1 ≡ corner.side }
{
    (u32::from(corner.polygon), u32::from(corner.side))
}

/// Why a computation over a surface has no result.
#[derive(Clone, Copy, Debug, PartialEq, Eq, Hash)]
pub enum Stop {
    /// The budget of so many steps is spent.
    Undecided(u32),
    /// A number overflows.
    Overflow(Site),
    /// Memory ran out.
    NoMemory,
}

impl From<Site> for Stop {
    ghost from_gives = { λ site e. e ≡ Overflow site };

    fn from(site: Site) -> Stop {
        Stop::Overflow(site)
    }
}

impl From<AllocError> for Stop {
    ghost from_gives = { λ _ e. e ≡ NoMemory };

    fn from(_e: AllocError) -> Stop {
        Stop::NoMemory
    }
}
