// Two polygons of 512 sides each, the one the point reflection of the other, side j glued to side j. Their exchanges have
// 512 letters, which a formula gives: the bottom row is the top row from right to left.
ghost use Rattle.std.specs.Prelude.{◌≤◌, IfOk, length};
ghost use Rattle.fs_gluing.specs.Shape.{IsWithinLimits};

use crate::common::{
    Found, Pair, Places, Shown, Vector, elem, exchange_of, expect_bottom, expect_found,
    expect_letter, expect_shown, image_of,
};
use fs_fraction::Frac;
use fs_gluing::{Glue, Point, Sequence, Shape, Surface, build};
use fs_iet::Exchange;
use fs_plane::Corner;
use fs_quadratic::{Elem, Field};
use std::alloc::{AllocError, Global};
use std::process::Abort;
use std::test::Fail;

// A vector with whole coordinates.
type Whole = (i64, i64);

// A direction, which is a vector with small whole coordinates times a number, by which all lengths are multiplied too; how
// many sides of polygon 0 are incoming, which are its first ones; and the sum of the lengths.
struct Direction {
    whole: Whole,
    factor: Pair,
    incoming: u16,
    total: i64,
}

static DIRECTIONS: [Direction; 3] = [
    Direction {
        whole: (2, 1),
        factor: (1, 0),
        incoming: 256,
        total: 131072,
    },
    Direction {
        whole: (2, 1),
        factor: (-1, 1),
        incoming: 256,
        total: 131072,
    },
    Direction {
        whole: (1, 600),
        factor: (1, 0),
        incoming: 511,
        total: 613200,
    },
];

// Side j of polygon 0: they lead to the right, ever steeper, and the last one back to the left.
fn side(j: u16) -> Whole {
    if j < 511 {
        (1, i64::from(j) - 255)
    } else {
        (-511, 0)
    }
}

// The position of corner j of polygon 0, where corner 512 is corner 0 again.
fn position(j: u16) -> Whole {
    if j < 512 {
        let x = i64::from(j);
        (x, x * (x - 1) / 2 - 255 * x)
    } else {
        (0, 0)
    }
}

// The vector of polygon 0, or the opposite one of polygon 1.
fn vector_in(polygon: u16, v: Whole) -> Vector {
    let (x, y) = v;
    if polygon == 0 {
        ((i128::from(x), 0), (i128::from(y), 0))
    } else {
        ((-i128::from(x), 0), (-i128::from(y), 0))
    }
}

// A number a fixed number of times.
fn times(rt: &impl Abort, n: i64, x: Pair) -> Pair {
    let k = i128::from(n);
    (
        k.checked_mul(x.0).expect(rt, "a small product"),
        k.checked_mul(x.1).expect(rt, "a small product"),
    )
}

// The vector of a direction.
fn direction_of(rt: &impl Abort, direction: &Direction) -> Vector {
    (
        times(rt, direction.whole.0, direction.factor),
        times(rt, direction.whole.1, direction.factor),
    )
}

// One of the polygons.
fn polygon(rt: &impl Abort, alloc: Global, number: u16) -> Result<Sequence<Point>, AllocError>
    ensures { IfOk result (λ points. length points ≤ 512) }
{
    let mut points = Sequence::new(alloc);
    for j in 0..512 {
        let (x, y) = vector_in(number, side(j));
        points.push(Point {
            x: Frac::new(elem(rt, x), 1),
            y: Frac::new(elem(rt, y), 1),
        })?;
    }
    assert!(rt; points.len() <= 512);
    Ok(points)
}

// The shape: side j is glued to side j.
fn shape(rt: &impl Abort, alloc: Global) -> Result<Shape, AllocError>
    ensures { IfOk result (λ shape. IsWithinLimits shape) }
{
    let mut glues = Sequence::new(alloc);
    for j in 0..512 {
        glues.push(Glue {
            line: 0,
            one: Corner::new(0, j),
            two: Corner::new(1, j),
        })?;
    }
    let mut polygons = Sequence::new(alloc);
    polygons.push(polygon(rt, alloc, 0)?)?;
    polygons.push(polygon(rt, alloc, 1)?)?;
    Ok(Shape {
        polygons,
        glues,
        straight: false,
    })
}

// The surface.
fn surface(rt: &impl Abort, alloc: Global) -> Result<Surface, Fail> {
    let field = Field::new(2).expect(rt, "a squarefree d");
    let shape = shape(rt, alloc)?;
    Ok(build(alloc, field, &shape).expect(rt, "a surface"))
}

// A small product.
fn product(rt: &impl Abort, x: i64, y: i64) -> i64 {
    x.checked_mul(y).expect(rt, "a small product")
}

// A small sum.
fn sum(rt: &impl Abort, x: i64, y: i64) -> i64 {
    x.checked_add(y).expect(rt, "a small sum")
}

// The cross product of side j of polygon 0 and a direction's whole vector.
fn width(rt: &impl Abort, direction: &Direction, j: u16) -> i64 {
    let (a, b) = side(j);
    let (x, y) = direction.whole;
    let (one, two) = (product(rt, a, y), product(rt, b, x));
    one.checked_sub(two).expect(rt, "a small difference")
}

// The absolute value of that.
fn size(rt: &impl Abort, direction: &Direction, j: u16) -> i64 {
    let width = width(rt, direction, j);
    assert!(rt; -1_000_000 <= width && width <= 1_000_000);
    if width < 0 { -width } else { width }
}

// That the letter by which the flow leaves side j is as the formula gives it. By polygon 0 it leaves where the width is
// negative. There the leftmost incoming side is side 0, and the leftmost outgoing one is side 511; in polygon 1 they are the
// first side after those that are incoming in polygon 0, and the last of these.
fn expect_side(rt: &impl Abort, exchange: &Exchange, direction: &Direction, n: u32, j: u16) {
    assert!(rt; j < 512);
    let negative = width(rt, direction, j) < 0;
    let last = direction.incoming.checked_sub(1).expect(rt, "a side");
    let (leaves, enters) = if negative { (0, 1) } else { (1, 0) };
    let (first_entered, first_left) = if negative {
        (direction.incoming, 511)
    } else {
        (0, last)
    };
    let length = times(rt, size(rt, direction, j), direction.factor);
    let (at, after) = (position(j), position(j + 1));
    let both = (sum(rt, at.0, after.0), sum(rt, at.1, after.1));
    let start = (vector_in(leaves, at), j != first_entered);
    let end = (vector_in(leaves, after), j != first_left);
    let back = vector_in(leaves, both);
    expect_letter(rt, exchange, n, &(length, back, (enters, j), start, end));
}

#[test]
fn letters(rt: HostRuntime) -> Result<(), Fail> {
    let surface = surface(&rt, rt.alloc())?;
    for direction in &DIRECTIONS {
        let exchange = exchange_of(&rt, rt.alloc(), &surface, direction_of(&rt, direction));
        assert!(&rt; exchange.letters() == 512);
        let total = times(&rt, direction.total, direction.factor);
        assert!(&rt; exchange.total() == elem(&rt, total));
        for n in 0..512u16 {
            let letter = u32::from(n);
            expect_side(&rt, &exchange, direction, letter, 511 - n);
            expect_bottom(&rt, &exchange, letter, 511 - letter);
        }
    }
    Ok(())
}

// The position at a whole number of factors, and so much more.
fn position_at(rt: &impl Abort, n: i64, factor: Pair, more: Pair) -> Elem {
    let (p, q) = times(rt, n, factor);
    elem(
        rt,
        (
            p.checked_add(more.0).expect(rt, "a small sum"),
            q.checked_add(more.1).expect(rt, "a small sum"),
        ),
    )
}

// That a letter's left end, and a number just below its right end, have the images that the reversal gives. A letter is as far
// from the right in the bottom row as it is from the left in the top row.
fn expect_ends(rt: &impl Abort, exchange: &Exchange, direction: &Direction, left: i64, right: i64) {
    let factor = direction.factor;
    assert!(rt; 0 <= left && left <= right && right <= direction.total);
    assert!(rt; direction.total <= 1_000_000);
    let y = position_at(rt, left, factor, (0, 0));
    let z = position_at(rt, direction.total - right, factor, (0, 0));
    assert!(rt; image_of(rt, exchange, y) == Ok(z), "image of {y:?}");
    let below = position_at(rt, right, factor, (-99, 70));
    let image = position_at(rt, direction.total - left, factor, (-99, 70));
    assert!(rt;
        image_of(rt, exchange, below) == Ok(image),
        "image of {below:?}"
    );
}

#[test]
fn images(rt: HostRuntime) -> Result<(), Fail> {
    let surface = surface(&rt, rt.alloc())?;
    for direction in &DIRECTIONS {
        let exchange = exchange_of(&rt, rt.alloc(), &surface, direction_of(&rt, direction));
        let mut left = 0i64;
        for n in 0..512 {
            let length = size(&rt, direction, 511 - n);
            let right = sum(&rt, left, length);
            expect_ends(&rt, &exchange, direction, left, right);
            left = right;
        }
        assert!(&rt; left == direction.total);
    }
    Ok(())
}

// Along (2,1) times √2 - 1: the first, the middle and the last place of either row, and the positions with the greatest and
// with the least p that the image of a position takes.
static PLACES: Places = Places {
    v: ((-2, 2), (-1, 1)),
    images: &[
        (
            (
                170141183460469231731687303715884105727,
                -120307984584002255772516886238812528313,
            ),
            Shown::Overflow(1),
        ),
        (
            (
                170141183460469231731687303715884040192,
                -120307984584002255772516886238812462927,
            ),
            Shown::Overflow(256),
        ),
        (
            (
                170141183460469231731687303715883975675,
                -120307984584002255772516886238812398261,
            ),
            Shown::Overflow(511),
        ),
        (
            (
                170141183460469231731687303715883975166,
                -120307984584002255772516886238812397901,
            ),
            Shown::At((
                170141183460469231731687303715884105727,
                -120307984584002255772516886238812528462,
            )),
        ),
        (
            (
                -170141183460469231731687303715884105727,
                120307984584002255772516886238812528463,
            ),
            Shown::Overflow(513),
        ),
        (
            (
                -170141183460469231731687303715884040192,
                120307984584002255772516886238812482123,
            ),
            Shown::Overflow(768),
        ),
        (
            (
                -170141183460469231731687303715883975675,
                120307984584002255772516886238812436503,
            ),
            Shown::Overflow(1023),
        ),
        (
            (
                -170141183460469231731687303715883975166,
                120307984584002255772516886238812436143,
            ),
            Shown::At((
                -170141183460469231731687303715884105727,
                120307984584002255772516886238812566704,
            )),
        ),
    ],
};

#[test]
fn places(rt: HostRuntime) -> Result<(), Fail> {
    let surface = surface(&rt, rt.alloc())?;
    let exchange = exchange_of(&rt, rt.alloc(), &surface, PLACES.v);
    for (y, shown) in PLACES.images {
        expect_shown(&rt, &exchange, *y, shown);
    }
    Ok(())
}

// Along (1,600) the last side of all is the last incoming one: there the total overflows, or just fits.
static TOTALS: [(i128, Found); 2] = [
    (
        277464421820726079144956463985460,
        Found::Total((170141183460469231731687303715884072000, 0)),
    ),
    (277464421820726079144956463985461, Found::Letter(1, 511, 4)),
];

#[test]
fn the_last_side(rt: HostRuntime) -> Result<(), Fail> {
    let surface = surface(&rt, rt.alloc())?;
    for (factor, told) in &TOTALS {
        let v = (times(&rt, 1, (*factor, 0)), times(&rt, 600, (*factor, 0)));
        expect_found(&rt, rt.alloc(), &surface, v, told);
    }
    Ok(())
}
