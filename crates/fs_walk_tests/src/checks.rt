// Whether a vector leads across the sides of a word to a vertex.

use crate::common::{Name, Plan, Told, Vector, corner, is_site, surface_of, vector};
use crate::plans::{DOUBLED, L_SHAPE, LONG, OCTAGON, SQUARE, STRAIGHT};
use fs_develop::check_segment;
use fs_gluing::{Sequence, Surface};
use fs_plane::{Corner, Site, V2};
use std::alloc::{AllocError, Global};
use std::process::Abort;
use std::test::Fail;

// Where a path starts, a word, a vector, and whether it leads across these sides to a vertex.
type Check = (Name, &'static [Name], Vector, bool);

static SQUARE_CHECKS: [Check; 28] = [
    ((0, 0), &[(0, 1), (0, 1)], ((3, 0), (1, 0)), true),
    ((0, 0), &[], ((3, 0), (1, 0)), false),
    ((0, 0), &[(0, 1)], ((3, 0), (1, 0)), false),
    ((0, 0), &[(0, 1), (0, 1), (0, 1)], ((3, 0), (1, 0)), false),
    ((0, 0), &[(0, 1), (0, 1), (0, 2)], ((3, 0), (1, 0)), false),
    ((0, 0), &[(0, 1), (0, 2)], ((3, 0), (1, 0)), false),
    ((0, 0), &[(0, 2), (0, 1)], ((3, 0), (1, 0)), false),
    ((0, 0), &[(0, 1), (0, 3)], ((3, 0), (1, 0)), false),
    ((0, 0), &[(0, 1)], ((2, 0), (1, 0)), true),
    ((0, 0), &[(0, 3)], ((2, 0), (1, 0)), false),
    ((0, 0), &[(0, 2)], ((2, 0), (1, 0)), false),
    ((0, 0), &[(0, 4)], ((2, 0), (1, 0)), false),
    ((0, 0), &[(1, 1)], ((2, 0), (1, 0)), false),
    ((0, 0), &[(65535, 65535)], ((2, 0), (1, 0)), false),
    ((0, 0), &[(0, 1), (7, 0)], ((3, 0), (1, 0)), false),
    ((0, 0), &[], ((1, 0), (1, 0)), true),
    ((0, 0), &[(0, 1)], ((1, 0), (1, 0)), false),
    ((0, 0), &[], ((1, 0), (0, 0)), true),
    ((0, 0), &[(0, 0)], ((1, 0), (0, 0)), false),
    ((0, 0), &[(0, 1)], ((1, 0), (0, 0)), false),
    ((0, 0), &[(7, 0)], ((1, 0), (0, 0)), false),
    ((0, 0), &[], ((2, 0), (0, 0)), false),
    ((0, 0), &[], ((2, 0), (2, 0)), false),
    ((0, 0), &[], ((-1, 1), (0, 0)), false),
    ((0, 0), &[], ((0, 0), (1, 0)), false),
    ((0, 0), &[(0, 1)], ((0, 1), (1, 0)), false),
    ((0, 1), &[(0, 2)], ((-1, 0), (2, 0)), true),
    ((0, 2), &[(0, 0)], ((-1, 0), (-2, 0)), true),
];

static DOUBLED_CHECKS: [Check; 4] = [
    ((0, 0), &[], ((1, 0), (1, 0)), false),
    ((0, 0), &[], ((1, 0), (0, 0)), false),
    ((0, 0), &[(0, 1)], ((3, 0), (1, 0)), false),
    ((0, 0), &[(0, 1)], ((4, 0), (2, 0)), true),
];

static OCTAGON_CHECKS: [Check; 3] = [
    ((0, 0), &[(0, 2)], ((4, 2), (2, 2)), true),
    ((0, 0), &[(0, 6)], ((4, 2), (2, 2)), false),
    ((0, 0), &[], ((2, 0), (2, 2)), true),
];

static L_SHAPE_CHECKS: [Check; 4] = [
    ((0, 0), &[(0, 1), (1, 2), (1, 1)], ((3, 0), (2, 0)), true),
    ((0, 0), &[(0, 1), (1, 2), (0, 1)], ((3, 0), (2, 0)), false),
    ((0, 0), &[(0, 1)], ((4, 0), (2, 0)), false),
    ((0, 0), &[(0, 2), (2, 1), (2, 2)], ((2, 0), (3, 0)), true),
];

static STRAIGHT_CHECKS: [Check; 2] = [
    ((0, 0), &[], ((2, 0), (0, 0)), false),
    ((0, 1), &[], ((0, 0), (1, 0)), true),
];

// The corners of these names.
fn corners(alloc: Global, names: &[Name]) -> Result<Sequence<Corner>, AllocError> {
    let mut corners = Sequence::new(alloc);
    for name in names {
        corners.push(corner(*name))?;
    }
    Ok(corners)
}

// What the check of a word returns.
fn checked(
    rt: &impl Abort,
    surface: &Surface,
    start: Corner,
    word: &[Corner],
    v: V2,
) -> Result<bool, Site> {
    assert!(rt; surface.has(start));
    assert!(rt; v != V2::ZERO);
    assert!(rt; word.len() <= 1_000_000);
    check_segment(surface, start, word, v)
}

// That each check on the surface of a plan returns what its row tells.
fn expect_checks(rt: &impl Abort, alloc: Global, plan: &Plan, rows: &[Check]) -> Result<(), Fail> {
    let surface = surface_of(rt, alloc, plan)?;
    for (number, (start, names, v, expected)) in rows.iter().enumerate() {
        let word = corners(alloc, names)?;
        let returned = checked(
            rt,
            &surface,
            corner(*start),
            word.as_slice(),
            vector(rt, *v),
        );
        assert!(rt; returned == Ok(*expected), "row {number}");
    }
    Ok(())
}

#[test]
fn words_in_the_unit_square(rt: HostRuntime) -> Result<(), Fail> {
    expect_checks(&rt, rt.alloc(), &SQUARE, &SQUARE_CHECKS)
}

#[test]
fn words_in_a_square_of_sides_2(rt: HostRuntime) -> Result<(), Fail> {
    expect_checks(&rt, rt.alloc(), &DOUBLED, &DOUBLED_CHECKS)
}

#[test]
fn words_in_the_octagon(rt: HostRuntime) -> Result<(), Fail> {
    expect_checks(&rt, rt.alloc(), &OCTAGON, &OCTAGON_CHECKS)
}

#[test]
fn words_in_the_l_shape(rt: HostRuntime) -> Result<(), Fail> {
    expect_checks(&rt, rt.alloc(), &L_SHAPE, &L_SHAPE_CHECKS)
}

#[test]
fn words_with_straight_corners(rt: HostRuntime) -> Result<(), Fail> {
    expect_checks(&rt, rt.alloc(), &STRAIGHT, &STRAIGHT_CHECKS)
}

// 2^127 - 1: along (2^127 - 1, 1) a path leaves a rectangle of 2^126 by 1 by side 1, and overflows after it.
const MOST: i128 = 170141183460469231731687303715884105727;

// What overflows: words from corner 0.0, a vector, and the site.
static OVERFLOWS: [(&[Name], Vector, Told); 3] = [
    (&[(0, 1)], ((MOST, 0), (1, 0)), Told::Walk(1, 1)),
    (&[(0, 1), (0, 1)], ((MOST, 0), (1, 0)), Told::Walk(1, 1)),
    (&[(0, 1)], ((1, 0), (2, 0)), Told::Enter(1)),
];

// The path is followed along the word alone, so that no site comes after the first side that it doesn't cross.
static FOLLOWED: [Check; 3] = [
    ((0, 0), &[], ((MOST, 0), (1, 0)), false),
    ((0, 0), &[(0, 2)], ((MOST, 0), (1, 0)), false),
    ((0, 0), &[(0, 3), (0, 1)], ((MOST, 0), (1, 0)), false),
];

#[test]
fn sites_along_words(rt: HostRuntime) -> Result<(), Fail> {
    let surface = surface_of(&rt, rt.alloc(), &LONG)?;
    for (number, (names, v, told)) in OVERFLOWS.iter().enumerate() {
        let word = corners(rt.alloc(), names)?;
        let start = Corner::new(0, 0);
        match checked(&rt, &surface, start, word.as_slice(), vector(&rt, *v)) {
            Ok(_) => panic!(rt; "row {number}"),
            Err(site) => assert!(rt; is_site(site, told), "row {number}"),
        }
    }
    Ok(())
}

#[test]
fn no_site_after_a_word(rt: HostRuntime) -> Result<(), Fail> {
    expect_checks(&rt, rt.alloc(), &LONG, &FOLLOWED)
}
