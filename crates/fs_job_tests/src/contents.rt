// What a job says that is read, and the texts of sites.

use crate::common::expect_vector;
use fs_gluing::{Glue, Point, Sequence};
use fs_job::{Command, Form, print_site, read_job};
use fs_plane::{Corner, Site};
use std::alloc::Global;
use std::process::Abort;
use std::test::Fail;

// That the shape has one polygon with these two sides, and another with none.
fn expect_polygons(rt: &impl Abort, polygons: &[Sequence<Point>]) {
    assert!(rt; polygons.len() == 2);
    assert!(rt; polygons[1].len() == 0);
    let sides = polygons[0].as_slice();
    assert!(rt; sides.len() == 2);
    expect_vector(rt, &sides[0], "1/2", "-1+1/2r");
    expect_vector(rt, &sides[1], "0", "1r");
}

// That these are the glue lines of lines 4 and 8.
fn expect_glues(rt: &impl Abort, glues: &[Glue]) {
    let expected = [
        Glue {
            line: 4,
            one: Corner::new(7, 0),
            two: Corner::new(1, 32),
        },
        Glue {
            line: 8,
            one: Corner::new(0, 1),
            two: Corner::new(0, 1),
        },
    ];
    assert!(rt; glues == expected.as_slice());
}

// That a job has a shape with these polygons and glue lines.
fn expect_form(rt: &impl Abort, form: &Form) {
    let Form::Polygons(shape) = form else {
        panic!(rt; "no polygons");
    };
    assert!(rt; !shape.straight);
    expect_polygons(rt, shape.polygons.as_slice());
    expect_glues(rt, shape.glues.as_slice());
}

#[test]
fn what_a_job_says(rt: HostRuntime) -> Result<(), Fail> {
    let text =
        b"\nflatsurf 1\r\n\tfield 0005 \nglue 0007.0 1.0032\n\npolygon 1/2,-1+2/4r 00,1r\npolygon\nglue 0.1 0.1\ncheck\ncheck\nend";
    let job = read_job(rt.alloc(), text).ok().ok_or("no job")?;
    assert!(rt; job.field.d() == 5);
    assert!(rt; matches!(job.commands.as_slice(), [Command::Check, Command::Check]));
    expect_form(&rt, &job.form);
    Ok(())
}

#[test]
fn sites_as_they_are_printed(rt: HostRuntime) -> Result<(), Fail> {
    let (polygon, side, corner, place) = (255, 1023, 20, 4);
    let rows = [
        (
            Site::Scale {
                polygon,
                side,
                place,
            },
            "scale 255 1023 4",
        ),
        (
            Site::Close {
                polygon,
                side,
                place,
            },
            "close 255 1023 4",
        ),
        (
            Site::Corner {
                polygon,
                side,
                place,
            },
            "corner 255 1023 4",
        ),
        (
            Site::Area {
                polygon,
                corner,
                place,
            },
            "area 255 20 4",
        ),
        (Site::AreaScale { place }, "areascale 4"),
        (Site::Grid { place }, "grid 4"),
        (Site::Enter { place }, "enter 4"),
        (
            Site::Walk {
                crossings: 99,
                place,
            },
            "walk 99 4",
        ),
        (Site::TableScale { side, place }, "tscale 1023 4"),
        (Site::TableClose { side, place }, "tclose 1023 4"),
        (Site::TableCorner { side, place }, "tcorner 1023 4"),
        (Site::Reflect { side, place }, "reflect 1023 4"),
        (
            Site::Product {
                product: 23,
                side,
                place,
            },
            "product 23 1023 4",
        ),
        (
            Site::Copy {
                copy: 23,
                side,
                place,
            },
            "copy 23 1023 4",
        ),
    ];
    for (site, text) in rows {
        assert!(rt; prints(rt.alloc(), &site, text)?, "{text}");
    }
    Ok(())
}

#[test]
fn sites_of_edges_and_events_as_they_are_printed(rt: HostRuntime) -> Result<(), Fail> {
    let (polygon, side, place) = (3, 0, 6020);
    let rows = [
        (
            Site::Circle {
                flips: 0,
                edge: 17,
                place,
            },
            "circle 0 17 6020",
        ),
        (
            Site::Flip {
                flips: 1000000,
                edge: 17,
                place,
            },
            "flip 1000000 17 6020",
        ),
        (Site::Bound { place }, "bound 6020"),
        (
            Site::First {
                half_edge: 5,
                place,
            },
            "first 5 6020",
        ),
        (Site::Fan { word: 8, place }, "fan 8 6020"),
        (Site::Keep { vector: 9, place }, "keep 9 6020"),
        (Site::Home { ray: 10, place }, "home 10 6020"),
        (
            Site::Letter {
                polygon,
                side,
                place,
            },
            "letter 3 0 6020",
        ),
        (
            Site::Shift {
                polygon,
                side,
                place,
            },
            "shift 3 0 6020",
        ),
        (
            Site::Event {
                event: 4294967295,
                place,
            },
            "event 4294967295 6020",
        ),
        (
            Site::Value {
                component: 2,
                place,
            },
            "value 2 6020",
        ),
    ];
    for (site, text) in rows {
        assert!(rt; prints(rt.alloc(), &site, text)?, "{text}");
    }
    Ok(())
}

// Whether the site is printed as that text.
fn prints(alloc: Global, site: &Site, text: &str) -> Result<bool, Fail> {
    let printed = print_site(alloc, site).ok().ok_or("no memory")?;
    Ok(printed.as_str() == text)
}
