// Jobs read from texts, or their first faults.

use fs_gluing::Fault;
use fs_job::{Job, JobStop, read_job};
use std::alloc::{AllocError, Global};
use std::process::Abort;
use std::test::Fail;

// A result: `read`, or the name of the fault, and the line that it names, or 0.
type Told = (&'static str, u32);

// The job of the unit square.
const SQUARE: [&str; 7] = [
    "flatsurf 1",
    "field 2",
    "polygon 1,0 0,1 -1,0 0,-1",
    "glue 0.0 0.2",
    "glue 0.1 0.3",
    "check",
    "end",
];

// What replaces one of its lines, numbered from 1, and the name of the result. A fault that has
// a line has this one.
static CHANGES: [(usize, &str, &str); 166] = [
    (1, "Flatsurf 1", "BadHeader"),
    (1, "flatsurf 1 1", "BadHeader"),
    (1, "flatsurf 3", "BadHeader"),
    (1, "flatsurf\x7f 1", "NotAscii"),
    (1, " flatsurf\t1 ", "read"),
    (1, " flatsurf 1", "read"),
    (1, "flatsurf\t1", "read"),
    (1, "flatsurf 1\r", "read"),
    (1, "flatsurf 1 ", "read"),
    (2, "field 0", "BadField"),
    (2, "field 0000", "BadField"),
    (2, "field 1", "BadField"),
    (2, "field 1000", "BadField"),
    (2, "field 12", "BadField"),
    (2, "field 4", "BadField"),
    (2, "field 999", "BadField"),
    (2, "field 9999", "BadField"),
    (2, "Field 2", "BadLine"),
    (2, "field", "BadLine"),
    (2, "field +2", "BadLine"),
    (2, "field -2", "BadLine"),
    (2, "field 00002", "BadLine"),
    (2, "field 1/2", "BadLine"),
    (2, "field 12345", "BadLine"),
    (2, "field 2 2", "BadLine"),
    (2, "field 2r", "BadLine"),
    (2, " field 2", "read"),
    (2, "field\t2", "read"),
    (2, "field 0002", "read"),
    (2, "field 2\r", "read"),
    (2, "field 2 ", "read"),
    (2, "field 997", "read"),
    (2, "field 998", "read"),
    (3, "Polygon 1,0 0,1 -1,0 0,-1", "BadLine"),
    (3, "polygon 1 0,1 -1,0 0,-1", "BadLine"),
    (3, "polygon 1, 0 0,1 -1,0 0,-1", "BadLine"),
    (3, "polygon 1,0 0", "BadLine"),
    (3, "polygon 1,0,0 0,1 -1,0 0,-1", "BadLine"),
    (3, "polygon 1/2 r,0 0,1 -1,0 0,-1", "BadLine"),
    (3, "polygon 1;0 0,1 -1,0 0,-1", "BadLine"),
    (3, "polygon x,0 1", "BadLine"),
    (3, "polygons 1,0 0,1 -1,0 0,-1", "BadLine"),
    (3, "polygon , 0,1 -1,0 0,-1", "BadNumber"),
    (3, "polygon ,1 0,1 -1,0 0,-1", "BadNumber"),
    (3, "polygon -,0 0,1 -1,0 0,-1", "BadNumber"),
    (3, "polygon 1, 0,1 -1,0 0,-1", "BadNumber"),
    (3, "polygon 1,0 x,1 0,1234567890123456789", "BadNumber"),
    (
        3,
        "polygon 1/0,1234567890123456789 0,1 -1,0 0,-1",
        "BadNumber",
    ),
    (3, "polygon 1/00,0 0,1 -1,0 0,-1", "BadNumber"),
    (
        3,
        "polygon 1234567890123456789x,0 0,1 -1,0 0,-1",
        "BadNumber",
    ),
    (3, "polygon 1r+1r,0 0,1 -1,0 0,-1", "BadNumber"),
    (3, "polygon 0000000000000000001,0 0,1 -1,0 0,-1", "Wide"),
    (3, "polygon 1,0 0,1234567890123456789 x,1", "Wide"),
    (3, "polygon 1/0000000000000000000,0 0,1 -1,0 0,-1", "Wide"),
    (3, "polygon 1234567890123456789,1/0 0,1 -1,0 0,-1", "Wide"),
    (3, "polygon 1234567890123456789/0,0 0,1 -1,0 0,-1", "Wide"),
    (3, " polygon 1,0 0,1 -1,0 0,-1", "read"),
    (3, "polygon", "read"),
    (3, "polygon\t1,0\t0,1\t-1,0\t0,-1\t", "read"),
    (3, "polygon\t1,0 0,1 -1,0 0,-1", "read"),
    (3, "polygon 1+1r,0 0,2-1r -1-1r,0 0,-2+1r", "read"),
    (3, "polygon 1,0 0,1 -1,0 0,-1\r", "read"),
    (3, "polygon 1,0 0,1 -1,0 0,-1 ", "read"),
    (
        3,
        "polygon 999999999999999999/999999999999999998+999999999999999997/999999999999999996r,0 0,1 -1,0 0,-1",
        "read",
    ),
    (4, "Glue 0.0 0.2", "BadLine"),
    (4, "glue .0 0.2", "BadLine"),
    (4, "glue 0 0.2", "BadLine"),
    (4, "glue 0. 0.2", "BadLine"),
    (4, "glue 0.-0 0.2", "BadLine"),
    (4, "glue 0.0", "BadLine"),
    (4, "glue 0.0 -0.2", "BadLine"),
    (4, "glue 0.0 0,2", "BadLine"),
    (4, "glue 0.0 0.00002", "BadLine"),
    (4, "glue 0.0 0.2 0.1", "BadLine"),
    (4, "glue 0.0 0.2.", "BadLine"),
    (4, "glue 0.0 0.2r", "BadLine"),
    (4, "glue 0.0 00000.2", "BadLine"),
    (4, "glue 0.0.0 0.2", "BadLine"),
    (4, "glue 0.00000 0.2", "BadLine"),
    (4, "glue 0.a 0.2", "BadLine"),
    (4, "glue 00000.0 0.2", "BadLine"),
    (4, "glue a.0 0.2", "BadLine"),
    (4, "glue\r0.0 0.2", "NotAscii"),
    (4, "glue 0.0 0.2\r\r", "NotAscii"),
    (4, "polygon 1,0\x0c0,1", "NotAscii"),
    (4, " glue 0.0 0.2", "read"),
    (4, "glue\t0.0 0.2", "read"),
    (4, "glue 0.0\t0.2 ", "read"),
    (4, "glue 0.0  0.2", "read"),
    (4, "glue 0.0 0.2\r", "read"),
    (4, "glue 0.0 0.2 ", "read"),
    (4, "glue 0.0 0000.0002", "read"),
    (4, "glue 0.0000 0.2", "read"),
    (4, "glue 0.7 9999.9999", "read"),
    (5, "Glue 0.1 0.3", "BadLine"),
    (5, " glue 0.1 0.3", "read"),
    (5, "glue\t0.1 0.3", "read"),
    (5, "glue 0.1 0.3\r", "read"),
    (5, "glue 0.1 0.3 ", "read"),
    (6, "Check", "BadLine"),
    (6, "check now", "BadLine"),
    (6, "chek", "BadLine"),
    (6, "close", "BadLine"),
    (6, "Stratum", "BadLine"),
    (6, "stratum 1", "BadLine"),
    (6, "strata", "BadLine"),
    (6, "Delaunay", "BadLine"),
    (6, "delaunay 1", "BadLine"),
    (6, "delauney", "BadLine"),
    (6, "cell", "BadLine"),
    (6, "cells 1", "BadLine"),
    (6, "cells delaunay", "BadLine"),
    (6, "delaunay", "read"),
    (6, "\tdelaunay \r", "read"),
    (6, "cells", "read"),
    (6, "cells\t", "read"),
    (6, "stratum", "read"),
    (6, "\tstratum \r", "read"),
    (6, "saddle 1", "BadLine"),
    (6, "saddles", "BadLine"),
    (6, "saddles 1 2", "BadLine"),
    (6, "Saddles 1", "BadLine"),
    (6, "saddles x", "BadNumber"),
    (6, "saddles 1,0", "BadNumber"),
    (6, "saddles 4/2", "BadNumber"),
    (6, "saddles 1/0", "BadNumber"),
    (6, "saddles 1+1/2r", "BadNumber"),
    (6, "saddles 1/1000000000000000000", "Wide"),
    (6, "saddles 1234567890123456789", "Wide"),
    (6, "saddles 1", "read"),
    (6, "saddles -1", "read"),
    (6, "saddles 1r", "read"),
    (6, "\tsaddles 007-0r \r", "read"),
    (6, "flow", "BadLine"),
    (6, "flow 1", "BadLine"),
    (6, "flow 1,0,0", "BadLine"),
    (6, "flow 1, 0", "BadLine"),
    (6, "flow 1,0 0,1", "BadLine"),
    (6, "Flow 1,0", "BadLine"),
    (6, "flows 1,0", "BadLine"),
    (6, "flow 0,0,", "BadLine"),
    (6, "flow ,", "BadNumber"),
    (6, "flow 1,", "BadNumber"),
    (6, "flow 1/2,1", "BadNumber"),
    (6, "flow 1,4/2", "BadNumber"),
    (6, "flow 0,0/1", "BadNumber"),
    (6, "flow 4/2,1234567890123456789", "BadNumber"),
    (6, "flow 1234567890123456789,4/2", "Wide"),
    (6, "flow 1/1000000000000000000,1", "Wide"),
    (6, "flow 1,1/1000000000000000000", "Wide"),
    (6, "flow 1,0", "read"),
    (6, "flow 0,-1r", "read"),
    (6, "\tflow 007+1r,-0 \r", "read"),
    (6, "won top 1", "BadLine"),
    (6, "check\x00", "NotAscii"),
    (6, " check", "read"),
    (6, "check\t", "read"),
    (6, "check\r", "read"),
    (6, "check ", "read"),
    (7, "End", "BadLine"),
    (7, "end now", "BadLine"),
    (7, "end\x7f", "NotAscii"),
    (7, " end", "read"),
    (7, "end\t", "read"),
    (7, "end\r", "read"),
    (7, "end ", "read"),
];

// Whole texts, the name of the result of each, and its line.
static TEXTS: [(&str, &str, u32); 44] = [
    ("", "BadHeader", 0),
    (
        "flatsurf 1\nfield 2\npolygon 1,0 0,1 -1,0 0,-1\nglue 0.0 0.2\nglue 0.1 0.3\ncheck\nend\n\n",
        "read",
        0,
    ),
    (
        "flatsurf 1\nfield 2\npolygon 1,0 0,1 -1,0 0,-1\nglue 0.0 0.2\nglue 0.1 0.3\ncheck\nend\n\n \t\n",
        "read",
        0,
    ),
    (
        "\x01\nflatsurf 1\nfield 2\npolygon 1,0 0,1 -1,0 0,-1\nglue 0.0 0.2\nglue 0.1 0.3\ncheck\nend\n",
        "NotAscii",
        1,
    ),
    (
        "  flatsurf \t 1 \t\n  field \t 2 \t\n  polygon \t 1,0 \t 0,1 \t -1,0 \t 0,-1 \t\n  glue \t 0.0 \t 0.2 \t\n  glue \t 0.1 \t 0.3 \t\n  check \t\n  end \t\n",
        "read",
        0,
    ),
    (
        "flatsurf 1\nfield 2\npolygon 1,0 0,1 -1,0 0,-1\nglue 0.0 0.2\nglue 0.1 0.3\ncheck\nend\r",
        "NotAscii",
        7,
    ),
    (
        "flatsurf 1\r\nfield 2\r\npolygon 1,0 0,1 -1,0 0,-1\r\nglue 0.0 0.2\r\nglue 0.1 0.3\r\ncheck\r\nend\r\n",
        "read",
        0,
    ),
    (
        "flatsurf 1\nfield 2\npolygon 1,0 0,1 -1,0 0,-1\ncheck\nglue 0.0 0.2\nglue 0.1 0.3\nend\n",
        "BadLine",
        5,
    ),
    (
        "flatsurf 1\nfield 2\ncheck\npolygon 1,0 0,1 -1,0 0,-1\nglue 0.0 0.2\nglue 0.1 0.3\ncheck\nend\n",
        "BadLine",
        3,
    ),
    (
        "flatsurf 1\nfield 2\n# a comment\npolygon 1,0 0,1 -1,0 0,-1\nglue 0.0 0.2\nglue 0.1 0.3\ncheck\nend\n",
        "BadLine",
        3,
    ),
    ("flatsurf 1\nfield 2\nend\n", "BadLine", 3),
    (
        "flatsurf 1\npolygon 1,0 0,1 -1,0 0,-1\nfield 2\nglue 0.0 0.2\nglue 0.1 0.3\ncheck\nend\n",
        "BadLine",
        2,
    ),
    (
        "flatsurf 1\nfield 2\nfield 2\npolygon 1,0 0,1 -1,0 0,-1\nglue 0.0 0.2\nglue 0.1 0.3\ncheck\nend\n",
        "BadLine",
        3,
    ),
    (
        "flatsurf 1\nfield 12\npolygon x\nglue 0.0 0.2\nglue 0.1 0.3\ncheck\nend\n",
        "BadField",
        0,
    ),
    (
        "flatsurf 1\nfield 2\nglue 0.0 0.2\nglue 0.1 0.3\ncheck\nend\n",
        "BadLine",
        5,
    ),
    (
        "flatsurf 1\nfield 2\nglue 0.0 0.2\nglue 0.1 0.3\npolygon 1,0 0,1 -1,0 0,-1\ncheck\nend\n",
        "read",
        0,
    ),
    (
        "flatsurf 1\nfield 2\npolygon 1,0 0,1 -1,0 0,-1\nglue 0.0 0.2\npolygon 1,0 0,1 -1,0 0,-1\nglue 0.1 1.3\nglue 1.1 0.3\nglue 1.0 1.2\ncheck\nend\n",
        "read",
        0,
    ),
    (
        "\n  \nflatsurf 1\nfield 2\npolygon 1,0 0,1 -1,0 0,-1\nglue 0.0 0.2\nglue 0.1 0.3\ncheck\nend\n",
        "read",
        0,
    ),
    (
        "flatsurf 1\nfield 2\npolygon 2,0 1,1r -1,1r -2,0 -1,-1r 1,-1r\nglue 0.1 0.4\nglue 0.2 0.5\nglue 0.0 0.3\ncheck\nend\n",
        "read",
        0,
    ),
    (
        "\nflatsurf 1\nfield 2\npolygon 1,0 0,1 -1,0 0,-1\nglue 0.0 0.2\nglue 0.1 0.3\ncheck\nend\n",
        "read",
        0,
    ),
    (
        "flatsurf 1\nfield 2\n\npolygon 1,0 0,1 -1,0 0,-1\nglue 0.0 0.2\nglue 0.1 0.3\ncheck\nend\n",
        "read",
        0,
    ),
    (
        "flatsurf 1\nfield 2\npolygon 1,0 0,1 -1,0 0,-1\nglue 0.0 0.2\nglue 0.1 0.3\ncheck\nend\ncheck\n",
        "BadLine",
        8,
    ),
    (
        "flatsurf 1\nfield 2\npolygon 1,0 0,1 -1,0 0,-1\nglue 0.0 0.2\nglue 0.1 0.3\nend\n",
        "read",
        0,
    ),
    (
        "flatsurf 1\nfield 2\npolygon 1,0 0,1 -1,0 0,-1\nglue 0.0 0.2\nglue 0.1 0.3\n",
        "NoEnd",
        0,
    ),
    ("\n", "BadHeader", 0),
    (" \t\n\n \n", "BadHeader", 0),
    ("flatsurf 1\n", "NoEnd", 0),
    (
        "flatsurf 1\nfield 2\npolygon 1,0 0,1 -1,0 0,-1\nglue 0.0 0.2\nglue 0.1 0.3\npolygon 1,0 0,1 -1,0 0,-1\ncheck\nend\n",
        "read",
        0,
    ),
    (
        " \t\n\nflatsurf 1\nfield 2\n\t\npolygon 1,0 0,1 -1,0 0,-1\nglue 0.0 0.2\nglue 0.1 0.3\ncheck\nend\n  \n",
        "read",
        0,
    ),
    (
        "flatsurf 1\nfield 2\npolygon 1,0 0,1 -1,0 0,-1\nglue 0.0 0.2\nglue 0.1 0.3\ncheck\nend",
        "read",
        0,
    ),
    (
        "flatsurf 1\nfield 2\npolygon 1,0 0,1 -1,0 0,-1\nglue 0.0 0.2\nglue 0.1 0.3\ncheck\nend\n",
        "read",
        0,
    ),
    (
        "flatsurf 1\nfield 2\nsurface a\npolygon 1,0 0,1 -1,0 0,-1\nglue 0.0 0.2\nglue 0.1 0.3\ncheck\nend\n",
        "BadLine",
        3,
    ),
    (
        "flatsurf 1\nfield 2\npolygon 1,0 0,1 -1,0 0,-1\nglue 0.0 0.2\nglue 0.1 0.3\ncheck\nend\nend\n",
        "BadLine",
        8,
    ),
    (
        "flatsurf 1\nfield 2\npolygon 1,0\nend\ncheck x\n",
        "BadLine",
        5,
    ),
    (
        "flatsurf 1\nfield 2\npolygon 1,0\ncheck\npolygon x,0\nend\n",
        "BadLine",
        5,
    ),
    ("flatsurf 1\nfield 2\npolygon\nend\n\n\n", "read", 0),
    (
        "flatsurf 1\nfield 2\npolygon 1,0\ncheck\nbad\n",
        "BadLine",
        5,
    ),
    ("flatsurf 1\n\n\nfield 12\n\npolygon x,0\n", "BadField", 0),
    (
        "flatsurf 1\n \n\t\nfield 2\n\npolygon 1/0,1\n",
        "BadNumber",
        6,
    ),
    ("flatsurf 1\nfield 2\npolygon\nend", "read", 0),
    ("flatsurf 1\nfield 2\npolygon\nend ", "read", 0),
    ("flatsurf 1\nfield 2\npolygon\nend\n\r", "NotAscii", 5),
    ("flatsurf 1\nfield 2\npolygon\nend\n\r\n", "read", 0),
    ("\r\n\r\nflatsurf 1\r\nfield 2\r\npolygon\r\nend", "read", 0),
];

// The same of bytes that are no text.
static BYTES: [(&[u8], &str, u32); 5] = [
    (
        b"flatsurf 1\nfield 2\npolygon 1,0 0,1 -1,0 0,-1\x80\nglue 0.0 0.2\nglue 0.1 0.3\ncheck\nend\n",
        "NotAscii",
        3,
    ),
    (
        b"flatsurf 1\nfield 2\npolygon 1,0 0,x 1 \x80\nglue 0.0 0.2\nglue 0.1 0.3\ncheck\nend\n",
        "NotAscii",
        3,
    ),
    (
        b"flatsurf 1\nfield 2\npolygon x,0,1 \x80\nglue 0.0 0.2\nglue 0.1 0.3\ncheck\nend\n",
        "NotAscii",
        3,
    ),
    (
        b"flatsurf 1\nfield 2\npolygon 1,0 0,1 -1,0 0,-1\nglue 0.0 0.2\nglue 0.1 0.3\ncheck\nend\n\xff\n",
        "NotAscii",
        8,
    ),
    (
        b"flatsurf 1\nfield 2\npolygon 1,x\ncheck\nend\n\x80\n",
        "BadNumber",
        3,
    ),
];

// The result for each line of the square cut short, by the number of bytes that are left: `.` is
// none, `h` BadHeader, `l` BadLine and `n` BadNumber of the same line.
static CUT_SHORT: [&str; 7] = [
    "hhhhhhhhhh.",
    ".llllll.",
    ".llllll..ln..ln..lln..lnn.",
    ".lllllllllll.",
    ".lllllllllll.",
    ".llll.",
    ".ll.",
];

// The result for the square where a line is missing, doubled, or exchanged with the next.
static MISSING: [(&str, u32); 7] = [
    ("BadHeader", 0),
    ("BadLine", 2),
    ("BadLine", 5),
    ("read", 0),
    ("read", 0),
    ("read", 0),
    ("NoEnd", 0),
];

static DOUBLED: [(&str, u32); 7] = [
    ("BadLine", 2),
    ("BadLine", 3),
    ("read", 0),
    ("read", 0),
    ("read", 0),
    ("read", 0),
    ("BadLine", 8),
];

static EXCHANGED: [(&str, u32); 6] = [
    ("BadHeader", 0),
    ("BadLine", 2),
    ("read", 0),
    ("read", 0),
    ("BadLine", 6),
    ("BadLine", 7),
];

// The name of a fault, and the line that it names, or 0.
fn of_fault(fault: Fault) -> Told {
    match fault {
        Fault::NotAscii { line } => ("NotAscii", line),
        Fault::BadHeader => ("BadHeader", 0),
        Fault::BadLine { line } => ("BadLine", line),
        Fault::BadNumber { line } => ("BadNumber", line),
        Fault::BadField => ("BadField", 0),
        Fault::TooMany { line } => ("TooMany", line),
        Fault::NoEnd => ("NoEnd", 0),
        Fault::Wide { line } => ("Wide", line),
        _ => ("another fault", 0),
    }
}

// The result for a text: `read`, or what stopped its reading.
fn told(answer: &Result<Job, JobStop>) -> Told {
    match answer {
        Ok(_) => ("read", 0),
        Err(JobStop::Fault(fault)) => of_fault(*fault),
        Err(JobStop::NoMemory) => ("no memory", 0),
    }
}

// A text, and after it the lines of the square from one to before another.
fn with_lines(mut text: Vec<u8>, from: usize, to: usize) -> Result<Vec<u8>, AllocError> {
    for (i, line) in SQUARE.iter().enumerate() {
        if from <= i && i < to {
            text.extend_from_slice(line.as_bytes())?;
            text.push(b'\n')?;
        }
    }
    Ok(text)
}

// The square with this text in place of the lines from one to before another.
fn changed(alloc: Global, from: usize, to: usize, text: &[u8]) -> Result<Vec<u8>, AllocError> {
    let mut job = with_lines(Vec::new(alloc), 0, from)?;
    job.extend_from_slice(text)?;
    with_lines(job, to, 7)
}

// The result for a text.
fn read(alloc: Global, text: &[u8]) -> Told {
    if text.len() > 1_048_576 {
        return ("too long", 0);
    }
    told(&read_job(alloc, text))
}

// That a text gives this result.
fn expect(rt: &impl Abort, alloc: Global, text: &[u8], expected: Told) {
    assert!(rt; read(alloc, text) == expected, "{text:?}");
}

// That the square with this text in place of a line gives a result of this name, at that line if
// it has one.
fn expect_change(
    rt: &impl Abort,
    alloc: Global,
    number: usize,
    change: &str,
    name: &str,
) -> Result<(), Fail> {
    let mut prefix = with_lines(Vec::new(alloc), 0, number.saturating_sub(1))?;
    prefix.extend_from_slice(change.as_bytes())?;
    prefix.push(b'\n')?;
    let job = with_lines(prefix, number, 7)?;
    let (answer, line) = read(alloc, job.as_slice());
    assert!(rt; answer == name, "{change}");
    assert!(rt; line == 0 || line as usize == number, "{change}");
    Ok(())
}

#[test]
fn changed_lines(rt: HostRuntime) -> Result<(), Fail> {
    for (number, change, name) in CHANGES.iter() {
        expect_change(&rt, rt.alloc(), *number, change, name)?;
    }
    Ok(())
}

#[test]
fn whole_texts(rt: HostRuntime) {
    for (text, name, line) in TEXTS.iter() {
        expect(&rt, rt.alloc(), text.as_bytes(), (name, *line));
    }
}

#[test]
fn whole_bytes(rt: HostRuntime) {
    for (bytes, name, line) in BYTES.iter() {
        expect(&rt, rt.alloc(), bytes, (name, *line));
    }
}

// That the square without a line gives this result, and with a blank line in its place the same one
// line later.
fn expect_missing(
    rt: &impl Abort,
    alloc: Global,
    i: usize,
    name: &'static str,
    line: u32,
) -> Result<(), Fail> {
    assert!(rt; i < 7 && line < 7);
    let missing = changed(alloc, i, i + 1, &[])?;
    expect(rt, alloc, missing.as_slice(), (name, line));
    let blank = changed(alloc, i, i + 1, b"\n")?;
    let later = if line == 0 { 0 } else { line + 1 };
    expect(rt, alloc, blank.as_slice(), (name, later));
    Ok(())
}

#[test]
fn missing_and_blank_lines(rt: HostRuntime) -> Result<(), Fail> {
    for (i, (name, line)) in MISSING.iter().enumerate() {
        expect_missing(&rt, rt.alloc(), i, name, *line)?;
    }
    Ok(())
}

#[test]
fn doubled_lines(rt: HostRuntime) -> Result<(), Fail> {
    for (i, expected) in DOUBLED.iter().enumerate() {
        let once = with_lines(Vec::new(rt.alloc()), 0, i + 1)?;
        let twice = with_lines(once, i, 7)?;
        expect(&rt, rt.alloc(), twice.as_slice(), *expected);
    }
    Ok(())
}

// The square with a line after the next one.
fn exchanged(alloc: Global, i: usize) -> Result<Vec<u8>, AllocError> {
    let next = i.saturating_add(1);
    let after = i.saturating_add(2);
    let prefix = with_lines(Vec::new(alloc), 0, i)?;
    let both = with_lines(with_lines(prefix, next, after)?, i, next)?;
    with_lines(both, after, 7)
}

#[test]
fn exchanged_lines(rt: HostRuntime) -> Result<(), Fail> {
    for (i, expected) in EXCHANGED.iter().enumerate() {
        let job = exchanged(rt.alloc(), i)?;
        expect(&rt, rt.alloc(), job.as_slice(), *expected);
    }
    Ok(())
}

// The result for a line cut short, by the letter of the table, or this one where it has none.
fn of_letter(letter: u8, number: u32, nothing: &'static str) -> Told {
    match letter {
        b'h' => ("BadHeader", 0),
        b'l' => ("BadLine", number),
        b'n' => ("BadNumber", number),
        _ => (nothing, 0),
    }
}

// The square up to so many bytes of one of its lines, numbered from 0.
fn cut_text(alloc: Global, i: usize, k: usize) -> Result<Vec<u8>, AllocError> {
    let mut text = with_lines(Vec::new(alloc), 0, i)?;
    for (j, line) in SQUARE.iter().enumerate() {
        if j == i && k <= line.len() {
            text.extend_from_slice(&line.as_bytes()[..k])?;
        }
    }
    Ok(text)
}

// That the square up to k bytes of a line gives the result of this letter, and with all lines after
// it too.
fn expect_cut(rt: &impl Abort, alloc: Global, i: usize, k: usize, letter: u8) -> Result<(), Fail> {
    assert!(rt; i < 7);
    let number = i as u32 + 1;
    let mut text = cut_text(alloc, i, k)?;
    let ended = i == 6 && k == 3;
    let end = of_letter(letter, number, if ended { "read" } else { "NoEnd" });
    expect(rt, alloc, text.as_slice(), end);
    if k > 0 {
        text.push(b'\n')?;
        let whole = with_lines(text, i + 1, 7)?;
        expect(
            rt,
            alloc,
            whole.as_slice(),
            of_letter(letter, number, "read"),
        );
    }
    Ok(())
}

// That a line cut short at each byte gives the results of these letters.
fn expect_cuts(rt: &impl Abort, alloc: Global, i: usize, letters: &str) -> Result<(), Fail> {
    for (k, letter) in letters.as_bytes().iter().enumerate() {
        expect_cut(rt, alloc, i, k, *letter)?;
    }
    Ok(())
}

#[test]
fn lines_cut_short_at_each_byte(rt: HostRuntime) -> Result<(), Fail> {
    for (i, letters) in CUT_SHORT.iter().enumerate() {
        expect_cuts(&rt, rt.alloc(), i, letters)?;
    }
    Ok(())
}

// A header and a field, then two texts, the second of them so many times, and a third.
fn repeated(
    alloc: Global,
    first: &str,
    again: &str,
    times: usize,
    last: &str,
) -> Result<Vec<u8>, AllocError> {
    let mut text = with_lines(Vec::new(alloc), 0, 2)?;
    text.extend_from_slice(first.as_bytes())?;
    for _ in 0..times {
        text.extend_from_slice(again.as_bytes())?;
    }
    text.extend_from_slice(last.as_bytes())?;
    Ok(text)
}

// Texts as `repeated` makes them, and their results.
static LIMITS: [(&str, &str, usize, &str, (&str, u32)); 12] = [
    ("", "polygon 1,0\n", 256, "end", ("read", 0)),
    ("", "polygon 1,0\n", 257, "end", ("TooMany", 259)),
    ("", "polygon 1,0\n", 256, "polygon x,0\n", ("TooMany", 259)),
    ("", "polygon 1,0\n", 256, "polygon 1\n", ("BadLine", 259)),
    ("polygon", " 1,0", 1024, "\nend", ("read", 0)),
    ("polygon", " 1,0", 1025, "\nend", ("TooMany", 3)),
    ("polygon x,0", " 1,0", 1024, "\nend", ("TooMany", 3)),
    (
        "polygon 1,0\npolygon",
        " 1,0",
        1023,
        "\npolygon\nend",
        ("read", 0),
    ),
    (
        "polygon 1,0\npolygon",
        " 1,0",
        1023,
        "\npolygon x,0\n",
        ("TooMany", 5),
    ),
    ("polygon\n", "check\n", 256, "end", ("read", 0)),
    ("polygon\n", "check\n", 257, "end", ("TooMany", 260)),
    (
        "polygon\n",
        "check\n",
        256,
        "check 1\nend",
        ("BadLine", 260),
    ),
];

#[test]
fn limits(rt: HostRuntime) -> Result<(), Fail> {
    for (first, again, times, last, expected) in LIMITS.iter() {
        let text = repeated(rt.alloc(), first, again, *times, last)?;
        expect(&rt, rt.alloc(), text.as_slice(), *expected);
    }
    Ok(())
}

#[test]
fn glue_lines_without_limit(rt: HostRuntime) -> Result<(), Fail> {
    let alloc = rt.alloc();
    let glues = repeated(alloc, "polygon\n", "glue 0.0 0.0\n", 3000, "end")?;
    expect(&rt, alloc, glues.as_slice(), ("read", 0));
    Ok(())
}

#[test]
fn most_bytes(rt: HostRuntime) -> Result<(), Fail> {
    let alloc = rt.alloc();
    let spaces = repeated(alloc, "polygon", " ", 1_048_576 - 30, "\nend")?;
    assert!(rt; spaces.len() == 1_048_576);
    expect(&rt, alloc, spaces.as_slice(), ("read", 0));
    Ok(())
}
