// Jobs with a `table` line: which are read, what they say, and the first fault of the others.

use crate::common::{expect_vector, stop_of};
use fs_gluing::{Fault, Point};
use fs_job::{Command, Form, JobStop, MOST_TABLE_SIDES, read_job};
use std::alloc::{AllocError, Global};
use std::process::Abort;
use std::test::Fail;

// Lines that are read as the third of a job, which has no polygon. Reading doesn't check whether the
// sides close.
static READ: [&str; 7] = [
    "table",
    "table 1,0 0,1 -1,-1",
    "\ttable  1,0\t0,1 \t-1,-1 \r",
    "table 0,0",
    "table -0,00 1/2+3/4r,-1r",
    "table 1,0 1,0 1,0 1,0 1,0",
    "table 999999999999999999,-999999999999999999/999999999999999998+1r",
];

// Such lines that aren't read, by their fault.
static BAD_LINES: [&str; 11] = [
    "Table 1,0 0,1 -1,-1",
    "tables 1,0 0,1 -1,-1",
    "tabl",
    "table 3 1,0 0,1 -1,-1",
    "table 1,0 01 -1,-1",
    "table 1,0 0,1 -1,-1,0",
    "table 1, 0",
    "table 1;0",
    "table 0.0 0.1",
    "table x,0 1",
    "table 1234567890123456789,0 1",
];

static BAD_NUMBERS: [&str; 8] = [
    "table ,",
    "table 1,",
    "table ,1",
    "table +1,0",
    "table 1/0,1234567890123456789",
    "table 1,0 0,1 -1,-1/00",
    "table 1,0 x,1 0,1234567890123456789",
    "table 1,0 0,1234567890123456789x",
];

static WIDE: [&str; 4] = [
    "table 0000000000000000001,0",
    "table 1234567890123456789,x",
    "table 1,0 0,1/1000000000000000000 x,0",
    "table 1,0 0,1 0/0000000000000000000,0",
];

// Whole jobs that are read, and others with their first faults.
static READ_TEXTS: [&str; 5] = [
    "flatsurf 1\nfield 2\ntable 1,0 0,1 -1,-1\nend\n",
    "flatsurf 1\nfield 2\ntable 1,0 0,1 -1,-1\ncheck\nend\n",
    "flatsurf 1\nfield 2\ntable\nend",
    "flatsurf 1\nfield 2\ntable\ncheck\nsegment 0.0 1,0\nflow 1,0\nend\n",
    "\nflatsurf 1\n\nfield 2\n\t\ntable 1,0 0,1 -1,-1\n \nstratum\n\nend\n\n",
];

static FAULTS: [(&str, Fault); 25] = [
    ("table 1,0\n", Fault::BadHeader),
    (
        "flatsurf 1\ntable 1,0\nfield 2\nend\n",
        Fault::BadLine { line: 2 },
    ),
    ("flatsurf 1\nfield 12\ntable x,0\nend\n", Fault::BadField),
    (
        "flatsurf 1\nfield 2\ntable 1,0\ntable 1,0\nend\n",
        Fault::BadLine { line: 4 },
    ),
    (
        "flatsurf 1\nfield 2\ntable\ntable\nend\n",
        Fault::BadLine { line: 4 },
    ),
    (
        "flatsurf 1\nfield 2\ntable 1,0\ntable x,0\nend\n",
        Fault::BadLine { line: 4 },
    ),
    (
        "flatsurf 1\nfield 2\ntable x,0\ntable 1,0\nend\n",
        Fault::BadNumber { line: 3 },
    ),
    (
        "flatsurf 1\nfield 2\ntable 1,0\npolygon 1,0\nend\n",
        Fault::BadLine { line: 4 },
    ),
    (
        "flatsurf 1\nfield 2\ntable\npolygon\nend\n",
        Fault::BadLine { line: 4 },
    ),
    (
        "flatsurf 1\nfield 2\npolygon 1,0\ntable 1,0\nend\n",
        Fault::BadLine { line: 4 },
    ),
    (
        "flatsurf 1\nfield 2\npolygon\ntable\nend\n",
        Fault::BadLine { line: 4 },
    ),
    (
        "flatsurf 1\nfield 2\npolygon 1,0\ntable x,0\nend\n",
        Fault::BadLine { line: 4 },
    ),
    (
        "flatsurf 1\nfield 2\ntable 1,0 0,1 -1,0 0,-1\nglue 0.0 0.2\nend\n",
        Fault::BadLine { line: 4 },
    ),
    (
        "flatsurf 1\nfield 2\nglue 0.0 0.2\ntable 1,0\nend\n",
        Fault::BadLine { line: 4 },
    ),
    (
        "flatsurf 1\nfield 2\nglue 0.0 0.2\npolygon 1,0\ntable 1,0\nend\n",
        Fault::BadLine { line: 5 },
    ),
    (
        "flatsurf 1\nfield 2\npolygon 1,0\ncheck\ntable 1,0\nend\n",
        Fault::BadLine { line: 5 },
    ),
    (
        "flatsurf 1\nfield 2\ntable 1,0\ncheck\ntable 1,0\nend\n",
        Fault::BadLine { line: 5 },
    ),
    (
        "flatsurf 1\nfield 2\ntable 1,0\ncheck\npolygon 1,0\nend\n",
        Fault::BadLine { line: 5 },
    ),
    (
        "flatsurf 1\nfield 2\ntable 1,0\ncheck\nglue 0.0 0.1\nend\n",
        Fault::BadLine { line: 5 },
    ),
    (
        "flatsurf 1\nfield 2\ncheck\ntable 1,0\nend\n",
        Fault::BadLine { line: 3 },
    ),
    (
        "flatsurf 1\nfield 2\nend\ntable 1,0\nend\n",
        Fault::BadLine { line: 3 },
    ),
    (
        "flatsurf 1\nfield 2\ntable 1,0\nfield 2\nend\n",
        Fault::BadLine { line: 4 },
    ),
    (
        "flatsurf 1\nfield 2\ntable 1,0\nend\ntable 1,0\n",
        Fault::BadLine { line: 5 },
    ),
    (
        "flatsurf 1\nfield 2\ntable 1,0\nsegment 0.0 0,0\nend\n",
        Fault::ZeroDirection { line: 4 },
    ),
    ("flatsurf 1\nfield 2\ntable 1,0\ncheck\n", Fault::NoEnd),
];

// A header and a field, then a text, a second one so many times, and a third.
fn repeated(
    alloc: Global,
    first: &str,
    again: &str,
    times: usize,
    last: &str,
) -> Result<Vec<u8>, AllocError> {
    let mut text = Vec::new(alloc);
    text.extend_from_slice(b"flatsurf 1\nfield 2\n")?;
    text.extend_from_slice(first.as_bytes())?;
    for _ in 0..times {
        text.extend_from_slice(again.as_bytes())?;
    }
    text.extend_from_slice(last.as_bytes())?;
    Ok(text)
}

// That a job with each of these lines as its table stops so.
fn expect_each(
    rt: &impl Abort,
    alloc: Global,
    lines: &[&str],
    expected: Option<JobStop>,
) -> Result<(), Fail> {
    for line in lines {
        let text = repeated(alloc, line, "", 0, "\nend\n")?;
        assert!(rt; stop_of(rt, alloc, text.as_slice()) == expected, "{line}");
    }
    Ok(())
}

#[test]
fn tables_that_are_read(rt: HostRuntime) -> Result<(), Fail> {
    expect_each(&rt, rt.alloc(), &READ, None)
}

#[test]
fn lines_of_another_form(rt: HostRuntime) -> Result<(), Fail> {
    let fault = Fault::BadLine { line: 3 };
    expect_each(&rt, rt.alloc(), &BAD_LINES, Some(JobStop::Fault(fault)))?;
    let fault = Fault::NotAscii { line: 3 };
    let lines = ["table 1,0\x7f", "table\r1,0"];
    expect_each(&rt, rt.alloc(), &lines, Some(JobStop::Fault(fault)))
}

#[test]
fn numbers_from_left_to_right(rt: HostRuntime) -> Result<(), Fail> {
    let fault = Fault::BadNumber { line: 3 };
    expect_each(&rt, rt.alloc(), &BAD_NUMBERS, Some(JobStop::Fault(fault)))?;
    let fault = Fault::Wide { line: 3 };
    expect_each(&rt, rt.alloc(), &WIDE, Some(JobStop::Fault(fault)))
}

#[test]
fn whole_jobs_that_are_read(rt: HostRuntime) {
    for text in READ_TEXTS.iter() {
        assert!(rt; stop_of(&rt, rt.alloc(), text.as_bytes()) == None, "{text}");
    }
}

#[test]
fn first_faults_of_whole_jobs(rt: HostRuntime) {
    for (text, fault) in FAULTS.iter() {
        let expected = Some(JobStop::Fault(*fault));
        assert!(rt;
            stop_of(&rt, rt.alloc(), text.as_bytes()) == expected,
            "{text}"
        );
    }
}

// Texts as `repeated` makes them, and their first faults.
static LIMITS: [(&str, &str, usize, &str, Option<Fault>); 11] = [
    ("table", " 1,0", 42, "\nend", None),
    (
        "table",
        " 1,0",
        43,
        "\nend",
        Some(Fault::TooMany { line: 3 }),
    ),
    (
        "table",
        " 1,0",
        1025,
        "\nend",
        Some(Fault::TooMany { line: 3 }),
    ),
    (
        "table",
        " 1,0",
        41,
        " x,0\nend",
        Some(Fault::BadNumber { line: 3 }),
    ),
    (
        "table x,0",
        " 1,0",
        42,
        "\nend",
        Some(Fault::TooMany { line: 3 }),
    ),
    (
        "table",
        " 1,0",
        42,
        " 1\nend",
        Some(Fault::BadLine { line: 3 }),
    ),
    (
        "table\ntable",
        " 1,0",
        43,
        "\nend",
        Some(Fault::BadLine { line: 4 }),
    ),
    (
        "polygon 1,0\ntable",
        " 1,0",
        43,
        "\nend",
        Some(Fault::BadLine { line: 4 }),
    ),
    ("table\n", "check\n", 256, "end", None),
    (
        "table\n",
        "check\n",
        257,
        "end",
        Some(Fault::TooMany { line: 260 }),
    ),
    (
        "table\n",
        "check\n",
        256,
        "table\nend",
        Some(Fault::BadLine { line: 260 }),
    ),
];

#[test]
fn limits(rt: HostRuntime) -> Result<(), Fail> {
    for (first, again, times, last, fault) in LIMITS.iter() {
        let text = repeated(rt.alloc(), first, again, *times, last)?;
        let expected = fault.map(JobStop::Fault);
        assert!(rt;
            stop_of(&rt, rt.alloc(), text.as_slice()) == expected,
            "{first} {times}"
        );
    }
    Ok(())
}

// The sides of a table.
fn sides<'a>(rt: &impl Abort, form: &'a Form) -> &'a [Point] {
    match form {
        Form::Table(table) => table.as_slice(),
        Form::Polygons(_) => panic!(rt; "no table"),
    }
}

#[test]
fn what_a_table_says(rt: HostRuntime) -> Result<(), Fail> {
    let text = b"flatsurf 1\nfield 05\ntable 1/2,-1+2/4r 00,1r -3,-4/6r\ncheck\nstratum\nend";
    let job = read_job(rt.alloc(), text).ok().ok_or("no job")?;
    assert!(rt; job.field.d() == 5);
    assert!(rt; matches!(job.commands.as_slice(), [Command::Check, Command::Stratum]));
    let table = sides(&rt, &job.form);
    assert!(rt; table.len() == 3);
    expect_vector(&rt, &table[0], "1/2", "-1+1/2r");
    expect_vector(&rt, &table[1], "0", "1r");
    expect_vector(&rt, &table[2], "-3", "-2/3r");
    Ok(())
}

#[test]
fn an_empty_table(rt: HostRuntime) -> Result<(), Fail> {
    let job = read_job(rt.alloc(), b"flatsurf 1\nfield 2\ntable\nend\n")
        .ok()
        .ok_or("no job")?;
    assert!(rt; sides(&rt, &job.form).len() == 0);
    assert!(rt; job.commands.len() == 0);
    Ok(())
}

#[test]
fn a_table_of_the_most_sides(rt: HostRuntime) -> Result<(), Fail> {
    assert!(rt; MOST_TABLE_SIDES == 42);
    let text = repeated(rt.alloc(), "table", " 0,-7", 42, "\nend")?;
    assert!(rt; text.len() <= 1_048_576);
    let job = read_job(rt.alloc(), text.as_slice()).ok().ok_or("no job")?;
    let table = sides(&rt, &job.form);
    assert!(rt; table.len() == 42);
    expect_vector(&rt, &table[41], "0", "-7");
    Ok(())
}
