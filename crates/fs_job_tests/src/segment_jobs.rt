// Jobs with `segment` lines: which are read, what they say, and the first fault of the others.

use crate::common::{expect_vector, stop_of};
use fs_gluing::Fault;
use fs_job::{Command, JobStop, read_job};
use fs_plane::Corner;
use std::alloc::{AllocError, Global};
use std::process::Abort;
use std::test::Fail;

// Lines that are read as the fourth of a job with one polygon. Reading doesn't check whether the
// corner exists.
static READ: [&str; 12] = [
    "segment 0.0 2,1",
    "segment 0.0 2,1\r",
    "\tsegment  0.0\t2,1 ",
    "segment 0000.0000 2,1",
    "segment 9999.9999 2,1",
    "segment 0.0 1,0",
    "segment 0.0 0,1",
    "segment 0.0 0,-1r",
    "segment 0.0 0-0r,1/999999999999999999",
    "segment 0.0 0+1r,0",
    "segment 0.0 -1/2,3/4-5/6r",
    "segment 0.0 999999999999999999,-999999999999999999/999999999999999998+1r",
];

// Such lines with a fault: its number is the line's, and the others are read.
static BAD_LINES: [&str; 25] = [
    "segment",
    "segment 0.0",
    "segment 2,1",
    "segment 2,1 0.0",
    "segment 0.0 21",
    "segment 0.0 2;1",
    "segment 0.0 2.1",
    "segment 0.0 2,1,0",
    "segment 0.0 2, 1",
    "segment 0.0 2 ,1",
    "segment 0.0 2,1 3",
    "segment 0.0 2,1 3,4",
    "segment 0.0 0.1 2,1",
    "segment 00000.0 2,1",
    "segment 0.00000 2,1",
    "segment 0 2,1",
    "segment 0.0.0 2,1",
    "segment .0 2,1",
    "segment 0. 2,1",
    "segment -1.0 2,1",
    "segment a.0 2,1",
    "Segment 0.0 2,1",
    "segments 0.0 2,1",
    "segment 00000.0 1/0,1",
    "segment 0.0 1/0",
];

static BAD_NUMBERS: [&str; 13] = [
    "segment 0.0 ,",
    "segment 0.0 2,",
    "segment 0.0 ,1",
    "segment 0.0 +2,1",
    "segment 0.0 2,1x",
    "segment 0.0 1/0,1",
    "segment 0.0 1,1/0",
    "segment 0.0 0/0,0",
    "segment 0.0 0,0/00r",
    "segment 0.0 0,x",
    "segment 0.0 x,1234567890123456789",
    "segment 0.0 1/0,1234567890123456789",
    "segment 0.0 1234567890123456789x,0",
];

static WIDE: [&str; 6] = [
    "segment 0.0 1234567890123456789,0",
    "segment 0.0 0,1234567890123456789",
    "segment 0.0 0000000000000000000,0",
    "segment 0.0 0,0/0000000000000000000",
    "segment 0.0 1234567890123456789,x",
    "segment 0.0 1234567890123456789,1/0",
];

static ZERO_DIRECTIONS: [&str; 8] = [
    "segment 0.0 0,0",
    "segment 9999.9999 0,0",
    "segment 0.0 0/3,0r",
    "segment 0.0 -0,00-0r",
    "segment 0.0 0/999999999999999999,-0/2r",
    "segment 0.0 000000000000000000+0r,0/1+0/1r",
    "flow 0,0",
    "flow -0+0r,000000000000000000",
];

// Whole jobs that are read, and others with their first faults.
static READ_TEXTS: [&str; 2] = [
    "flatsurf 1\nfield 2\npolygon 1,0\nsegment 0.0 1,0\nsegment 0.0 1,0\ncheck\nend\n",
    "flatsurf 1\nfield 2\npolygon 1,0\nglue 0.0 0.1\ncheck\n\nsegment 0.0 1,0\nend\n",
];

static FAULTS: [(&str, Fault); 11] = [
    ("segment 0.0 2,1\n", Fault::BadHeader),
    ("flatsurf 1\nsegment 0.0 2,1\n", Fault::BadLine { line: 2 }),
    (
        "flatsurf 1\nfield 2\nsegment 0.0 2,1\npolygon 1,0\nend\n",
        Fault::BadLine { line: 3 },
    ),
    (
        "flatsurf 1\nfield 2\nsegment 0.0 0,0\npolygon 1,0\nend\n",
        Fault::BadLine { line: 3 },
    ),
    (
        "flatsurf 1\nfield 2\nglue 0.0 0.1\nsegment 0.0 1/0,0\npolygon 1,0\nend\n",
        Fault::BadLine { line: 4 },
    ),
    (
        "flatsurf 1\nfield 2\npolygon 1,0\nsegment 0.0 2,1\npolygon 1,0\nend\n",
        Fault::BadLine { line: 5 },
    ),
    (
        "flatsurf 1\nfield 2\npolygon 1,0\nsegment 0.0 2,1\nglue 0.0 0.1\nend\n",
        Fault::BadLine { line: 5 },
    ),
    (
        "flatsurf 1\nfield 2\npolygon 1,0\nend\nsegment 0.0 2,1\n",
        Fault::BadLine { line: 5 },
    ),
    (
        "flatsurf 1\nfield 2\npolygon 1,0\nsegment 0.0 2,1\n",
        Fault::NoEnd,
    ),
    (
        "flatsurf 1\nfield 2\npolygon 1,0\n\nsegment 0.0 0,0\nsegment 0.0 1/0,1\nend\n",
        Fault::ZeroDirection { line: 5 },
    ),
    (
        "flatsurf 1\nfield 2\npolygon 1,0\nsegment 0.0 x,0\nsegment 0.0 0,0\nend\n",
        Fault::BadNumber { line: 4 },
    ),
];

// A job whose fourth line is this one.
fn with_line(alloc: Global, line: &str) -> Result<Vec<u8>, AllocError> {
    let mut text = Vec::new(alloc);
    text.extend_from_slice(b"flatsurf 1\nfield 2\npolygon 1,0\n")?;
    text.extend_from_slice(line.as_bytes())?;
    text.extend_from_slice(b"\nend\n")?;
    Ok(text)
}

// That a job with each of these lines stops so.
fn expect_each(
    rt: &impl Abort,
    alloc: Global,
    lines: &[&str],
    expected: Option<JobStop>,
) -> Result<(), Fail> {
    for line in lines {
        let text = with_line(alloc, line)?;
        assert!(rt; stop_of(rt, alloc, text.as_slice()) == expected, "{line}");
    }
    Ok(())
}

#[test]
fn lines_that_are_read(rt: HostRuntime) -> Result<(), Fail> {
    expect_each(&rt, rt.alloc(), &READ, None)
}

#[test]
fn lines_of_another_form(rt: HostRuntime) -> Result<(), Fail> {
    let fault = Fault::BadLine { line: 4 };
    expect_each(&rt, rt.alloc(), &BAD_LINES, Some(JobStop::Fault(fault)))?;
    let fault = Fault::NotAscii { line: 4 };
    let lines = ["segment 0.0 2,1\x7f", "segment\r0.0 0,0"];
    expect_each(&rt, rt.alloc(), &lines, Some(JobStop::Fault(fault)))
}

#[test]
fn numbers_from_left_to_right(rt: HostRuntime) -> Result<(), Fail> {
    let fault = Fault::BadNumber { line: 4 };
    expect_each(&rt, rt.alloc(), &BAD_NUMBERS, Some(JobStop::Fault(fault)))?;
    let fault = Fault::Wide { line: 4 };
    expect_each(&rt, rt.alloc(), &WIDE, Some(JobStop::Fault(fault)))
}

#[test]
fn zero_directions(rt: HostRuntime) -> Result<(), Fail> {
    let fault = Fault::ZeroDirection { line: 4 };
    expect_each(
        &rt,
        rt.alloc(),
        &ZERO_DIRECTIONS,
        Some(JobStop::Fault(fault)),
    )
}

#[test]
fn whole_jobs_that_are_read(rt: HostRuntime) {
    for text in READ_TEXTS.iter() {
        assert!(rt; stop_of(&rt, rt.alloc(), text.as_bytes()) == None, "{text}");
    }
}

#[test]
fn first_faults_of_whole_jobs(rt: HostRuntime) {
    for (text, fault) in FAULTS.iter() {
        let expected = Some(JobStop::Fault(*fault));
        assert!(rt;
            stop_of(&rt, rt.alloc(), text.as_bytes()) == expected,
            "{text}"
        );
    }
}

// 256 commands, and then this line, which is the 260th.
fn after_256(alloc: Global, line: &str) -> Result<Vec<u8>, AllocError> {
    let mut text = Vec::new(alloc);
    text.extend_from_slice(b"flatsurf 1\nfield 2\npolygon 1,0\n")?;
    for _ in 0..128 {
        text.extend_from_slice(b"check\nsegment 0.0 2,1\n")?;
    }
    text.extend_from_slice(line.as_bytes())?;
    Ok(text)
}

// Lines after 256 commands, and the fault.
static AFTER_256: [(&str, Option<Fault>); 9] = [
    ("end\n", None),
    ("segment 0.0 2,1\n", Some(Fault::TooMany { line: 260 })),
    ("segment 0.0 x,1\n", Some(Fault::TooMany { line: 260 })),
    ("segment 0.0 0,0\n", Some(Fault::TooMany { line: 260 })),
    ("segment 0.0 2\n", Some(Fault::BadLine { line: 260 })),
    ("flow a,b\n", Some(Fault::TooMany { line: 260 })),
    ("flow 0,0\n", Some(Fault::TooMany { line: 260 })),
    ("flow x\n", Some(Fault::BadLine { line: 260 })),
    ("\nsegment 0.0 2,1\n", Some(Fault::TooMany { line: 261 })),
];

#[test]
fn most_commands(rt: HostRuntime) -> Result<(), Fail> {
    for (line, fault) in AFTER_256.iter() {
        let text = after_256(rt.alloc(), line)?;
        let expected = fault.map(JobStop::Fault);
        assert!(rt;
            stop_of(&rt, rt.alloc(), text.as_slice()) == expected,
            "{line}"
        );
    }
    Ok(())
}

// That a command is this `segment` line.
fn expect_segment(
    rt: &impl Abort,
    command: &Command,
    number: u32,
    corner: Corner,
    x: &str,
    y: &str,
) {
    match command {
        Command::Segment { line, start, v } => {
            assert!(rt; *line == number && *start == corner);
            expect_vector(rt, v, x, y);
        }
        _ => panic!(rt; "no segment"),
    }
}

// That a command asks for the saddle list with this limit.
fn expect_limit(rt: &impl Abort, command: &Command, p: i128, q: i128) {
    match command {
        Command::Saddles { limit } => assert!(rt; limit.p() == p && limit.q() == q),
        _ => panic!(rt; "no saddles"),
    }
}

// That a command asks for the flow in the direction (-1 + 2√d, 3).
fn expect_direction(rt: &impl Abort, command: &Command) {
    match command {
        Command::Flow { v } => {
            assert!(rt; v.x.p() == -1 && v.x.q() == 2);
            assert!(rt; v.y.p() == 3 && v.y.q() == 0);
        }
        _ => panic!(rt; "no flow"),
    }
}

#[test]
fn what_a_segment_line_says(rt: HostRuntime) -> Result<(), Fail> {
    let text =
        b"flatsurf 1\nfield 2\n\npolygon\ncheck\nsegment 0007.32 2/4-3r,0\n\n segment 1.0 0,-5\nstratum\ndelaunay\ncells\nsaddles 12-3r\nflow -1+2r,03\nend";
    let job = read_job(rt.alloc(), text).ok().ok_or("no job")?;
    let commands = job.commands.as_slice();
    assert!(rt; commands.len() == 8);
    assert!(rt; matches!(commands[0], Command::Check));
    expect_segment(&rt, &commands[1], 6, Corner::new(7, 32), "1/2-3r", "0");
    expect_segment(&rt, &commands[2], 8, Corner::new(1, 0), "0", "-5");
    assert!(rt; matches!(commands[3], Command::Stratum));
    assert!(rt; matches!(commands[4], Command::Delaunay));
    assert!(rt; matches!(commands[5], Command::Cells));
    expect_limit(&rt, &commands[6], 12, -3);
    expect_direction(&rt, &commands[7]);
    Ok(())
}
