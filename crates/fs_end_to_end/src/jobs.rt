// Jobs and their faults, limits, and failing streams.

use crate::running::{add, expect_change, repeated, sink, square_with};
use fs_cli::{Status, flat};
use fs_io::MemSource;
use std::alloc::Global;
use std::process::Abort;

const CHECKED: &str = "check polygons 1 sides 4\n";

// Each row puts a text in place of a line of the unit square's job, which is answered as before.
static SPELLINGS: [(usize, &str); 17] = [
    (1, "flatsurf  1\n"),
    (1, " flatsurf\t1 \r\n"),
    (1, "\n \t\n\r\nflatsurf 1\n"),
    (2, "field\t0002\r\n"),
    (2, "\nfield 997\n"),
    (2, "field 2\n\t\n"),
    (3, "\tpolygon 1,0  0,1\t-1,0 0,-1 \r\n"),
    (3, "polygon 1/2,0 0,1 -2/4,0 0,-1\n"),
    (3, "polygon 1,-0 0r,1 -1,0-0r 00,-1+0r\n"),
    (3, "polygon 000000000000000001,0 0,1 -1,0 0,-1\n"),
    (3, "polygon 1/3+1/2r,0 0,1 -1/3-1/2r,0 0,-1\n"),
    (4, "glue\t0.0  0.2\r\n"),
    (4, "glue 0000.0000 00.02\n"),
    (6, "\tcheck \n"),
    (7, "end"),
    (7, " end\r\n"),
    (7, "end\n\n \t\n"),
];

#[test]
fn other_spellings(rt: HostRuntime) {
    for (number, text) in SPELLINGS.iter() {
        expect_change(&rt, rt.alloc(), *number, text, CHECKED);
    }
}

// Each row puts a text in place of a line, and names the line that has the fault then.
static FAULTY_LINES: [(usize, &str, &str); 45] = [
    (1, "", "refused 2 BadHeader\n"),
    (1, "1 flatsurf\n", "refused 2 BadHeader\n"),
    (1, "flatsurf 01\n", "refused 2 BadHeader\n"),
    (1, "flatsurf 1 1\n", "refused 2 BadHeader\n"),
    (1, "flatsurf \u{80}\n", "refused 1 NotAscii line 1\n"),
    (1, "flatsurf 1\nflatsurf 1\n", "refused 3 BadLine line 2\n"),
    (2, "", "refused 3 BadLine line 2\n"),
    (2, "2 field\n", "refused 3 BadLine line 2\n"),
    (2, "field\n", "refused 3 BadLine line 2\n"),
    (2, "field 00002\n", "refused 3 BadLine line 2\n"),
    (2, "field 2\nfield 2\n", "refused 3 BadLine line 3\n"),
    (2, "field 12\n", "refused 5 BadField\n"),
    (2, "field 1\n", "refused 5 BadField\n"),
    (2, "field 0000\n", "refused 5 BadField\n"),
    (2, "field 1000\n", "refused 5 BadField\n"),
    (2, "field 2\rr\n", "refused 1 NotAscii line 2\n"),
    (3, "", "refused 3 BadLine line 5\n"),
    (3, "polygons\n", "refused 3 BadLine line 3\n"),
    (3, "polygon 1 0,1 -1,0 0,-1\n", "refused 3 BadLine line 3\n"),
    (3, "polygon x,0 1,0,0\n", "refused 3 BadLine line 3\n"),
    (3, "polygon 1, 0,1\n", "refused 4 BadNumber line 3\n"),
    (3, "polygon +1,0\n", "refused 4 BadNumber line 3\n"),
    (3, "polygon 1/00,0\n", "refused 4 BadNumber line 3\n"),
    (
        3,
        "polygon 1,1234567890123456789x\n",
        "refused 4 BadNumber line 3\n",
    ),
    (
        3,
        "polygon x,1234567890123456789\n",
        "refused 4 BadNumber line 3\n",
    ),
    (
        3,
        "polygon 1234567890123456789,x\n",
        "refused 9 Wide line 3\n",
    ),
    (
        3,
        "polygon 1/0000000000000000000,0\n",
        "refused 9 Wide line 3\n",
    ),
    (
        3,
        "polygon 0,0000000000000000001\n",
        "refused 9 Wide line 3\n",
    ),
    (3, "polygon 1,0\r\r\n", "refused 1 NotAscii line 3\n"),
    (4, "glue 0.0\n", "refused 3 BadLine line 4\n"),
    (4, "glue 0.0 0.2 0.1\n", "refused 3 BadLine line 4\n"),
    (4, "glue 0.0 0\n", "refused 3 BadLine line 4\n"),
    (4, "glue 0.0 0.2.\n", "refused 3 BadLine line 4\n"),
    (4, "glue 0.00000 0.2\n", "refused 3 BadLine line 4\n"),
    (5, "glue 0.1 0.3\n\npolygon\n", "refused 10 FewSides 1\n"),
    (6, "Check\n", "refused 3 BadLine line 6\n"),
    (6, "check check\n", "refused 3 BadLine line 6\n"),
    (6, "won top 1\n", "refused 3 BadLine line 6\n"),
    (6, "check\nglue 0.0 0.2\n", "refused 3 BadLine line 7\n"),
    (6, "check\npolygon\n", "refused 3 BadLine line 7\n"),
    (7, "", "refused 7 NoEnd\n"),
    (7, "end\r", "refused 1 NotAscii line 7\n"),
    (7, "end end\n", "refused 3 BadLine line 7\n"),
    (7, "end\nend\n", "refused 3 BadLine line 8\n"),
    (7, "end\n\u{7f}\n", "refused 1 NotAscii line 8\n"),
];

#[test]
fn faulty_lines(rt: HostRuntime) {
    for (number, text, answer) in FAULTY_LINES.iter() {
        expect_change(&rt, rt.alloc(), *number, text, answer);
    }
}

// Without commands nothing is written; up to 256 are answered one by one.
static TIMES: [usize; 4] = [0, 1, 3, 256];

#[test]
fn commands(rt: HostRuntime) {
    for times in TIMES.iter() {
        let text = repeated(&rt, rt.alloc(), "check\n", *times);
        let answer = repeated(&rt, rt.alloc(), CHECKED, *times);
        expect_change(&rt, rt.alloc(), 6, &text, &answer);
    }
}

// A command, a polygon and a side more than there may be. `BadLine` comes before `TooMany`.
static TOO_MANY: [(usize, &str, usize, &str, &str); 7] = [
    (6, "check\n", 257, "", "refused 6 TooMany line 262\n"),
    (
        6,
        "check\n",
        256,
        "check 1\n",
        "refused 3 BadLine line 262\n",
    ),
    (3, "polygon\n", 257, "", "refused 6 TooMany line 259\n"),
    (
        3,
        "polygon\n",
        256,
        "polygon x,0\n",
        "refused 6 TooMany line 259\n",
    ),
    (
        3,
        "polygon\n",
        256,
        "polygon 0\n",
        "refused 3 BadLine line 259\n",
    ),
    (
        3,
        "polygon 1,0 1,0 1,0 1,0\n",
        256,
        "",
        "refused 11 NotClosed 0\n",
    ),
    (
        3,
        "polygon 1,0 1,0 1,0 1,0 1,0\n",
        205,
        "",
        "refused 6 TooMany line 207\n",
    ),
];

#[test]
fn too_many(rt: HostRuntime) {
    for (number, text, times, last, answer) in TOO_MANY.iter() {
        let mut changed = repeated(&rt, rt.alloc(), text, *times);
        changed.push_str(last).expect(&rt, "memory");
        expect_change(&rt, rt.alloc(), *number, &changed, answer);
    }
}

// That a job with blanks after it, of so many bytes in all, is read to its end, and is answered so.
fn expect_long(rt: &impl Abort, alloc: Global, len: usize, answer: &str, status: Status) {
    let mut job = square_with(rt, alloc, 0, "");
    let blanks = len.saturating_sub(job.len());
    add(rt, &mut job, &repeated(rt, alloc, " ", blanks));
    let mut input = MemSource::new(job, 4096, Vec::new(alloc));
    let mut out = sink(rt, alloc, 64, Vec::new(alloc));
    let got = flat(alloc, &[], &mut input, &mut out);
    assert!(rt; out.held() == answer.as_bytes());
    assert!(rt; got == status);
    assert!(rt; input.left().is_empty());
}

// A job of 1,048,576 bytes is read; one byte more is too long.
#[test]
fn too_long(rt: HostRuntime) {
    expect_long(&rt, rt.alloc(), 1_048_576, CHECKED, Status::Done);
    expect_long(
        &rt,
        rt.alloc(),
        1_048_577,
        "refused 20 TooLong\n",
        Status::Refused,
    );
}

// The numbers of a read and of a write that fail, the room, the status, and how many bytes are
// written. The third read fails; the first or the second write fails; the room ends in the middle of
// the answer. Each command's line is written before the next one's.
static OUTSIDE: [(u64, u64, usize, Status, usize); 6] = [
    (2, 9, 64, Status::ReadFault, 0),
    (999, 0, 64, Status::WriteFault, 0),
    (999, 1, 64, Status::WriteFault, 25),
    (999, 9, 7, Status::WriteFault, 7),
    (999, 9, 49, Status::WriteFault, 49),
    (999, 9, 50, Status::Done, 50),
];

// That the job with two commands ends so, where a read, a write or the room fails.
fn expect_outside(rt: &impl Abort, alloc: Global, row: &(u64, u64, usize, Status, usize)) {
    let (read, write, room, status, held) = *row;
    let answer = b"check polygons 1 sides 4\ncheck polygons 1 sides 4\n";
    let job = square_with(rt, alloc, 6, "check\ncheck\n");
    let reads = vec![in alloc; read].expect(rt, "memory");
    let writes = vec![in alloc; write].expect(rt, "memory");
    let mut input = MemSource::new(job, 8, reads);
    let mut out = sink(rt, alloc, room, writes);
    let got = flat(alloc, &[], &mut input, &mut out);
    assert!(rt; got == status);
    assert!(rt; answer.starts_with(out.held()));
    assert!(rt; out.held().len() == held);
}

#[test]
fn outside_faults(rt: HostRuntime) {
    for row in OUTSIDE.iter() {
        expect_outside(&rt, rt.alloc(), row);
    }
}

// The number of each status, with which the program exits.
static NUMBERS: [(Status, u8); 7] = [
    (Status::Done, 0),
    (Status::Usage, 1),
    (Status::Refused, 2),
    (Status::Partial, 3),
    (Status::ReadFault, 4),
    (Status::WriteFault, 5),
    (Status::NoMemory, 6),
];

#[test]
fn numbers_of_statuses(rt: HostRuntime) {
    for (status, number) in NUMBERS.iter() {
        assert!(rt; status.code() == *number, "{status:?}");
    }
}
