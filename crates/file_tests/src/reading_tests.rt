// A job as it is read, and files that are refused.
use jobs::*;
use kinds::*;
use morphology::*;
use readers::*;
use std::process::Abort;
use std::test::Fail;

const SAMPLE: [u8; 203] = *b"PLAT     2     1     1     1\n\
ELEM     0                  \n\
VECT     0     0     0     1\n\
CELL     0     1            \n\
MOVE     1     0            \n\
MOVE     3     7            \n\
LAST                        \n\
";

fn record(action: u8, element: usize, answer: u8, area: usize) -> Record {
    Record {
        action,
        element,
        answer,
        area,
    }
}

#[test]
fn a_job_and_the_record_behind_it(rt: HostRuntime) -> Result<(), Fail> {
    let head = measure(&SAMPLE)?;
    assert_eq!(rt; (head.mode, head.width, head.height), (2, 1, 1));
    assert_eq!(rt; (head.kind.code(), head.cells), (1, 2));
    let mut picture = [Touch::No, Touch::Yes];
    let mut records = [record(9, 9, 9, 9); 3];
    let (plan, moves) = read(rt.alloc(), &SAMPLE, &mut picture, &mut records)?;
    assert_eq!(rt; (plan.cells(), plan.elements(), moves), (2, 1, 2));
    assert_eq!(rt; picture, [Touch::Yes, Touch::No]);
    assert_eq!(rt;
        records,
        [record(1, 0, 0, 0), record(3, 7, 0, 0), record(9, 9, 9, 9)]
    );
    Ok(())
}

// The fault's number, its line and the number inside it; picture and records are left.
fn refused(
    rt: &(impl Abort + AllocGlobal),
    file: &[u8],
    size: usize,
    expected: (u8, usize, u8),
) -> Result<(), Fail> {
    assert!(rt; size <= 3);
    let mut picture = [Touch::Yes; 3];
    let mut records = [record(9, 9, 9, 9); 2];
    match read(rt.alloc(), file, &mut picture[..size], &mut records) {
        Err(NoJob::Refused(stop)) => {
            assert_eq!(rt;
                (stop.fault.number(), stop.line, stop.fault.inner()),
                expected
            )
        }
        _ => return Err(Fail::new("not refused")),
    }
    assert_eq!(rt; picture, [Touch::Yes; 3]);
    assert_eq!(rt; records, [record(9, 9, 9, 9); 2]);
    Ok(())
}

// The file with another line in the place of one of its lines.
fn changed(rt: &impl Abort, mut file: [u8; 203], line: usize, text: &[u8; 28]) -> [u8; 203] {
    assert!(rt; 1 <= line && line <= 7);
    let at = 29 * (line - 1);
    file[at..at + 28].copy_from_slice(text);
    file
}

#[test]
fn files_too_short_or_too_long(rt: HostRuntime) -> Result<(), Fail> {
    refused(&rt, &[], 2, (48, 1, 0))?;
    refused(&rt, &SAMPLE[..174], 2, (48, 7, 0))?;
    refused(&rt, &SAMPLE[..202], 2, (41, 7, 0))?;
    let mut longer = [b' '; 204];
    longer[..203].copy_from_slice(&SAMPLE);
    refused(&rt, &longer, 2, (49, 8, 0))?;
    refused(&rt, &SAMPLE, 3, (21, 1, 0))
}

// A line in the place of another, and the refusal.
const CHANGED: [(usize, [u8; 28], (u8, usize, u8)); 16] = [
    (1, *b"PLAT     2     1     1     4", (44, 1, 0)),
    (1, *b"PLAT     5     1     1     1", (46, 1, 10)),
    (1, *b"PLAT     2     1     1     2", (54, 1, 0)),
    (2, *b"VECT     0     0     0     1", (42, 2, 0)),
    (2, *b"ELEM     1                  ", (44, 2, 0)),
    (3, *b"VECT     1     0     0     1", (46, 3, 12)),
    (4, *b"CELL     0   12x            ", (43, 4, 0)),
    (4, *b"CELL    -1     1            ", (44, 4, 0)),
    (4, *b"CELL     2     1            ", (44, 4, 0)),
    (4, *b"CELL     0     0            ", (44, 4, 0)),
    (4, *b"CELL     0     2            ", (44, 4, 0)),
    (4, *b"MOVE     1     0            ", (47, 6, 0)),
    (5, *b"CELL     0     1            ", (45, 5, 0)),
    (5, *b"DEAD     1                  ", (42, 5, 0)),
    (5, *b"MOVE     5     0            ", (44, 5, 0)),
    (5, *b"MOVE     1   100            ", (44, 5, 0)),
];

#[test]
fn one_line_changed(rt: HostRuntime) -> Result<(), Fail> {
    for (line, text, expected) in CHANGED {
        refused(&rt, &changed(&rt, SAMPLE, line, &text), 2, expected)?;
    }
    let file = changed(&rt, SAMPLE, 1, b"PLAT     3     1     1     1");
    let file = changed(&rt, file, 3, b"VECT     2     0     0    -1");
    let file = changed(&rt, file, 4, b"VECT     1     0     0     1");
    refused(&rt, &file, 2, (45, 4, 0))
}
