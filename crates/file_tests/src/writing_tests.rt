// Jobs written byte for byte, and jobs that are refused.
use jobs::*;
use kinds::*;
use morphology::*;
use plans::*;
use std::process::Abort;
use std::test::Fail;
use writers::*;

const WEAK: [u8; 206] = *b"PLAT     2     1     1     1\n\
ELEM     0                  \n\
VECT     0     0     0     1\n\
CELL     0     1            \n\
MOVE     1     0            \n\
MOVE     3     7            \n\
LAST                        \n\
...";

const INDEPENDENT: [u8; 174] = *b"PLAT     3     1     1     1\n\
ELEM     0                  \n\
VECT     1     0     0     1\n\
VECT     2     0     0    -1\n\
DEAD     1                  \n\
LAST                        \n\
";

fn asked(action: u8, element: usize) -> Record {
    Record {
        action,
        element,
        answer: 9,
        area: 8,
    }
}

// The 1 by 1 plan of the weak mode with the vector (0, 0, 1).
fn weak_plan(rt: &HostRuntime) -> Result<Plan, Fail> {
    let mut plan = Plan::new(rt.alloc(), 2, 1, 1)?;
    plan.add_element()?;
    plan.add_vector(0, 0, 0, 0, 1)?;
    Ok(plan)
}

#[test]
fn a_job_and_what_stands_behind_it(rt: HostRuntime) -> Result<(), Fail> {
    let plan = weak_plan(&rt)?;
    let mut out = [b'.'; 206];
    let written = write(
        &plan,
        &[Touch::Yes, Touch::No],
        &[asked(1, 0), asked(3, 7)],
        &mut out,
    );
    assert_eq!(rt; written, Ok(203));
    assert_eq!(rt; out, WEAK);
    Ok(())
}

#[test]
fn just_enough_and_one_byte_too_short(rt: HostRuntime) -> Result<(), Fail> {
    let plan = weak_plan(&rt)?;
    let picture = [Touch::Yes, Touch::No];
    let records = [asked(1, 0), asked(3, 7)];
    let mut out = [b'.'; 203];
    assert_eq!(rt;
        write(&plan, &picture, &records, &mut out[..202]),
        Err(WriteFault::Output)
    );
    assert_eq!(rt; out, [b'.'; 203]);
    assert_eq!(rt; write(&plan, &picture, &records, &mut out), Ok(203));
    assert_eq!(rt; out[202], b'\n');
    Ok(())
}

// A record is refused before an output that is too short.
fn record_refused(rt: &impl Abort, plan: &Plan, action: u8, element: usize) {
    let mut out = [b'.'; 1];
    assert_eq!(rt;
        write(
            plan,
            &[Touch::Yes, Touch::No],
            &[asked(action, element)],
            &mut out,
        ),
        Err(WriteFault::Record)
    );
}

#[test]
fn refusals(rt: HostRuntime) -> Result<(), Fail> {
    let plan = weak_plan(&rt)?;
    let picture = [Touch::Yes, Touch::No];
    let mut out = [b'.'; 206];
    assert_eq!(rt;
        write(&plan, &picture[..1], &[asked(5, 0)], &mut out),
        Err(WriteFault::PictureLength)
    );
    record_refused(&rt, &plan, 5, 0);
    record_refused(&rt, &plan, 0, 0);
    record_refused(&rt, &plan, 1, 100);
    assert_eq!(rt; out, [b'.'; 206]);
    assert_eq!(rt; write(&plan, &picture, &[asked(4, 99)], &mut out), Ok(174));
    Ok(())
}

#[test]
fn side_1_before_side_2(rt: HostRuntime) -> Result<(), Fail> {
    let mut plan = Plan::new(rt.alloc(), 3, 1, 1)?;
    plan.add_element()?;
    plan.add_vector(0, 2, 0, 0, -1)?;
    plan.add_vector(0, 1, 0, 0, 1)?;
    plan.kill(1)?;
    let mut out = [b'.'; 174];
    assert_eq!(rt;
        write(&plan, &[Touch::No, Touch::No], &[], &mut out),
        Ok(174)
    );
    assert_eq!(rt; out, INDEPENDENT);
    Ok(())
}
