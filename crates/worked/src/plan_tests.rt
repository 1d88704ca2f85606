// Footprints and refusals on plans, and layers on their plates.
use grids::*;
use kinds::*;
use layers::*;
use morphology::*;
use plans::*;
use plates::*;
use std::test::Fail;

// The touch picture with rubber on the cells listed.
fn rubber<const N: usize>(cells: &[usize]) -> [Touch; N] {
    let mut picture = [Touch::No; N];
    for cell in cells {
        if let Some(value) = picture.get_mut(*cell) {
            *value = Touch::Yes;
        }
    }
    picture
}

// The 3 by 4 plan of the strict mode with the vectors (0, -1, 1) and (1, -1, 0).
fn strict_plan(rt: &HostRuntime) -> Result<Plan, Fail> {
    let mut plan = Plan::new(rt.alloc(), 1, 3, 4)?;
    plan.add_element()?;
    plan.add_vector(0, 0, 0, -1, 1)?;
    plan.add_vector(0, 0, 1, -1, 0)?;
    Ok(plan)
}

#[test]
fn the_strict_footprint(rt: HostRuntime) -> Result<(), Fail> {
    let plan = strict_plan(&rt)?;
    let plate = plan.plate();
    let mut picture = rubber::<24>(&[12, 14, 15, 18, 19, 21]);
    let mut work = [Touch::No; 24];
    assert_eq!(rt;
        plate.lower.shape().widest(&picture),
        Ok(Some(Row { y: 2, count: 3 }))
    );
    close(plate, 0, &mut picture, &mut work)?;
    assert_eq!(rt; work, rubber::<24>(&[6, 8, 9, 10, 11, 12, 13, 14, 15, 17]));
    assert_eq!(rt;
        picture,
        rubber::<24>(&[0, 1, 2, 3, 4, 5, 12, 14, 15, 16, 17, 18, 19, 21, 23])
    );
    Ok(())
}

#[test]
fn widest_rows(rt: HostRuntime) -> Result<(), Fail> {
    let shape = strict_plan(&rt)?.plate().lower.shape();
    assert_eq!(rt; shape.widest(&rubber::<24>(&[])), Ok(None));
    assert_eq!(rt;
        shape.widest(&rubber::<24>(&[23])),
        Ok(Some(Row { y: 3, count: 1 }))
    );
    assert_eq!(rt;
        shape.widest(&rubber::<24>(&[5, 6, 11, 12, 17])),
        Ok(Some(Row { y: 1, count: 2 }))
    );
    assert_eq!(rt;
        shape.widest(&rubber::<23>(&[5])),
        Err(RowFault::PictureLength)
    );
    assert_eq!(rt;
        shape.widest(&rubber::<25>(&[5])),
        Err(RowFault::PictureLength)
    );
    Ok(())
}

#[test]
fn plans_are_refused_in_order(rt: HostRuntime) -> Result<(), Fail> {
    let refused = [
        (0, 0, 0, PlanFault::Mode),
        (5, 1, 1, PlanFault::Mode),
        (1, 0, 1, PlanFault::Size),
        (4, 65, 64, PlanFault::Size),
        (4, 64, 65, PlanFault::Size),
    ];
    for (mode, width, height, fault) in refused {
        let Err(NoPlan::Refused(answer)) = Plan::new(rt.alloc(), mode, width, height) else {
            return Err(Fail::new("a plan that should be refused"));
        };
        assert_eq!(rt; answer, fault);
    }
    let mut plan = Plan::new(rt.alloc(), 4, 64, 64)?;
    for _ in 0..8 {
        plan.add_element()?;
    }
    assert_eq!(rt; plan.add_element(), Err(PlanFault::Elements));
    assert_eq!(rt; plan.plate().cells(), 24576);
    Ok(())
}

#[test]
fn vectors_are_refused_in_order(rt: HostRuntime) -> Result<(), Fail> {
    let mut plan = Plan::new(rt.alloc(), 3, 64, 64)?;
    plan.add_element()?;
    let cases = [
        (1, 0, 64, 0, 0, Err(PlanFault::NoElement)),
        (0, 0, 64, 0, 0, Err(PlanFault::Side)),
        (0, 3, 64, 0, 0, Err(PlanFault::Side)),
        (0, 1, 64, 0, -62, Err(PlanFault::Coordinate)),
        (0, 1, 63, -64, 1, Err(PlanFault::Coordinate)),
        (0, 1, 63, 0, -64, Err(PlanFault::Coordinate)),
        (0, 1, 63, 0, -61, Err(PlanFault::Sum)),
        (0, 1, 63, 1, -63, Ok(())),
        (0, 1, 63, 1, -63, Err(PlanFault::Listed)),
        (0, 2, 63, 1, -63, Err(PlanFault::Sum)),
        (0, 2, 0, -1, 0, Ok(())),
    ];
    for (element, side, a, b, c, answer) in cases {
        assert_eq!(rt; plan.add_vector(element, side, a, b, c), answer);
    }
    assert_eq!(rt; plan.plate().target(0, 1, 128), None);
    assert_eq!(rt; plan.plate().target(0, 1, 129), Some(0));
    assert_eq!(rt; plan.plate().back(0, 1, 0), Some(129));
    Ok(())
}

#[test]
fn lists_take_32_vectors(rt: HostRuntime) -> Result<(), Fail> {
    let mut plan = Plan::new(rt.alloc(), 2, 1, 1)?;
    plan.add_element()?;
    for a in 0..32i32 {
        plan.add_vector(0, 0, a, a.wrapping_neg(), 0)?;
    }
    assert_eq!(rt; plan.add_vector(0, 0, 31, -31, 0), Err(PlanFault::Listed));
    assert_eq!(rt; plan.add_vector(0, 0, 32, -32, 0), Err(PlanFault::Vectors));
    Ok(())
}

#[test]
fn plans_take_64_dead_cells(rt: HostRuntime) -> Result<(), Fail> {
    let mut plan = Plan::new(rt.alloc(), 1, 6, 6)?;
    for cell in 0..64 {
        plan.kill(cell)?;
    }
    for (cell, fault) in [
        (72, KillFault::NoCell),
        (63, KillFault::AlreadyDead),
        (71, KillFault::TableFull),
    ] {
        assert_eq!(rt; plan.kill(cell), Err(PlanFault::Kill(fault)));
    }
    assert_eq!(rt; plan.plate().dead_cells().len(), 64);
    Ok(())
}

#[test]
fn three_layers(rt: HostRuntime) -> Result<(), Fail> {
    let mut plan = strict_plan(&rt)?;
    plan.kill(6)?;
    assert_eq!(rt; plan.plate().target(0, 0, 12), None);
    assert_eq!(rt; plan.plate().target(0, 1, 12), Some(8));
    let Ok(mut inner) = Dead::new(
        rt.alloc(),
        Reflected {
            lower: plan.into_plate(),
        },
    ) else {
        return Err(Fail::new("memory"));
    };
    assert_eq!(rt; inner.target(0, 1, 8), Some(12));
    assert_eq!(rt; inner.kill(13), Ok(()));
    let outer = Reflected { lower: inner };
    assert_eq!(rt; outer.target(0, 1, 12), Some(8));
    assert_eq!(rt; outer.target(0, 1, 13), None);
    assert_eq!(rt; outer.back(0, 1, 8), Some(12));
    Ok(())
}
