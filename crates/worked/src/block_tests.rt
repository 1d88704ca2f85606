// Footprints, refusals and records on tread blocks.
use kinds::*;
use morphology::*;
use plates::*;
use std::test::Fail;

// Three tread blocks, 0 and 1 linked.
fn three_blocks(rt: &HostRuntime) -> Result<BlockPlate, Fail> {
    let mut plate = BlockPlate::new(rt.alloc(), 3)?;
    plate.link(0, 1)?;
    Ok(plate)
}

#[test]
fn footprints_on_blocks(rt: HostRuntime) -> Result<(), Fail> {
    let plate = three_blocks(&rt)?;
    let (no, yes) = (Touch::No, Touch::Yes);
    let mut picture = [yes, no, no];
    let mut work = [no; 3];
    dilate(&plate, 0, &mut picture, &mut work)?;
    assert_eq!(rt; picture, [yes, yes, no]);
    assert_eq!(rt; work, picture);
    picture = [yes, no, yes];
    erode(&plate, 0, &mut picture, &mut work)?;
    assert_eq!(rt; picture, [no, no, yes]);
    assert_eq!(rt; work, picture);
    Ok(())
}

#[test]
fn opening_and_closing_leave_their_first_pass(rt: HostRuntime) -> Result<(), Fail> {
    let plate = three_blocks(&rt)?;
    let (no, yes) = (Touch::No, Touch::Yes);
    let mut picture = [yes, no, yes];
    let mut work = [no; 3];
    open(&plate, 0, &mut picture, &mut work)?;
    assert_eq!(rt; picture, [no, no, yes]);
    assert_eq!(rt; work, [no, no, yes]);
    picture = [yes, no, no];
    close(&plate, 0, &mut picture, &mut work)?;
    assert_eq!(rt; picture, [yes, yes, no]);
    assert_eq!(rt; work, [yes, yes, no]);
    Ok(())
}

#[test]
fn levels_and_frames(rt: HostRuntime) -> Result<(), Fail> {
    let plate = three_blocks(&rt)?;
    let mut levels = [Level { value: 5 }, Level { value: 9 }, Level { value: 3 }];
    let mut work = levels;
    dilate(&plate, 0, &mut levels, &mut work)?;
    assert_eq!(rt;
        levels,
        [Level { value: 9 }, Level { value: 9 }, Level { value: 3 }]
    );
    levels = [Level { value: 5 }, Level { value: 9 }, Level { value: 3 }];
    erode(&plate, 0, &mut levels, &mut work)?;
    assert_eq!(rt;
        levels,
        [Level { value: 5 }, Level { value: 5 }, Level { value: 3 }]
    );
    let mut frames = [Frames { bits: 6 }, Frames { bits: 3 }, Frames { bits: 8 }];
    let mut work = frames;
    dilate(&plate, 0, &mut frames, &mut work)?;
    assert_eq!(rt;
        frames,
        [Frames { bits: 7 }, Frames { bits: 7 }, Frames { bits: 8 }]
    );
    frames = [Frames { bits: 6 }, Frames { bits: 3 }, Frames { bits: 8 }];
    erode(&plate, 0, &mut frames, &mut work)?;
    assert_eq!(rt;
        frames,
        [Frames { bits: 2 }, Frames { bits: 2 }, Frames { bits: 8 }]
    );
    Ok(())
}

#[test]
fn moves_are_refused_in_order(rt: HostRuntime) -> Result<(), Fail> {
    let plate = three_blocks(&rt)?;
    let (no, yes) = (Touch::No, Touch::Yes);
    let mut short = [yes, no];
    let mut long = [yes, no, no, no];
    let mut picture = [yes, no, no];
    let mut work = [no; 3];
    assert_eq!(rt;
        dilate(&plate, 1, &mut short, &mut long),
        Err(Refusal::PictureLength)
    );
    assert_eq!(rt;
        erode(&plate, 1, &mut long, &mut short),
        Err(Refusal::PictureLength)
    );
    assert_eq!(rt;
        open(&plate, 1, &mut picture, &mut long),
        Err(Refusal::MemoryLength)
    );
    assert_eq!(rt;
        close(&plate, 1, &mut picture, &mut work),
        Err(Refusal::NoElement)
    );
    assert_eq!(rt; short, [yes, no]);
    assert_eq!(rt; long, [yes, no, no, no]);
    assert_eq!(rt; picture, [yes, no, no]);
    assert_eq!(rt; work, [no, no, no]);
    assert_eq!(rt; close(&plate, 0, &mut picture, &mut work), Ok(()));
    Ok(())
}

// A record that has not been run.
fn asked(action: u8, element: usize) -> Record {
    Record {
        action,
        element,
        answer: 99,
        area: 99,
    }
}

// A record that was answered.
fn told(action: u8, element: usize, answer: u8, area: usize) -> Record {
    Record {
        action,
        element,
        answer,
        area,
    }
}

#[test]
fn a_refused_record_does_not_stop_the_list(rt: HostRuntime) -> Result<(), Fail> {
    let plate = three_blocks(&rt)?;
    let (no, yes) = (Touch::No, Touch::Yes);
    let mut picture = [yes, no, yes];
    let mut work = [no; 3];
    let mut records = [
        asked(0, 0),
        asked(2, 0),
        asked(5, 0),
        asked(1, 1),
        asked(4, 0),
    ];
    run(&plate, &mut picture, &mut work, &mut records);
    assert_eq!(rt;
        records,
        [
            told(0, 0, 26, 2),
            told(2, 0, 0, 1),
            told(5, 0, 26, 1),
            told(1, 1, 23, 1),
            told(4, 0, 0, 1),
        ]
    );
    assert_eq!(rt; picture, [no, no, yes]);
    let mut short = [yes, no];
    let mut records = [asked(1, 0), asked(9, 0)];
    run(&plate, &mut short, &mut work, &mut records);
    assert_eq!(rt; records, [told(1, 0, 21, 1), told(9, 0, 26, 1)]);
    let mut records = [asked(3, 0)];
    run(&plate, &mut picture, &mut short, &mut records);
    assert_eq!(rt; records, [told(3, 0, 22, 1)]);
    Ok(())
}

#[test]
fn block_plates_have_1_to_256_blocks(rt: HostRuntime) -> Result<(), Fail> {
    assert_eq!(rt; BlockPlate::new(rt.alloc(), 0).is_ok(), false);
    assert_eq!(rt; BlockPlate::new(rt.alloc(), 1)?.cells(), 1);
    assert_eq!(rt; BlockPlate::new(rt.alloc(), 256)?.cells(), 256);
    let Err(fault) = BlockPlate::new(rt.alloc(), 257) else {
        return Err(Fail::new("257 blocks"));
    };
    assert_eq!(rt; fault.number(), Some(11));
    Ok(())
}

#[test]
fn links_are_refused_in_order(rt: HostRuntime) -> Result<(), Fail> {
    let mut plate = BlockPlate::new(rt.alloc(), 9)?;
    assert_eq!(rt; plate.link(9, 9), Err(LinkFault::NoBlock));
    assert_eq!(rt; plate.link(0, 9), Err(LinkFault::NoBlock));
    assert_eq!(rt; plate.link(8, 8), Err(LinkFault::Linked));
    for block in 1..8 {
        assert_eq!(rt; plate.link(0, block), Ok(()));
    }
    assert_eq!(rt; plate.link(7, 0), Err(LinkFault::Linked));
    assert_eq!(rt; plate.link(8, 0), Err(LinkFault::Full));
    assert_eq!(rt; plate.link(8, 7), Ok(()));
    assert_eq!(rt; plate.target(0, 7, 0), Some(7));
    assert_eq!(rt; plate.target(0, 2, 7), Some(8));
    assert_eq!(rt; plate.target(0, 3, 7), None);
    Ok(())
}

#[test]
fn fills_and_counts(rt: HostRuntime) {
    let mut levels = [Level { value: 0 }; 5];
    assert_eq!(rt; area(&levels), 0);
    levels[3] = Level { value: 1 };
    assert_eq!(rt; area(&levels), 1);
    fill(&mut levels, Level { value: 7 });
    assert_eq!(rt; levels, [Level { value: 7 }; 5]);
    assert_eq!(rt; area(&levels), 5);
}

#[test]
fn numbers_of_values(rt: HostRuntime) {
    assert_eq!(rt; Touch::from_number(1), Some(Touch::Yes));
    assert_eq!(rt; Touch::from_number(2), None);
    assert_eq!(rt; Level::from_number(255), Some(Level { value: 255 }));
    assert_eq!(rt; Level::from_number(256), None);
    assert_eq!(rt; Frames::from_number(65535), Some(Frames { bits: 65535 }));
    assert_eq!(rt; Frames::from_number(65536), None);
}
