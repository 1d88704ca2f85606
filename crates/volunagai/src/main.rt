#![tactic(auto)]

// Cleans a footprint on a small triangular grid by a list of moves, and prints what became of each move and of the footprint.
use anyhow::anyhow;
use grids::Row;
use kinds::{Kind, Touch};
use morphology::{Move, Record, run};
use plans::Plan;
use std::io;

// The 3 by 4 plan of the strict mode with one element of two vectors, made by the fitter's calls; none where one of them fails.
fn strict_plan(rt: &HostRuntime) -> Option<Plan> {
    let mut plan = Plan::new(rt.alloc(), 1, 3, 4).ok()?;
    plan.add_element().ok()?;
    plan.add_vector(0, 0, 0, -1, 1).ok()?;
    plan.add_vector(0, 0, 1, -1, 0).ok()?;
    Some(plan)
}

// Puts rubber on the cells listed.
fn put_rubber(picture: &mut [Touch], cells: &[usize]) {
    for cell in cells {
        if let Some(value) = picture.get_mut(*cell) {
            *value = Touch::Yes;
        }
    }
}

// By the number of the move, since one that is asked for below is no move's.
fn asked(action: u8, element: usize) -> Record {
    Record {
        action,
        element,
        ..Record::default()
    }
}

// One line needs no Display: that would take a wrapper of the record and an impl.
fn print_record(rt: &impl Print, record: Record) -> io::Result<()> {
    let Record {
        action,
        element,
        answer,
        area,
    } = record;
    println!(rt; "move {action} by element {element}: answer {answer}, area {area}")
}

fn print_cells(rt: &impl Print, picture: &[Touch]) -> io::Result<()> {
    print!(rt; "rubber on cells")?;
    for (cell, value) in picture.iter().enumerate() {
        if value.is_not_least() {
            print!(rt; " {cell}")?;
        }
    }
    println!(rt; "")
}

fn print_widest(rt: &impl Print, plan: &Plan, picture: &[Touch]) -> io::Result<()> {
    match plan.plate().lower.shape().widest(picture) {
        Ok(Some(Row { y, count })) => println!(rt; "widest row {y}, {count} cells"),
        Ok(None) => println!(rt; "no rubber in any row"),
        Err(fault) => {
            let number = fault.number();
            println!(rt; "no widest row: refusal {number}")
        }
    }
}

// Runs one record on the picture, and prints what it did.
fn work(rt: &impl Print, plan: &Plan, picture: &mut [Touch; 24], record: Record) -> io::Result<()> {
    let mut memory = [Touch::No; 24];
    let mut records = [record];
    run(plan.plate(), picture, &mut memory, &mut records);
    for record in records {
        print_record(rt, record)?;
    }
    print_cells(rt, picture)?;
    print_widest(rt, plan, picture)
}

fn clean(rt: &HostRuntime) -> anyhow::Result<()> {
    let Some(plan) = strict_plan(rt) else {
        return Err(anyhow!("the plan was not made"));
    };
    let mut start = [Touch::No; 24];
    put_rubber(&mut start, &[12, 14, 15, 18, 19, 21]);
    println!(rt; "a strict plan of 3 by 4, vectors (0, -1, 1) and (1, -1, 0)")?;
    print_cells(rt, &start)?;
    print_widest(rt, &plan, &start)?;
    let moves = [
        asked(Move::Dilate.number(), 0),
        asked(7, 0),
        asked(Move::Open.number(), 4),
        asked(Move::Close.number(), 0),
    ];
    for record in moves {
        let mut picture = start;
        work(rt, &plan, &mut picture, record)?;
    }
    Ok(())
}

fn main(rt: HostRuntime) -> anyhow::Result<()> {
    clean(&rt)
}
