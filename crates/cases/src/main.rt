#![tactic(auto)]

// Compares the report on each file of a table with the one expected, which an independent implementation gave.
use reports::report;
use std::fs;

// Whether the report on a file, and whether it is a STOP, are as expected.
fn agrees(rt: &HostRuntime, name: &str) -> anyhow::Result<bool> {
    let heap = rt.alloc();
    let job = fs::read(rt, format!(in heap; "{name}.job")?)?;
    let expected = fs::read(rt, format!(in heap; "{name}.report")?)?;
    let found = report(heap, job.as_slice())?;
    let refused = expected.as_slice().starts_with(b"STOP");
    Ok(found.text.as_slice() == expected.as_slice() && found.accepted != refused)
}

fn compare(rt: &HostRuntime) -> anyhow::Result<()> {
    let names = fs::read_to_string(rt, "names")?;
    let files = names.lines().count();
    let mut agreeing = 0usize;
    for name in names.lines() {
        if agrees(rt, name)? {
            agreeing = agreeing.saturating_add(1);
        } else {
            println!(rt; "{name}: another report")?;
        }
    }
    println!(rt; "{agreeing} of {files} reports as expected")?;
    Ok(())
}

fn main(rt: HostRuntime) -> anyhow::Result<()> {
    compare(&rt)
}
