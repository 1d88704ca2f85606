#![tactic(auto)]

// Reads a job from standard input and prints the report on it. Ends with status 0 after a report, and with status 1 after STOP or
// where reading, printing or memory failed.
use anyhow::anyhow;
use reports::report;
use std::io::{Read, Write};

fn main(rt: HostRuntime) -> anyhow::Result<()> {
    let mut bytes = Vec::new(rt.alloc());
    // One byte more than a job may have tells that it has too many.
    rt.stdin().take(65537).read_to_end(&mut bytes)?;
    let report = report(rt.alloc(), bytes.as_slice())?;
    rt.stdout().write_all(report.text.as_slice())?;
    if report.accepted {
        Ok(())
    } else {
        Err(anyhow!("the job is refused"))
    }
}
