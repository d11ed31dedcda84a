// Reads a grid text from standard input, and prints the integral of its grid or why it is refused.
#![tactic(auto)]

use report::report::printed;
use std::io::Read;

fn main(rt: HostRuntime) -> anyhow::Result<()> {
    let mut input = Vec::new(rt.alloc());
    rt.stdin().read_to_end(&mut input)?;
    let report = printed(rt.alloc(), input.as_slice())?;
    rt.print(report.as_str())?;
    Ok(())
}
