// Runs the report on many texts, each of which a `~` and a line end follow on standard input.
#![tactic(auto)]

ghost use Rattle.std.specs.Prelude.{◌<◌, length, IfSome};

use report::report::printed;
use std::io::Read;

fn main(rt: HostRuntime) -> anyhow::Result<()> {
    let mut input = Vec::new(rt.alloc());
    rt.stdin().read_to_end(&mut input)?;
    let mut rest = input.as_slice();
    while let Some((text, next)) = cut(rest) {
        let report = printed(rt.alloc(), text)?;
        rt.print(report.as_str())?;
        rest = next;
    }
    Ok(())
}

// The text before the first `~`, and what comes after the line end that follows it.
fn cut(bytes: &[u8]) -> Option<(&[u8], &[u8])>
    ensures { IfSome result (λ parts. length parts.1.now < length bytes.now) }
{
    let end = bytes.iter().position(|b| *b == b'~')?;
    let next = bytes.get(end + 2..)?;
    Some((&bytes[..end], next))
}
