// occlist: checks an occam text from standard input and lists its words, or prints why it is refused.
#![tactic(auto)]

use listing::printout;
use std::io::{Read, Write};
use words::TEXT_BYTES;

fn main(rt: HostRuntime) -> anyhow::Result<()> {
    let heap = rt.alloc();
    let mut text = Vec::new(heap);
    // One byte more than a text may have shows that it has too many.
    let _ = rt
        .stdin()
        .take(TEXT_BYTES as u64 + 1)
        .read_to_end(&mut text)?;
    let out = printout(heap, text.as_slice())?;
    rt.stdout().write_all(out.as_slice())?;
    Ok(())
}
