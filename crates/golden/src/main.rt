//! The example run files and their listings: prints a line for each name in the file `names`.
#![tactic(auto)]

use anyhow::anyhow;
use carry::carry;
use std::fs;

// Whether carrying the run file of this name gives its listing, byte for byte.
fn compare(rt: &HostRuntime, name: &str) -> anyhow::Result<bool> {
    let file = fs::read(rt, format!(in rt.alloc(); "{name}.run")?)?;
    let wanted = fs::read(rt, format!(in rt.alloc(); "{name}.out")?)?;
    let mut out = Vec::new(rt.alloc());
    carry(&file, &mut out).map_err(|_| anyhow!("no memory for the listing"))?;
    Ok(out == wanted)
}

fn main(rt: HostRuntime) -> anyhow::Result<()> {
    let names = fs::read_to_string(&rt, "names")?;
    for name in names.as_str().lines() {
        let verdict = if compare(&rt, name)? { "ok" } else { "differs" };
        println!(rt; "{name} {verdict}")?;
    }
    Ok(())
}
