// How long the build takes at 32, 64, 128 and 256 rules. The words needed go to standard output, the
// microseconds that 100 builds took to standard error.
#![tactic(auto)]

use rules::RECORD_BYTES;
use samples::{Pattern, TABLE_BYTES};
use std::io;
use std::time::CpuClock;

fn main(rt: HostRuntime) -> io::Result<()> {
    let mut table = [0; TABLE_BYTES];
    samples::fill(&mut table, Pattern::Traffic);
    let mut area = samples::large_area();
    for part in [
        &table[..32 * RECORD_BYTES],
        &table[..64 * RECORD_BYTES],
        &table[..128 * RECORD_BYTES],
        &table[..],
    ] {
        measure(&rt, part, &mut area)?;
    }
    Ok(())
}

fn measure(
    rt: &(impl Print + Eprint + CpuClock),
    table: &[u8],
    area: &mut [u32],
) -> io::Result<()> {
    let rules = table.len() / RECORD_BYTES;
    let time = trial::timed(rt, || build_often(table, area))?;
    eprintln!(rt; "{rules} rules, microseconds for 100 builds: {time}")?;
    println!(rt;
        "{rules} rules, words: {}",
        desk::build(table, area).unwrap_or(0)
    )
}

fn build_often(table: &[u8], area: &mut [u32]) {
    for _ in 0..100 {
        let _ = desk::build(table, area);
    }
}
