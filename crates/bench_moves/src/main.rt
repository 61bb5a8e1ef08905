// How long the pair list and the judgement of moves take at 64, 128 and 256 rules. What they answer
// goes to standard output, the microseconds that 20 calls of each took to standard error.
#![tactic(auto)]

use rules::{MOST_RULES, RECORD_BYTES};
use samples::{Pattern, TABLE_BYTES};
use std::io;
use std::time::CpuClock;

// Room for every pair of 256 rules: two places each.
const ENTRIES: usize = MOST_RULES * (MOST_RULES - 1);

fn main(rt: HostRuntime) -> io::Result<()> {
    let mut table = [0; TABLE_BYTES];
    samples::fill(&mut table, Pattern::Crossing);
    let parts = [
        &table[..64 * RECORD_BYTES],
        &table[..128 * RECORD_BYTES],
        &table[..],
    ];
    pair_lists(&rt, &parts)?;
    judgements(&rt, &parts)
}

fn pair_lists(rt: &(impl Print + Eprint + CpuClock), parts: &[&[u8]]) -> io::Result<()> {
    let mut list = [0; ENTRIES];
    for part in parts {
        measure_pairs(rt, part, &mut list)?;
    }
    Ok(())
}

fn judgements(rt: &(impl Print + Eprint + CpuClock), parts: &[&[u8]]) -> io::Result<()> {
    let mut output = [0; TABLE_BYTES];
    for part in parts {
        measure_judgement(rt, part, &mut output)?;
    }
    Ok(())
}

fn measure_pairs(
    rt: &(impl Print + Eprint + CpuClock),
    table: &[u8],
    list: &mut [u16],
) -> io::Result<()> {
    let rules = table.len() / RECORD_BYTES;
    let time = trial::timed(rt, || list_often(table, list))?;
    eprintln!(rt; "{rules} rules, microseconds for 20 pair lists: {time}")?;
    println!(rt;
        "{rules} rules, pairs: {}",
        desk::pairs(table, list).unwrap_or(0)
    )
}

fn list_often(table: &[u8], list: &mut [u16]) {
    for _ in 0..20 {
        let _ = desk::pairs(table, list);
    }
}

// Every pair of rules changes its order, and none is in the way: all are compared.
fn measure_judgement(
    rt: &(impl Print + Eprint + CpuClock),
    table: &[u8],
    output: &mut [u8],
) -> io::Result<()> {
    let rules = table.len() / RECORD_BYTES;
    let mut order = [0; MOST_RULES];
    let order = &mut order[..rules.min(MOST_RULES)];
    samples::reverse(order);
    let time = trial::timed(rt, || judge_often(table, order, output))?;
    eprintln!(rt; "{rules} rules, microseconds for 20 judgements: {time}")?;
    let allowed = desk::judge(table, order, output).is_ok();
    println!(rt; "{rules} rules, allowed: {}", u8::from(allowed))
}

fn judge_often(table: &[u8], order: &[u16], output: &mut [u8]) {
    for _ in 0..20 {
        let _ = desk::judge(table, order, output);
    }
}
