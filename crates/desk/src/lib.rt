// The rule desk: its public calls, each with its statement, none with a `requires`.
// specs/ says what each answers, for any bytes at all; specs/Promises.antt is the page of what that promises.
#![tactic(auto)]

ghost use Rattle.desk.specs.BuildCall.{Builds};
ghost use Rattle.desk.specs.JudgeCall.{Judges};
ghost use Rattle.desk.specs.LookCall.{Looks};
ghost use Rattle.desk.specs.PairsCall.{Pairs};
ghost use Rattle.desk.specs.Show.{Shows};

use rules::{Refusal, Table};

// The index of the table, written to the lent area; its further words keep their values. The answer is the number of words that the
// index takes.
pub fn build(table: &[u8], area: &mut [u32]) -> Result<usize, Refusal>
    ensures { Builds table.now area.old result area.new }
{
    let table = Table::try_from(table)?;
    let words = index::words_needed(table);
    if area.len() < words {
        return Err(Refusal::ShortArea);
    }
    index::write(table, area);
    Ok(words)
}

// A header over any table and any area: the match or no match, with the number of false blocks, or
// the refusal. Over the index of an accepted table, unchanged, it is what table and header fix.
pub fn lookup(table: &[u8], area: &[u32], header: &[u8]) -> Result<lookup::Answer, Refusal>
    ensures { Looks table.now area.now header.now result }
{
    lookup::look(table, area, header)
}

// The pairs of rules that share a header while neither covers the other, written to the lent list by
// their places; the answer is their number.
pub fn pairs(table: &[u8], list: &mut [u16]) -> Result<usize, Refusal>
    ensures { Pairs table.now list.old result list.new }
{
    let table = Table::try_from(table)?;
    let count = overlap::count_pairs(table);
    if list.len() < 2 * count {
        return Err(Refusal::ShortList);
    }
    overlap::write_pairs(table, list);
    Ok(count)
}

// Whether the rules may be put in the proposed order; if they may, the moved table is written to the lent
// output.
pub fn judge(table: &[u8], order: &[u16], output: &mut [u8]) -> Result<(), Refusal>
    ensures { Judges table.now order.now output.old result output.new }
{
    let table = Table::try_from(table)?;
    let Some(places) = overlap::check_order(order, table.len()) else {
        return Err(Refusal::NotAnOrder);
    };
    if output.len() < table.bytes.len() {
        return Err(Refusal::ShortOutput);
    }
    if let Some(crossing) = overlap::first_crossing(table, &places) {
        return Err(Refusal::NotAllowed(crossing));
    }
    overlap::write_moved(table, order, output);
    Ok(())
}

// The rule at a place: the record's own 24 bytes as a part of the table, or an empty part where no
// whole record stands there: an empty part and no Option, as 01 has it.
pub fn show(table: &[u8], place: usize) -> &[u8]
    ensures { Shows table.now place result.now }
{
    if place < table.len() / rules::RECORD_BYTES {
        rules::record_at(table, place)
    } else {
        &table[0..0]
    }
}
