// Saying what was found, and the whole lookup.
ghost use Rattle.std.specs.Prelude.{◌≡◌, ◌≤◌, Some, length};
ghost use Rattle.rules.specs.Header.{header_values};
ghost use Rattle.area.specs.Shape.{desk_shape};
ghost use Rattle.lookup.specs.Scan.{found};
ghost use Rattle.lookup.specs.Look.{header_keys, widths, lookup_steps, found_said, steps_said, least_words, look_said};
ghost use Rattle.lookup.specs.InCode.{scanned, looked_said};

use crate::scan::Scanned;
use crate::{Answer, Outcome};
use rules::{HEADER_BYTES, Refusal};

// A place that the blocks gave: the table is read there, and nowhere else.
fn matched(table: &[u8], place: usize, falses: usize) -> Result<Answer, Refusal>
    ensures { looked_said result ≡ found_said table.now (found (Some place) falses) }
{
    if table.len() / rules::RECORD_BYTES <= place {
        return Err(Refusal::DamagedArea);
    }
    let rule = rules::record_at(table, place);
    let Some(action) = rules::action_of(rule) else {
        return Err(Refusal::UnknownAction(place));
    };
    let outcome = Outcome::Match(place, action);
    Ok(Answer { falses, outcome })
}

// What the blocks gave, said.
fn said_of(table: &[u8], tried: Scanned) -> Result<Answer, Refusal>
    ensures { looked_said result ≡ found_said table.now (scanned tried) }
{
    let falses = tried.falses;
    match tried.place {
        Some(place) => matched(table, place, falses),
        None => {
            let outcome = Outcome::NoMatch;
            Ok(Answer { falses, outcome })
        }
    }
}

// The steps over an area that has the five roots. That it has them stays a clause of three functions: a type of such an area would be
// taken apart by each walk.
fn go_through(table: &[u8], area: &[u32], header: &[u8; HEADER_BYTES]) -> Result<Answer, Refusal>
    requires { least_words ≤ length area.now }
    ensures { looked_said result ≡ steps_said table.now (lookup_steps desk_shape area.now (header_keys widths (header_values header.now))) }
{
    let Some(records) = crate::walk::go_down_all(area, header) else {
        return Err(Refusal::DamagedArea);
    };
    let vectors = crate::gather::vectors_at(area, records);
    let aggregates = crate::gather::aggregates_at(area, records);
    said_of(table, crate::scan::try_blocks(vectors, aggregates))
}

// A header over any table and any area: 8, 1, 2, 9, then 5 (01, "The desk's numbers").
pub fn look(table: &[u8], area: &[u32], header: &[u8]) -> Result<Answer, Refusal>
    ensures { looked_said result ≡ look_said table.now area.now header.now }
{
    if header.len() != HEADER_BYTES {
        return Err(Refusal::NotAHeader);
    }
    if table.len() % rules::RECORD_BYTES != 0 {
        return Err(Refusal::RaggedTable);
    }
    if rules::MOST_RULES < table.len() / rules::RECORD_BYTES {
        return Err(Refusal::TooManyRules);
    }
    if area.len() < rules::FIELDS * area::RECORD_WORDS {
        return Err(Refusal::DamagedArea);
    }
    go_through(table, area, header.as_array().unwrap())
}
