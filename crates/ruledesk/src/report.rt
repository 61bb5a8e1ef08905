// The program's whole text, made from what was read of the file and of the input.
ghost use Rattle.std.specs.Prelude.{◌≡◌, List, ℕ, ◌+◌, ◌*◌, ◌/◌, ◌≤◌, length};
ghost use Rattle.io.specs.Counts.{IsPrefixLen};
ghost use Rattle.rules.specs.Refusal.{said};
ghost use Rattle.rules.specs.Header.{header_size};
ghost use Rattle.lookup.specs.Look.{look_said};
ghost use Rattle.ruledesk.specs.InCode.{Puts, long_said};
ghost use Rattle.ruledesk.specs.Program.{first_lines, Holds, Reports};

use crate::lines::{Line, MOST_LINE, answer_line, refusal_line};
use rules::{HEADER_BYTES, MOST_RULES, RECORD_BYTES, Refusal};

// "headers from standard input, at most 13,000 bytes"
pub const MOST_INPUT: usize = 1000 * HEADER_BYTES;

// "with an area of 16,384 words"
pub const AREA_WORDS: usize = 16384;

// A longer table is refused by its length alone.
pub const TABLE_BYTES: usize = MOST_RULES * RECORD_BYTES;

// A line for each of 1,000 headers.
pub const TEXT_BYTES: usize = 1000 * MOST_LINE;

// A line goes to `out` from byte `at` on; the answer is where the next one goes.
// The length stands beside: `Reports` and `IsPrefixLen` are said of the lent text and its length.
fn put_line(out: &mut [u8], at: usize, line: Line) -> usize
    requires { at + 64 ≤ length out.old }
    ensures { Puts 64 out.old at line.bytes out.new result }
{
    let end = at + line.len();
    out[at..end].copy_from_slice(line.as_str().as_bytes());
    end
}

// A line for each header of the input.
fn put_answers(table: &[u8], area: &[u32], input: &[u8], out: &mut [u8]) -> usize
    requires { length input.now / header_size * 64 ≤ length out.old }
    ensures { Puts (length input.now / header_size * 64) out.old 0
        (first_lines (look_said table.now area.now) input.now (length input.now / header_size)) out.new result }
{
    let (headers, _) = input.as_chunks::<HEADER_BYTES>();
    let mut at = 0;
    for header in headers {
        at = put_line(out, at, answer_line(desk::lookup(table, area, header)));
    }
    at
}

// A table longer than 256 rules: "Refusals 1 and 2 go by the file's whole length, however long."
#[tactic(auto, unfolding(rules::specs::Refusal::said, crate::specs::InCode::long_said))]
fn long_table(whole: usize) -> Refusal
    ensures { said result ≡ long_said whole }
{
    if whole % RECORD_BYTES != 0 {
        Refusal::RaggedTable
    } else {
        Refusal::TooManyRules
    }
}

// Puts the program's whole text at the front of `out` and answers its length. `head` and `first` hold the
// first bytes of the file and of the input; `file` and `input` are their whole lengths, which may be more than the room for them.
// So both stand: no slice of the room is as long as the file or the input then.
pub fn report(
    head: &[u8; TABLE_BYTES],
    file: usize,
    first: &[u8; MOST_INPUT],
    input: usize,
    area: &mut [u32; AREA_WORDS],
    out: &mut [u8; TEXT_BYTES],
) -> usize
    ensures reports { (table bytes : List ℕ) → Holds table head.now file → Holds bytes first.now input
        → Reports table bytes area.old out.old result out.new area.new }
    ensures prefix_len { IsPrefixLen result out.new }
{
    let Some(table) = head.get(..file) else {
        return put_line(out, 0, refusal_line(long_table(file)));
    };
    if let Err(refusal) = desk::build(table, area) {
        return put_line(out, 0, refusal_line(refusal));
    }
    match first.get(..input) {
        Some(bytes) if bytes.len() % HEADER_BYTES == 0 => put_answers(table, area, bytes, out),
        _ => put_line(out, 0, refusal_line(Refusal::NotAHeader)),
    }
}
