// The desk's calls for C and Rust, which `face_c` exports: one function for each call of `desk`, none with a `requires`.
// An answer goes out by value, in 01's own numbers, so that a refusal writes nothing at all.
#![tactic(auto)]

mod answers;

ghost use Rattle.std.specs.Prelude.{◌≡◌};
ghost use Rattle.desk.specs.BuildCall.{build_said, area_left};
ghost use Rattle.desk.specs.PairsCall.{pairs_said, pairs_left};
ghost use Rattle.desk.specs.JudgeCall.{judge_said, judge_left};
ghost use Rattle.lookup.specs.Look.{look_said};
ghost use Rattle.face.specs.Hands.{Hands};
ghost use Rattle.face.specs.Points.{Points};

use answers::carrying;

// An answer in 01's numbers: the number, how many values it carries, and these values; zeros follow them. Numbers and no enum, since C
// reads it.
#[repr(C)]
#[derive(Clone, Copy)]
pub struct Answer {
    pub number: u32,
    pub count: u32,
    pub values: [u64; 15],
}

// A part of the caller's table: where it starts and how many bytes it has, since C is handed no reference.
#[repr(C)]
#[derive(Clone, Copy)]
pub struct Part {
    pub start: usize,
    pub length: usize,
}

// Done carries the number of words that the index takes.
pub fn ruledesk_build(table: &[u8], area: &mut [u32]) -> Answer
    ensures hands { Hands (build_said table.now area.old) result }
    ensures lent { area.new ≡ area_left table.now area.old }
{
    desk::build(table, area).map_or_else(Answer::from, |words| carrying(0, [words as u64]))
}

// Done carries the number of false blocks; then 1, the place, the action's kind and its feed, or 0 where no rule matches.
pub fn ruledesk_lookup(table: &[u8], area: &[u32], header: &[u8]) -> Answer
    ensures { Hands (look_said table.now area.now header.now) result }
{
    desk::lookup(table, area, header).map_or_else(Answer::from, Answer::from)
}

// Done carries the number of pairs.
pub fn ruledesk_pairs(table: &[u8], list: &mut [u16]) -> Answer
    ensures hands { Hands (pairs_said table.now list.old) result }
    ensures lent { list.new ≡ pairs_left table.now list.old }
{
    desk::pairs(table, list).map_or_else(Answer::from, |count| carrying(0, [count as u64]))
}

// Done carries nothing.
pub fn ruledesk_judge(table: &[u8], order: &[u16], output: &mut [u8]) -> Answer
    ensures hands { Hands (judge_said table.now order.now output.old) result }
    ensures lent { output.new ≡ judge_left table.now order.now output.old }
{
    desk::judge(table, order, output).map_or_else(Answer::from, |()| carrying(0, []))
}

// What is exported hands back no reference, so the part is named by its start and its length.
pub fn ruledesk_show(table: &[u8], place: usize) -> Part
    ensures { Points table.now place result }
{
    let part = desk::show(table, place);
    let length = part.len();
    if length == 0 {
        return Part { start: 0, length };
    }
    Part {
        start: place * rules::RECORD_BYTES,
        length,
    }
}
