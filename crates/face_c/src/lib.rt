// What C and Rust link: the exported functions, one for each call of `face`, which it calls under the same clauses.
// A library of Rattle's exports nothing, and what exports is no library that a program of Rattle's may call; so the
// answers are made there, and here they go out.
#![tactic(auto)]

ghost use Rattle.std.specs.Prelude.{◌≡◌};
ghost use Rattle.desk.specs.BuildCall.{build_said, area_left};
ghost use Rattle.desk.specs.PairsCall.{pairs_said, pairs_left};
ghost use Rattle.desk.specs.JudgeCall.{judge_said, judge_left};
ghost use Rattle.lookup.specs.Look.{look_said};
ghost use Rattle.face.specs.Hands.{Hands};
ghost use Rattle.face.specs.Points.{Points};

use face::{Answer, Part};

#[unsafe(no_mangle)]
pub extern "C" fn ruledesk_build(table: &[u8], area: &mut [u32]) -> Answer
    ensures hands { Hands (build_said table.now area.old) result }
    ensures lent { area.new ≡ area_left table.now area.old }
{
    face::ruledesk_build(table, area)
}

#[unsafe(no_mangle)]
pub extern "C" fn ruledesk_lookup(table: &[u8], area: &[u32], header: &[u8]) -> Answer
    ensures { Hands (look_said table.now area.now header.now) result }
{
    face::ruledesk_lookup(table, area, header)
}

#[unsafe(no_mangle)]
pub extern "C" fn ruledesk_pairs(table: &[u8], list: &mut [u16]) -> Answer
    ensures hands { Hands (pairs_said table.now list.old) result }
    ensures lent { list.new ≡ pairs_left table.now list.old }
{
    face::ruledesk_pairs(table, list)
}

#[unsafe(no_mangle)]
pub extern "C" fn ruledesk_judge(table: &[u8], order: &[u16], output: &mut [u8]) -> Answer
    ensures hands { Hands (judge_said table.now order.now output.old) result }
    ensures lent { output.new ≡ judge_left table.now order.now output.old }
{
    face::ruledesk_judge(table, order, output)
}

#[unsafe(no_mangle)]
pub extern "C" fn ruledesk_show(table: &[u8], place: usize) -> Part
    ensures { Points table.now place result }
{
    face::ruledesk_show(table, place)
}
