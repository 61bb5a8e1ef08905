// The six rules of 001's Fig. 1.
ghost use Rattle.samples.specs.Sample.{StartsWithSix};

use crate::records::{delivering_rule, write_record};
use rules::RECORD_BYTES;

// The bytes of a table of the six rules alone.
pub const SIX_BYTES: usize = 6 * RECORD_BYTES;

pub fn six_rules(table: &mut [u8])
    ensures { StartsWithSix table.old table.new }
{
    let rules = [
        delivering_rule(0, 1, 128, 2, 10),
        delivering_rule(0, 2, 128, 1, 100),
        delivering_rule(192, 2, 192, 2, 10),
        delivering_rule(224, 3, 224, 3, 100),
        delivering_rule(160, 3, 128, 2, 100),
        delivering_rule(0, 0, 64, 2, 10),
    ];
    for (place, rule) in rules.iter().enumerate() {
        write_record(table, place, *rule);
    }
}
