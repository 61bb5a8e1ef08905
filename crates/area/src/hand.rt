// Handing on: each record's vector goes into its children's, in one sweep. Children have higher
// numbers than their parents, so that what is handed on is whole.
ghost use Rattle.std.specs.Prelude.{◌≡◌, ◌+◌, ◌*◌, ◌≤◌, ◌<◌, length, get_or};
ghost use Rattle.area.specs.Shape.{record_words};
ghost use Rattle.area.specs.Grow.{Kids};
ghost use Rattle.area.specs.Hand.{joined, to_child, handed};

use crate::{RECORD_WORDS, VECTOR_START, vector};

// Record k's vector goes into record c's. By place: of words that an iterator lends to be written nothing is said afterwards.
fn or_into(area: &mut [u32], k: usize, c: usize)
    requires { (record_words * k + record_words ≤ length area.old) × (record_words * c + record_words ≤ length area.old) }
    ensures { area.new ≡ joined k c area.old }
{
    let words = *vector(area, k);
    let child = RECORD_WORDS * c + VECTOR_START;
    for (w, word) in words.iter().enumerate() {
        area[child + w] |= *word;
    }
}

// Record k's vector goes into its child's for a bit, where it has one.
fn to_child(area: &mut [u32], k: usize, bit: usize)
    requires { (bit < 2) × (record_words * k + record_words ≤ length area.old) × (record_words * get_or area.old (record_words * k + bit) 0 + record_words ≤ length area.old) }
    ensures { area.new ≡ to_child k bit area.old }
{
    let c = area[RECORD_WORDS * k + bit] as usize;
    if c != 0 {
        or_into(area, k, c);
    }
}

// Every record's vector goes into its children's, in ascending order of the records.
pub fn hand_on(area: &mut [u32], count: usize)
    requires { (record_words * count ≤ length area.old) × Kids area.old count }
    ensures { area.new ≡ handed count area.old }
{
    // By number: a record's children stand elsewhere in the same words.
    for k in 0..count {
        to_child(area, k, 0);
        to_child(area, k, 1);
    }
}
