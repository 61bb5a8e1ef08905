// Aggregates: which words of a record's vector are not zero.
ghost use Rattle.std.specs.Prelude.{◌≡◌, ◌+◌, ◌*◌, ◌≤◌, ◌<◌, length};
ghost use Rattle.area.specs.Shape.{record_words};
ghost use Rattle.area.specs.Sums.{marked, sum_at, summed};

use crate::{AGGREGATE_START, RECORD_WORDS, vector};

// `sum` with bit w set where the word is not zero.
fn mark(sum: u32, word: u32, w: usize) -> u32
    requires { w < 32 }
    ensures { result ≡ marked word w sum }
{
    if word == 0 {
        return sum;
    }
    sum | (1u32 << w)
}

// The aggregate of a vector's words.
fn aggregate(words: &[u32]) -> u32
    requires { length words.now ≤ 32 }
    ensures { result ≡ sum_at words.now 0 (length words.now) }
{
    let mut sum: u32 = 0;
    for (w, word) in words.iter().enumerate() {
        sum = mark(sum, *word, w);
    }
    sum
}

// Each of the first `count` records gets its aggregate.
pub fn aggregate_all(area: &mut [u32], count: usize)
    requires { record_words * count ≤ length area.old }
    ensures { area.new ≡ summed count area.old }
{
    // By number: what `chunks_exact_mut` lends is unknown to a proof once it is written.
    for k in 0..count {
        let sum = aggregate(vector(area, k));
        area[RECORD_WORDS * k + AGGREGATE_START] = sum;
    }
}
