// Trying the blocks in order, on five vectors and their aggregates by value.
ghost use Rattle.std.specs.Prelude.{◌≡◌, ◌≤◌, ◌<◌};
ghost use Rattle.std.specs.Int.Count.{count_trailing_zeros};
ghost use Rattle.bits.specs.Word.{bit, and_all};
ghost use Rattle.area.specs.Shape.{desk_shape, blocks};
ghost use Rattle.lookup.specs.Scan.{meet, scan};
ghost use Rattle.lookup.specs.InCode.{scanned};

// 01: "A block is 32 places."
const BLOCK_PLACES: usize = 32;

// What the blocks gave: the lowest place that all five vectors have, and the number of false blocks.
#[derive(Clone, Copy)]
pub struct Scanned {
    pub place: Option<usize>,
    pub falses: usize,
}

// The bits that all five words have.
fn common_bits(words: [u32; 5]) -> u32
    ensures { result ≡ and_all 32 words }
{
    words[0] & (words[1] & (words[2] & (words[3] & words[4])))
}

// The intersection of the five vectors in block b.
fn intersect(vectors: [[u32; area::BLOCKS]; 5], b: usize) -> u32
    requires { b < blocks }
    ensures { result ≡ meet desk_shape vectors b }
{
    common_bits([
        vectors[0][b],
        vectors[1][b],
        vectors[2][b],
        vectors[3][b],
        vectors[4][b],
    ])
}

fn is_set(word: u32, b: usize) -> bool
    requires { b < 32 }
    ensures { result ≡ bit word b }
{
    (word >> b) & 1 == 1
}

// The lowest bit that is set in a word that is not zero.
fn lowest(word: u32) -> usize
    ensures { (result ≡ count_trailing_zeros 32 word) × (result ≤ 32) }
{
    word.trailing_zeros() as usize
}

// A block whose five aggregate bits are all set may still be a false one: it is counted, and the next
// is tried.
pub fn try_blocks(vectors: [[u32; area::BLOCKS]; 5], aggregates: [u32; 5]) -> Scanned
    ensures { scanned result ≡ scan 32 (bit (and_all 32 aggregates)) (meet desk_shape vectors) blocks 0 }
{
    let tried = common_bits(aggregates);
    let mut falses = 0;
    // By number: a block's number is its bit in an aggregate, and gives the place.
    for b in 0..area::BLOCKS {
        if is_set(tried, b) {
            let word = intersect(vectors, b);
            let hit = word != 0;
            if hit {
                let place = Some(b * BLOCK_PLACES + lowest(word));
                return Scanned { place, falses };
            }
            falses += 1;
        }
    }
    let place = None;
    Scanned { place, falses }
}
