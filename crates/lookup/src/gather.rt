// Gathering: the vectors of the five records reached, and what stands over them, by value. Both arrays are written out: by `map` the
// program is the same to the byte, each closure has to repeat its function's clauses, and four lines less of code are 74 more of proof.
ghost use Rattle.std.specs.Prelude.{◌≡◌, map, ◌/◌, ◌<◌, length};
ghost use Rattle.area.specs.Shape.{desk_shape, record_words};
ghost use Rattle.lookup.specs.Walk.{vector_at};
ghost use Rattle.lookup.specs.InCode.{aggregate_at, AllInside};

use area::{AGGREGATE_START, BLOCKS, RECORD_WORDS};

// The vector of one record.
fn vector_at(area: &[u32], row: usize) -> [u32; BLOCKS]
    requires { row < length area.now / record_words }
    ensures { result ≡ vector_at desk_shape area.now row }
{
    *area::vector(area, row)
}

// The five vectors, indexed by field and then by block.
pub fn vectors_at(area: &[u32], records: [usize; 5]) -> [[u32; BLOCKS]; 5]
    requires { AllInside area.now records }
    ensures { result ≡ map (vector_at desk_shape area.now) records }
{
    let [source, destination, sport, dport, protocol] = records;
    [
        vector_at(area, source),
        vector_at(area, destination),
        vector_at(area, sport),
        vector_at(area, dport),
        vector_at(area, protocol),
    ]
}

// The aggregate of one record.
fn aggregate_at(area: &[u32], row: usize) -> u32
    requires { row < length area.now / record_words }
    ensures { result ≡ aggregate_at area.now row }
{
    area[RECORD_WORDS * row + AGGREGATE_START]
}

// The five aggregates, by field.
pub fn aggregates_at(area: &[u32], records: [usize; 5]) -> [u32; 5]
    requires { AllInside area.now records }
    ensures { result ≡ map (aggregate_at area.now) records }
{
    let [source, destination, sport, dport, protocol] = records;
    [
        aggregate_at(area, source),
        aggregate_at(area, destination),
        aggregate_at(area, sport),
        aggregate_at(area, dport),
        aggregate_at(area, protocol),
    ]
}
