// Going down the area by a header's bits: one field's walk, and the walks of all five.
ghost use Rattle.std.specs.Prelude.{◌≡◌, ◌/◌, ◌≤◌, ◌<◌, IfSome, length};
ghost use Rattle.bits.specs.Path.{bits};
ghost use Rattle.rules.specs.Header.{header_values};
ghost use Rattle.area.specs.Shape.{desk_shape, record_words};
ghost use Rattle.lookup.specs.Walk.{walk_from, walk, ends};
ghost use Rattle.lookup.specs.Look.{header_keys, widths, least_words};
ghost use Rattle.lookup.specs.InCode.{AllInside, key_at};

use rules::{FIELDS, HEADER_BYTES};

// Down by the bits of a value, from the top, until a child is missing or the value is used up; None where one is damaged.
#[tactic(auto, using(bits::proofs::DigitLaws::bit_small))]
fn go_down(area: &[u32], root: usize, value: u32, width: usize) -> Option<usize>
    requires { (root < length area.now / record_words) × (width ≤ 32) }
    ensures { result ≡ walk_from desk_shape area.now root (bits width value) }
{
    let records = area.len() / area::RECORD_WORDS;
    let mut row = root;
    // By number: an iterator over a value's bits would be a type with laws of its own, for two loops.
    for j in 0..width {
        let child = area[area::RECORD_WORDS * row + bits::bit_of(value, width, j)] as usize;
        if child == 0 {
            return Some(row);
        }
        if child < FIELDS || records <= child {
            return None;
        }
        row = child;
    }
    Some(row)
}

// The walk of a header's field f, from its root.
fn walk(area: &[u32], header: &[u8; HEADER_BYTES], f: usize) -> Option<usize>
    requires { (f < 5) × (least_words ≤ length area.now) }
    ensures end { result ≡ walk desk_shape area.now (key_at header.now f) }
    ensures inside { IfSome result (λ n. n < length area.now / record_words) }
{
    go_down(area, f, rules::value_of(header, f), rules::width_of(f))
}

// Where the five walks of a header end, in the order of the fields; None where one met damage. By name: the library makes no array of
// Options an Option.
pub fn go_down_all(area: &[u32], header: &[u8; HEADER_BYTES]) -> Option<[usize; FIELDS]>
    requires { least_words ≤ length area.now }
    ensures ends { result ≡ ends desk_shape area.now (header_keys widths (header_values header.now)) }
    ensures inside { IfSome result (λ records. AllInside area.now records) }
{
    let source = walk(area, header, 0)?;
    let destination = walk(area, header, 1)?;
    let sport = walk(area, header, 2)?;
    let dport = walk(area, header, 3)?;
    let protocol = walk(area, header, 4)?;
    Some([source, destination, sport, dport, protocol])
}
