// Answers in 01's numbers, each built whole: the number, the values that it carries, and zeros.
ghost use Rattle.std.specs.Prelude.{◌≡◌, [], ◌∷◌, ◌≤◌};
ghost use Rattle.bits.specs.Number.{bytes_of};
ghost use Rattle.rules.specs.Refusal.{said};
ghost use Rattle.rules.specs.declared.Refusal.TheVariants.{NotAllowed};
ghost use Rattle.lookup.specs.InCode.{answer_values};
ghost use Rattle.lookup.specs.Said.{action_values};
ghost use Rattle.face.specs.Hands.{Hands};

use crate::Answer;
use lookup::Outcome;
use rules::{Action, Crossing, Refusal};

// A number and what it carries.
pub fn carrying<const N: usize>(number: u32, carried: [u64; N]) -> Answer
    requires { N ≤ 15 }
    ensures { Hands (number ∷ carried.entry) result }
{
    let mut values = [0; 15];
    values[..N].copy_from_slice(&carried);
    Answer {
        number,
        count: N as u32,
        values,
    }
}

// The bytes of a number, the highest first, in the definitions' word. One function for each width: no trait says the bytes of both, and a
// proof knows the range of a number that is a parameter, and not of one that is a field.
fn four_bytes(number: u32) -> [u8; 4]
    ensures { result ≡ bytes_of 4 number }
{
    number.to_be_bytes()
}

fn two_bytes(number: u16) -> [u8; 2]
    ensures { result ≡ bytes_of 2 number }
{
    number.to_be_bytes()
}

// 13: "pair, header".
fn not_allowed(crossing: Crossing) -> Answer
    ensures { Hands (said (NotAllowed crossing)) result }
{
    let header = crossing.header;
    let source = four_bytes(header.source);
    let destination = four_bytes(header.destination);
    let sport = two_bytes(header.sport);
    let dport = two_bytes(header.dport);
    let carried = [
        crossing.lower as u64,
        crossing.higher as u64,
        u64::from(source[0]),
        u64::from(source[1]),
        u64::from(source[2]),
        u64::from(source[3]),
        u64::from(destination[0]),
        u64::from(destination[1]),
        u64::from(destination[2]),
        u64::from(destination[3]),
        u64::from(sport[0]),
        u64::from(sport[1]),
        u64::from(dport[0]),
        u64::from(dport[1]),
        u64::from(header.protocol),
    ];
    carrying(13, carried)
}

impl From<Refusal> for Answer {
    ghost from_gives = { λ refusal answer. Hands (said refusal) answer };

    #[tactic(auto, using(rules::proofs::PlacedLaws::placed_said, rules::proofs::PlacedLaws::plain_said, rules::proofs::PlacedLaws::few_numbers))]
    fn from(refusal: Refusal) -> Answer
        ensures { Hands (said refusal) result }
    {
        if let Refusal::NotAllowed(crossing) = refusal {
            return not_allowed(crossing);
        }
        let number = refusal.number() as u32;
        match refusal.place() {
            Some(place) => carrying(number, [place as u64]),
            None => carrying(number, []),
        }
    }
}

// 01: "A match carries its place and, inside it, the action": after the number of false blocks 1, the place, the action's kind and its feed.
fn matched(falses: usize, place: usize, action: Action) -> Answer
    ensures { Hands (0 ∷ falses ∷ 1 ∷ place ∷ action_values action) result }
{
    match action {
        Action::Hold => carrying(0, [falses as u64, 1, place as u64, 0, 0]),
        Action::Deliver(feed) => carrying(0, [falses as u64, 1, place as u64, 1, u64::from(feed)]),
    }
}

// A lookup that is done, with a match or without: of no match the number of false blocks, and 0.
impl From<lookup::Answer> for Answer {
    ghost from_gives = { λ found answer. Hands (0 ∷ answer_values found) answer };

    fn from(answer: lookup::Answer) -> Answer
        ensures { Hands (0 ∷ answer_values answer) result }
    {
        match answer.outcome {
            Outcome::NoMatch => carrying(0, [answer.falses as u64, 0]),
            Outcome::Match(place, action) => matched(answer.falses, place, action),
        }
    }
}
