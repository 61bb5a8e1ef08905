// A refusal in the paper's numbers, for whoever prints it or hands it to another language.
ghost use Rattle.std.specs.Prelude.{◌≡◌};
ghost use Rattle.rules.specs.Refusal.{number_of, place_of};

use crate::Refusal;

impl Refusal {
    // Its number, from 1.
    #[tactic(auto, unfolding(crate::specs::Refusal::said, crate::specs::Refusal::number_of))]
    pub fn number(self) -> u64
        ensures { result ≡ number_of self }
    {
        match self {
            Refusal::RaggedTable => 1,
            Refusal::TooManyRules => 2,
            Refusal::LongPrefix(_) => 3,
            Refusal::StrayBit(_) => 4,
            Refusal::UnknownAction(_) => 5,
            Refusal::SpareBytes(_) => 6,
            Refusal::ShortArea => 7,
            Refusal::NotAHeader => 8,
            Refusal::DamagedArea => 9,
            Refusal::ShortList => 10,
            Refusal::NotAnOrder => 11,
            Refusal::ShortOutput => 12,
            Refusal::NotAllowed(_) => 13,
            Refusal::StrayPort(_) => 14,
        }
    }

    // The place that it carries: those of one rule do.
    #[tactic(auto, unfolding(crate::specs::Refusal::said, crate::specs::Refusal::place_of))]
    pub fn place(self) -> Option<usize>
        ensures { result ≡ place_of self }
    {
        match self {
            Refusal::LongPrefix(place)
            | Refusal::StrayBit(place)
            | Refusal::UnknownAction(place)
            | Refusal::SpareBytes(place)
            | Refusal::StrayPort(place) => Some(place),
            Refusal::RaggedTable
            | Refusal::TooManyRules
            | Refusal::ShortArea
            | Refusal::NotAHeader
            | Refusal::DamagedArea
            | Refusal::ShortList
            | Refusal::NotAnOrder
            | Refusal::ShortOutput
            | Refusal::NotAllowed(_) => None,
        }
    }
}
