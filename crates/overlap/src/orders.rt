// A proposed order, "trusted in nothing": checked in one pass, which leaves the new place of each old one.
ghost use Rattle.std.specs.Prelude.{◌≡◌, false, ◌≤◌, MatchOption};
ghost use Rattle.rules.specs.Table.{most_rules};
ghost use Rattle.overlap.specs.Order.{is_order};
ghost use Rattle.overlap.specs.Steps.{Inverts};

use rules::MOST_RULES;

// Stands for an old place that no entry has named: every new place is below it. A None in each cell would have to be taken
// off again from a whole table.
const UNSEEN: u16 = MOST_RULES as u16;

// The new place of each old one. None, which 11 is for, of any other list: one of another length, or with an entry that is
// too large or repeated.
pub fn check_order(order: &[u16], rules: usize) -> Option<[u16; MOST_RULES]>
    requires { rules ≤ most_rules }
    ensures { MatchOption result (is_order rules order.now ≡ false) (λ places. Inverts rules order.now places) }
{
    if order.len() != rules {
        return None;
    }
    let mut places = [UNSEEN; MOST_RULES];
    for (place, old) in order.iter().enumerate() {
        let old = usize::from(*old);
        if rules <= old || places[old] != UNSEEN {
            return None;
        }
        places[old] = place as u16;
    }
    Some(places)
}
