// An answer as a line of text, which has at most 64 bytes. `Display` would not do: a `fmt` may fail, no clause says when it does not,
// and `report` promises the text of every input.
ghost use Rattle.std.specs.Prelude.{◌≡◌, ◌+◌, ◌≤◌, length};
ghost use Rattle.rules.specs.Refusal.{said};
ghost use Rattle.lookup.specs.InCode.{outcome_said, looked_said};
ghost use Rattle.ruledesk.specs.Text.{decimal};
ghost use Rattle.ruledesk.specs.InCode.{Gains, place_told, action_told};
ghost use Rattle.ruledesk.specs.Lines.{refused_text, outcome_text, answer_text, line};

use arrayvec::ArrayString;
use lookup::{Answer, Outcome};
use rules::{Action, Refusal};

pub const MOST_LINE: usize = 64;

pub type Line = ArrayString<MOST_LINE>;

fn put_decimal(line: &mut Line, number: u64)
    requires { length line.old.bytes + 20 ≤ 64 }
    ensures { Gains 20 line.old.bytes (decimal number) line.new.bytes }
{
    let mut digits = itoa::Buffer::new();
    line.push_str(digits.format(number));
}

// " at P" where there is a place.
fn put_place(line: &mut Line, place: Option<usize>)
    requires { length line.old.bytes + 24 ≤ 64 }
    ensures { Gains 24 line.old.bytes (place_told place) line.new.bytes }
{
    if let Some(place) = place {
        line.push_str(" at ");
        put_decimal(line, place as u64);
    }
}

// "`refused N`, or `refused N at P` where a place is carried"
fn put_refusal(line: &mut Line, refusal: Refusal)
    requires { length line.old.bytes + 52 ≤ 64 }
    ensures { Gains 52 line.old.bytes (refused_text (said refusal)) line.new.bytes }
{
    line.push_str("refused ");
    put_decimal(line, refusal.number());
    put_place(line, refusal.place());
}

// " hold" or " deliver F"
fn put_action(line: &mut Line, action: Action)
    requires { length line.old.bytes + 29 ≤ 64 }
    ensures { Gains 29 line.old.bytes (action_told action) line.new.bytes }
{
    match action {
        Action::Hold => line.push_str(" hold"),
        Action::Deliver(feed) => {
            line.push_str(" deliver ");
            put_decimal(line, u64::from(feed));
        }
    }
}

// "`match P hold`, `match P deliver F` or `none`"
fn put_outcome(line: &mut Line, outcome: Outcome)
    requires { length line.old.bytes + 55 ≤ 64 }
    ensures { Gains 55 line.old.bytes (outcome_text (outcome_said outcome)) line.new.bytes }
{
    match outcome {
        Outcome::NoMatch => line.push_str("none"),
        Outcome::Match(place, action) => {
            line.push_str("match ");
            put_decimal(line, place as u64);
            put_action(line, action);
        }
    }
}

// The line of what lookup answered: the outcome, or the refusal.
pub fn answer_line(looked: Result<Answer, Refusal>) -> Line
    ensures { result.bytes ≡ line (answer_text (looked_said looked)) }
{
    let mut line = Line::new();
    match looked {
        Ok(answer) => put_outcome(&mut line, answer.outcome),
        Err(refusal) => put_refusal(&mut line, refusal),
    }
    line.push_str("\n");
    line
}

// The line of a refusal, whichever call gave it.
pub fn refusal_line(refusal: Refusal) -> Line
    ensures { result.bytes ≡ line (refused_text (said refusal)) }
{
    answer_line(Err(refusal))
}
