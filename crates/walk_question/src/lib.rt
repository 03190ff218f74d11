// The line that `walk` reads, taken from a lent slice of any length and any bytes.
#![tactic(auto)]

ghost use Rattle.std.specs.Prelude.{◌≡◌};
ghost use Rattle.walk_question.specs.Reading.{Read};
ghost use Rattle.walk_question.specs.Fields.{of_numbers};

use ask_read::Asked;
use faceijk::Place;
use level::GridLevel;

// What a line asks: to settle a place at a grid level, plain or substrate.
#[derive(Clone, Copy, Debug, PartialEq, Eq)]
pub struct Question {
    pub place: Place,
    pub level: GridLevel,
    pub substrate: bool,
}

// The question of the fields: face, level, p or s, i, j, k.
fn of_numbers(n: [u32; 9]) -> Option<Question>
    ensures { result ≡ of_numbers n }
{
    if (n[0] < 100) & (n[1] < 100) & (n[3] < 10000) & (n[4] < 10000) & (n[5] < 10000) {
        let place = Place::new(n[0], n[3], n[4], n[5]);
        return Some(Question {
            place,
            level: GridLevel(n[1]),
            substrate: n[2] == 1,
        });
    }
    None
}

// The question of a line, or that it is malformed.
pub fn read_line(s: &[u8]) -> Option<Question>
    ensures { Read s.now result }
{
    let len = ask_read::without_end(s, b'\n');
    let q = ask_read::read_settle(&s[..len]);
    let asked = q.asked;
    let numbers = q.numbers;
    match asked {
        Asked::Settle => of_numbers(numbers),
        _ => None,
    }
}
