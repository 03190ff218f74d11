// The answer to a question of the desk tool: what the C face gives, in slices that were clear.
#![tactic(auto)]

ghost use Rattle.std.specs.Prelude.{◌≡◌};
ghost use Rattle.faceijk.specs.Entries.{settle_reply};
ghost use Rattle.ask_read.specs.declared.Asked.TheVariants.{Settle};
ghost use Rattle.ask_call.specs.Replies.{reply_to, number_at, flag_at, place_at};
ghost use Rattle.ask_answer.specs.Answers.{Says};

use ask_read::{Asked, Question};

// What is to be printed: the refusal's number, 0 for none, and the numbers and the doubles in their order; zeros past them.
#[derive(Clone, Copy)]
pub struct Answer {
    pub number: u32,
    pub numbers: [u64; 25],
    pub doubles: [f64; 36],
}

// Numbers of 32 bits as numbers of 64. One by one: by the array's `map` each line of `ask` took 600 instructions more.
fn widened(words: [u32; 25]) -> [u64; 25]
    ensures { result ≡ words }
{
    let mut wide = [0u64; 25];
    for v in 0..25 {
        wide[v] = u64::from(words[v]);
    }
    wide
}

fn settled(n: [u32; 9]) -> Answer
    ensures { Says Settle (settle_reply (place_at n 0 3) (number_at n 1) (flag_at n 2)) result }
{
    let mut numbers = [0u64; 25];
    let outcome = lent_grid::settle(n[0], n[3], n[4], n[5], n[1], n[2] == 1, &mut numbers);
    Answer {
        number: lent::status(outcome),
        numbers,
        doubles: [0.0; 36],
    }
}

// Any question is taken.
pub fn answer_to(frame: &[f64], q: Question) -> Answer
    ensures { Says q.asked (reply_to frame.now q) result }
{
    let asked = q.asked;
    let n = q.numbers;
    match asked {
        Asked::Settle => settled(n),
        _ => {
            let mut words = [0u32; 25];
            let mut doubles = [0.0; 36];
            let outcome = ask_call::call(frame, q, &mut words, &mut doubles);
            Answer {
                number: lent::status(outcome),
                numbers: widened(words),
                doubles,
            }
        }
    }
}
