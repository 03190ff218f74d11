// A line of a question, lent as a slice of any length and any bytes: its words, read as fields, and what it asks.
#![tactic(auto)]

ghost use Rattle.std.specs.Prelude.{◌≡◌, ◌+◌, ◌*◌, ◌^◌, ◌≤◌, ◌<◌, Some, None, MatchOption, length, take};
ghost use Rattle.std.specs.Float.{binary64};
ghost use Rattle.std.specs.Float.Ieee.{of_bits};
ghost use Rattle.ask_read.specs.Scan.{slice, index_of, place};
ghost use Rattle.ask_read.specs.Words.{digit_of, with_digit, spelt, plain, number_field, decimal_from, unsigned_field, decimal_field, bits_of, double_field, same, flag_field};
ghost use Rattle.ask_read.specs.Questions.{rows, field_of, blank, unreadable, first_field, others, filled, filled_in, question_of, settle_of, words_from, bare};

use Kind::{Double, Grid, Number, Turn, YesNo};

// What a word says: a number or a flag (0 or 1), or a double.
#[derive(Clone, Copy, Debug, PartialEq)]
pub enum Field {
    Number(u32),
    Double(f64),
}

// Where a byte first stands in bytes, if it does.
#[tactic(auto, unfolding(crate::specs::Scan::place))]
fn place_of(s: &[u8], b: u8) -> Option<usize>
    ensures { result ≡ place b s.now }
{
    s.iter().position(|x| *x == b)
}

// The first index from `from` up to `end` at which a byte stands, or `end` where there is none.
pub fn find(s: &[u8], from: usize, end: usize, b: u8) -> usize
    requires { (from ≤ end) × (end ≤ length s.now) }
    ensures { (result ≡ from + index_of b (slice from end s.now)) × (result ≤ end) }
{
    match place_of(&s[from..end], b) {
        Some(i) => from + i,
        None => end,
    }
}

// What a byte counts for as a digit; 16, no digit of any base here, where it is none.
#[tactic(auto, unfolding(crate::specs::Words::digit_of))]
fn digit(b: u8) -> u64
    ensures { result ≡ digit_of b }
{
    match b {
        b'0'..=b'9' => u64::from(b - b'0'),
        b'a'..=b'f' => u64::from(b - b'a' + 10),
        b'A'..=b'F' => u64::from(b - b'A' + 10),
        _ => 16,
    }
}

#[tactic(auto, unfolding(crate::specs::Words::with_digit))]
fn with_digit(base: u64, value: u64, b: u8) -> Option<u64>
    requires { (value + 1) * base ≤ 2 ^ 64 }
    ensures { result ≡ with_digit base value b }
{
    let x = digit(b);
    if x < base {
        return Some(base * value + x);
    }
    None
}

// The number that all bytes spell, after the digits read before them.
fn spell(base: u64, before: u64, s: &[u8]) -> Option<u64>
    requires { (1 ≤ base) × ((before + 1) * base ^ length s.now ≤ 2 ^ 64) }
    ensures { result ≡ spelt base before s.now }
{
    let mut value = before;
    for &b in s {
        value = with_digit(base, value, b)?;
    }
    Some(value)
}

// Whether digits have no leading zero: a 0 that stands first is the only one.
#[tactic(auto, unfolding(crate::specs::Words::plain))]
fn is_plain(s: &[u8]) -> bool
    ensures { result ≡ plain s.now }
{
    if s.len() < 2 {
        return s.len() == 1;
    }
    s[0] != b'0'
}

// A decimal number that fits 32 bits.
fn number(s: &[u8]) -> Option<u32>
    ensures { result ≡ number_field s.now }
{
    let shaped = is_plain(s);
    if (s.len() < 11) & shaped {
        let value = spell(10, 0, s)?;
        return u32::try_from(value).ok();
    }
    None
}

// Digits with k of them after the point. A double holds both numbers exactly, so that their quotient is rounded once: it is the nearest double.
fn decimal_from(value: u64, k: u32) -> f64
    requires { (value < 10 ^ 15) × (k ≤ 15) }
    ensures { result ≡ decimal_from value k }
{
    let scale = 10u64.pow(k);
    (value as f64) / (scale as f64)
}

fn unsigned(s: &[u8]) -> Option<f64>
    ensures { result ≡ unsigned_field s.now }
{
    let len = s.len();
    let point = find(s, 0, len, b'.');
    // The digits after the point; at the end there is none.
    let from = len.min(point + 1);
    let shaped = is_plain(&s[..point]);
    if shaped & (point + 1 != len) & (point + (len - from) < 16) {
        let whole = spell(10, 0, &s[..point])?;
        let all = spell(10, whole, &s[from..])?;
        let x = decimal_from(all, (len - from) as u32);
        return Some(x);
    }
    None
}

#[tactic(auto, unfolding(crate::specs::Words::decimal_field))]
fn decimal(s: &[u8]) -> Option<f64>
    ensures { result ≡ decimal_field s.now }
{
    if s.starts_with(b"-") {
        let x = unsigned(&s[1..])?;
        return Some(-x);
    }
    unsigned(s)
}

#[tactic(auto, unfolding(crate::specs::Words::bits_of))]
fn bits(s: &[u8]) -> Option<u64>
    ensures { result ≡ bits_of s.now }
{
    if s.len() == 16 {
        return spell(16, 0, s);
    }
    None
}

// The double of a pattern. There is one NaN: every pattern of one gives it.
fn of_bits(n: u64) -> f64
    ensures { result ≡ of_bits binary64 n }
{
    if 0x7ff0_0000_0000_0000 < n % 0x8000_0000_0000_0000 {
        return 0.0 / 0.0;
    }
    f64::from_bits(n)
}

// A double: the 16 hex digits of its bits, or a decimal.
#[tactic(auto, unfolding(crate::specs::Words::double_field))]
fn double(s: &[u8]) -> Option<f64>
    ensures { result ≡ double_field s.now }
{
    if let Some(n) = bits(s) {
        let x = of_bits(n);
        return Some(x);
    }
    decimal(s)
}

// Whether two words have the same bytes.
fn is_same(s: &[u8], t: &[u8]) -> bool
    ensures { result ≡ same s.now t.now }
{
    s == t
}

// A flag: 0 for the one word, 1 for the other.
#[tactic(auto, unfolding(crate::specs::Words::flag_field))]
fn flag(s: &[u8], no: &[u8], yes: &[u8]) -> Option<u32>
    ensures { result ≡ flag_field no.now yes.now s.now }
{
    if is_same(s, no) {
        return Some(0);
    }
    if is_same(s, yes) {
        return Some(1);
    }
    None
}

// Which question a line asks.
#[derive(Clone, Copy, Debug, PartialEq, Eq)]
pub enum Asked {
    Round,
    Centre,
    Meet,
    Turn,
    Step,
    Cross,
    Settle,
    Direction,
    Same,
    Nearest,
    Place,
    Corners,
    Hexagon,
    Pentagon,
    Root,
    Sphere,
    Globe6,
    Globe5,
    First,
    Help,
    Unreadable,
}

// A question: what is asked, and its fields by their places in the line: a number or a flag (0 or 1) in `numbers`, a double in `doubles`; zeros elsewhere.
#[derive(Clone, Copy, Debug, PartialEq)]
pub struct Question {
    pub asked: Asked,
    pub numbers: [u32; 9],
    pub doubles: [f64; 9],
}

// What a word has to be: a number, a double, or one of two words: p or s for the grid, ccw or cw for the turn, no or yes.
#[derive(Clone, Copy, Debug, PartialEq, Eq)]
pub enum Kind {
    Number,
    Double,
    Grid,
    Turn,
    YesNo,
}

// A word read as a field, and the index where the next word begins.
#[derive(Clone, Copy)]
struct Taken {
    pub field: Field,
    pub next: usize,
}

#[tactic(auto, using(crate::proofs::Filling::mapped), unfolding(crate::specs::Questions::field_of))]
fn field_of(kind: Kind, word: &[u8]) -> Option<Field>
    ensures { result ≡ field_of kind word.now }
{
    match kind {
        Kind::Number => number(word).map(Field::Number),
        Kind::Double => double(word).map(Field::Double),
        Kind::Grid => flag(word, b"p", b"s").map(Field::Number),
        Kind::Turn => flag(word, b"ccw", b"cw").map(Field::Number),
        Kind::YesNo => flag(word, b"no", b"yes").map(Field::Number),
    }
}

fn unread() -> Question
    ensures { result ≡ unreadable }
{
    Question {
        asked: Asked::Unreadable,
        numbers: [0; 9],
        doubles: [0.0; 9],
    }
}

// The word at an index, read as a field; past the end there is none.
fn take_field(kind: Kind, line: &[u8], at: usize) -> Option<Taken>
    requires { at ≤ length line.now + 1 }
    ensures { MatchOption result (first_field kind (words_from line.now at) ≡ None) (λ t. (first_field kind (words_from line.now at) ≡ Some t.field) × (words_from line.now t.next ≡ others (words_from line.now at)) × (t.next ≤ length line.now + 1)) }
{
    let len = line.len();
    if len < at {
        return None;
    }
    let end = find(line, at, len, b' ');
    let field = field_of(kind, &line[at..end])?;
    Some(Taken {
        field,
        next: end + 1,
    })
}

// The fields, each of its kind, from an index on.
fn fill(asked: Asked, kinds: &[Kind], line: &[u8], from: usize) -> Question
    requires { (length kinds.now ≤ 9) × (from ≤ length line.now + 1) }
    ensures { result ≡ filled 0 kinds.now (words_from line.now from) (blank asked) }
{
    let mut numbers = [0u32; 9];
    let mut doubles = [0.0; 9];
    let mut at = from;
    for (k, &kind) in kinds.iter().enumerate() {
        let Some(taken) = take_field(kind, line, at) else {
            return unread();
        };
        match taken.field {
            Field::Number(n) => numbers[k] = n,
            Field::Double(x) => doubles[k] = x,
        }
        at = taken.next;
    }
    if at <= line.len() {
        return unread();
    }
    Question {
        asked,
        numbers,
        doubles,
    }
}

// The kinds of the fields of the questions whose fields are not all of one kind.
const TURN: [Kind; 5] = [Number, Number, Number, Number, Turn];

const STEP: [Kind; 7] = [Number, Number, Grid, Number, Number, Number, Number];

const CROSS: [Kind; 7] = [Number, Number, Grid, Number, Number, Number, YesNo];

const SETTLE: [Kind; 6] = [Number, Number, Grid, Number, Number, Number];

const PLACE: [Kind; 4] = [Number, Double, Double, Double];

const SPHERE: [Kind; 4] = [Number, Number, Double, Double];

// The question that a word names, with the fields from an index on: a row for each, with the kinds of its fields.
fn fill_named(word: &[u8], line: &[u8], from: usize) -> Question
    requires { from ≤ length line.now + 1 }
    ensures { result ≡ filled_in word.now rows (words_from line.now from) }
{
    match word {
        w if is_same(w, b"round") => fill(Asked::Round, &[Double; 2], line, from),
        w if is_same(w, b"centre") => fill(Asked::Centre, &[Number; 3], line, from),
        w if is_same(w, b"meet") => fill(Asked::Meet, &[Double; 8], line, from),
        w if is_same(w, b"turn") => fill(Asked::Turn, &TURN, line, from),
        w if is_same(w, b"step") => fill(Asked::Step, &STEP, line, from),
        w if is_same(w, b"cross") => fill(Asked::Cross, &CROSS, line, from),
        w if is_same(w, b"settle") => fill(Asked::Settle, &SETTLE, line, from),
        w if is_same(w, b"direction") => fill(Asked::Direction, &[Number; 2], line, from),
        w if is_same(w, b"same") => fill(Asked::Same, &[Number; 9], line, from),
        w if is_same(w, b"nearest") => fill(Asked::Nearest, &[Double; 3], line, from),
        w if is_same(w, b"place") => fill(Asked::Place, &PLACE, line, from),
        w if is_same(w, b"corners") => fill(Asked::Corners, &[Number; 5], line, from),
        w if is_same(w, b"hexagon") => fill(Asked::Hexagon, &[Number; 7], line, from),
        w if is_same(w, b"pentagon") => fill(Asked::Pentagon, &[Number; 7], line, from),
        w if is_same(w, b"root") => fill(Asked::Root, &[Double], line, from),
        w if is_same(w, b"sphere") => fill(Asked::Sphere, &SPHERE, line, from),
        w if is_same(w, b"globe6") => fill(Asked::Globe6, &[Number; 7], line, from),
        w if is_same(w, b"globe5") => fill(Asked::Globe5, &[Number; 7], line, from),
        w if is_same(w, b"first") => fill(Asked::First, &[Number; 5], line, from),
        w if is_same(w, b"help") => fill(Asked::Help, &[], line, from),
        _ => unread(),
    }
}

// The question of a line, or that it is unreadable.
pub fn read_question(line: &[u8]) -> Question
    ensures { result ≡ question_of line.now }
{
    let end = find(line, 0, line.len(), b' ');
    fill_named(&line[..end], line, end + 1)
}

// A line of the fields of `settle` alone, without its name.
pub fn read_settle(line: &[u8]) -> Question
    ensures { result ≡ settle_of line.now }
{
    fill(Asked::Settle, &SETTLE, line, 0)
}

// How many bytes a line has without a byte that ends it: a newline, or the carriage return that belongs to one.
#[tactic(auto, unfolding(crate::specs::Questions::bare))]
pub fn without_end(line: &[u8], end: u8) -> usize
    ensures { (result ≤ length line.now) × (take result line.now ≡ bare end line.now) }
{
    match line {
        [rest @ .., last] if *last == end => rest.len(),
        _ => line.len(),
    }
}
