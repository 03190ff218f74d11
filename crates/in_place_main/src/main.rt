// Runs settling by value and in place on the same places, and prints both, a line each. Where a line cannot be written, the next is tried.
#![tactic(auto)]

use faceijk::Place;
use level::GridLevel;

fn print_by_value(rt: &impl Print, p: Place, level: u32, substrate: bool) {
    let _ = match p.settle(GridLevel(level), substrate) {
        Ok(rested) => println!(rt; "by value: {} steps {}", rested.place, rested.steps),
        Err(refusal) => println!(rt; "by value: refused {}", refusal.number()),
    };
}

fn print_in_place(rt: &impl Print, p: Place, level: u32, substrate: bool) {
    let lent = in_place::settle_at(p.face, p.i, p.j, p.k, level, substrate);
    let _ = match lent.answer {
        Ok(steps) => println!(rt; "in place: {} steps {steps}", lent.place),
        Err(refusal) => println!(rt; "in place: {} refused {}", lent.place, refusal.number()),
    };
}

fn both(rt: &impl Print, p: Place, level: u32, substrate: bool) {
    print_by_value(rt, p, level, substrate);
    print_in_place(rt, p, level, substrate);
}

fn main(rt: HostRuntime) {
    both(&rt, Place::new(0, 3, 0, 0), 0, false);
    both(&rt, Place::new(0, 1, 1, 0), 0, false);
    both(&rt, Place::new(0, 7, 2, 0), 0, true);
    both(&rt, Place::new(5, 4, 4, 0), 0, true);
    both(&rt, Place::new(19, 9999, 0, 9999), 0, false);
    both(&rt, Place::new(20, 3, 0, 0), 0, false);
    both(&rt, Place::new(0, 3, 0, 0), 1, false);
    both(&rt, Place::new(0, 1, 1, 1), 0, true);
}
