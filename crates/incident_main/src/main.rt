// The incident by name: vectors that are no unit vectors, each alone and in the middle of a batch whose other rows are right. Where
// something cannot be written, the next is tried.
#![tactic(auto)]

ghost use Rattle.std.specs.Prelude.{◌<◌};

use level::CellLevel;
use locate::Spot;
use reply::Refusal;
use vec3d::Vec3d;

const LEVEL: u32 = 9;

// Four unit vectors, and the first one shortened to a length of 0.999.
const CUPERTINO: [f64; 3] = [-0.4218421095676722, -0.6736402240539421, 0.6068427169638363];

const PARIS: [f64; 3] = [0.6573914875834973, 0.02700348223283558, 0.7530652322342716];

const SYDNEY: [f64; 3] = [
    -0.7276762684093141,
    0.39988961696487235,
    -0.5572930491559926,
];

const ISABELA: [f64; 3] = [
    -0.004363143143298824,
    -0.9999524041473707,
    0.008726535498373935,
];

const SHORT: [f64; 3] = [-0.4214202674581045, -0.6729665838298882, 0.6062358742468724];

fn show_located(rt: &impl Print, located: Result<Spot, Refusal>) {
    let _ = match located {
        Ok(found) => println!(rt; "place {}", found.place),
        Err(refusal) => println!(rt; "refused {}", refusal.number()),
    };
}

// The vectors of the incident stand between the right ones.
fn vectors() -> [f64; 27] {
    let zero = 0.0;
    let nan = zero / zero;
    let infinity = 1.0 / zero;
    [
        CUPERTINO[0],
        CUPERTINO[1],
        CUPERTINO[2],
        nan,
        nan,
        nan,
        PARIS[0],
        PARIS[1],
        PARIS[2],
        zero,
        zero,
        zero,
        SYDNEY[0],
        SYDNEY[1],
        SYDNEY[2],
        infinity,
        -infinity,
        infinity,
        ISABELA[0],
        nan,
        ISABELA[2],
        SHORT[0],
        SHORT[1],
        SHORT[2],
        ISABELA[0],
        ISABELA[1],
        ISABELA[2],
    ]
}

fn each_alone(rt: &impl Print, frame: &[f64], input: &[f64; 27]) {
    for k in 0..9 {
        let _ = print!(rt; "alone {k} ");
        let p = vec3d::vec_at(input, 3 * k);
        show_located(rt, locate::locate(frame, CellLevel(LEVEL), p));
    }
}

fn show_rows(rt: &impl Print, out: &[i32; 44]) {
    for k in 0..11 {
        let _ = println!(rt;
            "row {k} {} {} {} {}",
            out[4 * k],
            out[4 * k + 1],
            out[4 * k + 2],
            out[4 * k + 3]
        );
    }
}

fn main(rt: HostRuntime) {
    let frame = frame::default_frame();
    let input = vectors();
    each_alone(&rt, &frame, &input);
    // Eleven rows of sevens; the batch begins at row 1, so that rows 0 and 10 stay.
    let mut out = [7i32; 44];
    let _ = match locate::locate_all(&frame, CellLevel(LEVEL), &input, &mut out, 1) {
        Ok(refused) => println!(rt; "refused rows {refused}"),
        Err(refusal) => println!(rt; "batch refused {}", refusal.number()),
    };
    show_rows(&rt, &out);
}
