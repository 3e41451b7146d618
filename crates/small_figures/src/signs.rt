// Two signs of an arm of two joints, with a transition each way; a page frame; and NaN.
use crate::figure::{Figure, NO_PARENT};
use crate::show;
use controller::{page_frame, set, speed, update};
use model::Player;
use model::limits::MATRIX_FLOATS;
use std::io::Write;

// A frame of two joints, and the player that it returns.
fn framed<W: Write>(to: &mut W, figure: Figure<'_>, player: Player, ext: f64) -> Player {
    let mut output = [0.0f32; 2 * MATRIX_FLOATS];
    let shown = figure.frame(player, ext, &mut output);
    show::outcome(to, b"frame\n", shown);
    show::joints(to, 2, &output);
    shown.player
}

// The first state lerps a clip of two samples with one of a single sample by parameter 0. It leaves for the second state where that is above 0.5, within two
// seconds. The second plays the single sample, and goes back where the parameter is at least 0.5, in no time.
const ARM_PLAN: [u16; 37] = [
    2, 2, 1, 2, 0, NO_PARENT, 0, 2, 0, 1, 0, 3, 0, 0, 0, 0, 0, 1, 0, 0, 1, 0, 1, 0, 1, 0, 2, 1, 1,
    0, 1, 0, 0, 1, 0, 3, 0,
];

const ARM_NUMBERS: [f32; 54] = [
    2.0, 1.0, 0.5, 2.0, 0.5, 0.0, 0.0, 0.0, 0.0, 1.0, 1.0, 0.0, 0.0, 0.0, 1.0, 0.0, 0.0, 1.0, 1.0,
    0.0, 0.0, 0.0, 0.0, 2.0, 0.0, 1.0, 0.5, 0.5, 0.5, 0.5, 1.0, 0.0, 0.0, 1.0, 1.0, 0.0, 0.0, 0.0,
    4.0, 0.0, 0.0, 1.0, 0.0, 1.0, 0.0, 0.0, 0.0, 0.0, 1.0, 1.0, 1.0, 0.0, 0.0, 0.0,
];

pub fn there_and_back<W: Write>(to: &mut W) {
    let arm = Figure {
        plan: &ARM_PLAN,
        numbers: &ARM_NUMBERS,
    };
    show::text(
        to,
        b"# there-and-back: a transition begins, runs and ends; the parameter is held, so the way back begins, of duration 0\n",
    );
    let idle = framed(to, arm, update(arm.start().player, 0.25), 0.0);
    let told = set(idle, 0, 0.75);
    show::answer(to, b"set\n", told.answer);
    let leaving = framed(to, arm, told.player, 0.0);
    let half_way = framed(to, arm, update(leaving, 1.0), 0.0);
    let arrived = framed(to, arm, update(half_way, 1.0), 0.0);
    let turning = framed(to, arm, arrived, 0.125);
    let back = framed(to, arm, turning, 0.125);
    let again = framed(to, arm, speed(back, 2.0), 0.0);
    framed(to, arm, update(again, 1.0), 0.5);
}

// An arm turned by the rotation ½ ½ ½ ½, and on it a hand turned by ½ −½ ½ ½.
pub fn page<W: Write>(to: &mut W) {
    let plan: [u16; 15] = [2, 1, 0, 1, 0, NO_PARENT, 0, 1, 0, 1, 0, 0, 0, 0, 0];
    let numbers: [f32; 17] = [
        1.0, 1.0, 2.0, 3.0, 1.0, 0.5, 0.5, 0.5, 0.5, 0.0, 4.0, 0.0, 1.0, 0.5, -0.5, 0.5, 0.5,
    ];
    let arm = Figure {
        plan: &plan,
        numbers: &numbers,
    };
    let mut matrices = [0.0f32; 2 * MATRIX_FLOATS];
    show::text(
        to,
        b"# page: a hand on a turned arm, as a frame and as a page frame; a refused one writes nothing\n",
    );
    let player = arm.start().player;
    arm.frame(player, 0.0, &mut matrices);
    show::joints(to, 2, &matrices);
    for size in [plan.len(), plan.len() - 1] {
        let paged = page_frame(&plan[..size], &numbers, player, 0.0, &mut matrices);
        show::answer(to, b"page\n", paged.answer);
        show::joints(to, 2, &matrices);
    }
}

// A frame of one joint: its answer and its matrix.
fn show_frame<W: Write>(to: &mut W, figure: Figure<'_>, player: Player) {
    let mut output = [0.0f32; MATRIX_FLOATS];
    let shown = figure.frame(player, 0.0, &mut output);
    show::answer(to, b"frame\n", shown.answer);
    show::joints(to, 1, &output);
}

// Three samples at two a second, x being 1, 2 and 4, at position 2.5.
// `ending` is a word, which goes into the plan as it is.
fn past_the_last<W: Write>(to: &mut W, ending: u16) {
    let figure = Figure {
        plan: &[1, 1, 0, 1, 0, NO_PARENT, 3, ending, 1, 0, 0, 0, 0, 0],
        numbers: &[
            2.0, 1.0, 0.0, 0.0, 0.0, 1.0, 0.0, 0.0, 0.0, 2.0, 0.0, 0.0, 0.0, 1.0, 0.0, 0.0, 0.0,
            4.0, 0.0, 0.0, 0.0, 1.0, 0.0, 0.0, 0.0,
        ],
    };
    show_frame(to, figure, update(figure.start().player, 1.25));
}

// `paused` is alike but for its title and figure: what they share is `show_frame` and a loop of one line.
pub fn held<W: Write>(to: &mut W) {
    show::text(
        to,
        b"# held: past its last sample a clip that loops is on its way back, and one that stops stays\n",
    );
    for ending in [0, 1] {
        past_the_last(to, ending);
    }
}

// Half way between a pause and two samples at one a second, x being 2 and 6, at position 0.5. The pause's rate is 0.
// `ending` as above.
fn half_paused<W: Write>(to: &mut W, ending: u16) {
    let figure = Figure {
        plan: &[
            1, 2, 1, 1, 0, NO_PARENT, 0, ending, 2, 0, 3, 0, 0, 0, 0, 0, 1, 0, 0, 1, 0, 1, 0, 0,
        ],
        numbers: &[
            0.0, 1.0, 2.0, 0.0, 0.0, 0.0, 1.0, 0.0, 0.0, 0.0, 6.0, 0.0, 0.0, 0.0, 1.0, 0.0, 0.0,
            0.0,
        ],
    };
    let told = set(figure.start().player, 0, 0.5);
    show_frame(to, figure, update(told.player, 0.5));
}

pub fn paused<W: Write>(to: &mut W) {
    show::text(
        to,
        b"# paused: a lerp with a clip without samples, which is the identity with either ending; it leaves the other clip's rate alone\n",
    );
    for ending in [0, 1] {
        half_paused(to, ending);
    }
}

// A lerp of two clips, with every number, time and parameter NaN. Its transition is never begun, since no comparison holds of NaN but !=.
pub fn nothing_but_nan<W: Write>(to: &mut W) {
    let nan: f32 = 0.0 / 0.0;
    let wide: f64 = 0.0 / 0.0;
    let figure = Figure {
        plan: &[
            1, 2, 1, 1, 0, NO_PARENT, 1, 0, 1, 0, 3, 0, 0, 0, 0, 0, 1, 0, 0, 1, 0, 1, 0, 1, 0, 3, 0,
        ],
        numbers: &[nan; 20],
    };
    let mut output = [0.0f32; MATRIX_FLOATS];
    show::text(
        to,
        b"# nan: every number, time and parameter; no transition begins\n",
    );
    let begun = figure.start();
    show::answer(to, b"start\n", begun.answer);
    let told = set(begun.player, 0, nan);
    let moved = update(speed(told.player, wide), wide);
    show::outcome(to, b"frame\n", figure.frame(moved, wide, &mut output));
    show::joints(to, 1, &output);
}
