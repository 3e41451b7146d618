// A figure of two roots, played twice. Joint 0 is chosen; all that it cannot see is one float, which is another one the second time.
ghost use Rattle.std.specs.Prelude.{◌≤◌, ◌+◌, length};

use crate::figure::{Figure, NO_PARENT};
use crate::show;
use controller::{set, update};
use model::limits::{MATRIX_FLOATS, POSE_FLOATS};
use std::io::Write;

// Three rates, a value, a duration, and eight floats for each of four samples' two joints.
const NUMBERS: usize = 5 + POSE_FLOATS * 2 * 4;

// Joint 0's poses: of the first clip's two samples, and of the second clip's one.
const FIRST_AT: usize = 5;

const SECOND_AT: usize = 21;

const STILL_AT: usize = 37;

// A pose without a turn.
fn move_to(numbers: &mut [f32; NUMBERS], at: usize, x: f32, y: f32, z: f32)
    requires { at + 8 ≤ length numbers.old }
{
    numbers[at..at + POSE_FLOATS].copy_from_slice(&[x, y, z, 1.0, 1.0, 0.0, 0.0, 0.0]);
}

// Unseen are the third clip's rate and poses, the value and duration of the second state's transition, and joint 1's poses.
fn numbers_with(unseen: f32) -> [f32; NUMBERS] {
    let mut numbers = [unseen; NUMBERS];
    numbers[0] = 1.0;
    numbers[1] = 0.5;
    move_to(&mut numbers, FIRST_AT, 0.0, 0.0, 0.0);
    move_to(&mut numbers, SECOND_AT, 2.0, 4.0, 8.0);
    move_to(&mut numbers, STILL_AT, 4.0, 4.0, 4.0);
    numbers
}

// The first state lerps clips 0 and 1 by parameter 0. Nothing leads to the second, which lerps clips 2 and 0 by parameter 1 and tests that too.
const PLAN: [u16; 44] = [
    2, 3, 2, 2, 0, NO_PARENT, NO_PARENT, 2, 0, 1, 0, 1, 0, 3, 0, 0, 0, 0, 0, 1, 0, 0, 1, 0, 1, 0,
    0, 3, 0, 2, 0, 0, 0, 0, 0, 0, 1, 0, 1, 1, 1, 1, 2, 0,
];

fn played<W: Write>(to: &mut W, title: &[u8], unseen: f32) {
    show::text(to, title);
    let figure = Figure {
        plan: &PLAN,
        numbers: &numbers_with(unseen),
    };
    let mut output = [unseen; 2 * MATRIX_FLOATS];
    let begun = figure.start();
    show::outcome(to, b"start\n", begun);
    let told = set(begun.player, 0, 0.5);
    show::outcome(to, b"set\n", told);
    let unread = set(told.player, 1, unseen);
    show::outcome(to, b"set\n", unread);
    let mut player = unread.player;
    for delta in [0.5, 1.25] {
        let shown = figure.frame(update(player, delta), 0.0, &mut output);
        show::outcome(to, b"frame\n", shown);
        show::joints(to, 1, &output);
        player = shown.player;
    }
}

// This and the next are one call each of what they share: a table of both and a loop would be no shorter.
pub fn sevens<W: Write>(to: &mut W) {
    played(
        to,
        b"# unseen-sevens: joint 0, where all that it cannot see is 7\n",
        7.0,
    );
}

pub fn nan<W: Write>(to: &mut W) {
    played(
        to,
        b"# unseen-nan: joint 0 as before, where all that it cannot see is NaN\n",
        0.0 / 0.0,
    );
}
