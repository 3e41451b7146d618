// The printed example, and every refusal from 1 to 10 and 14.
use crate::figure::{NO_PARENT, NUMBERS, PLAN};
use crate::show;
use controller::{frame, set, start};
use layout::PARENTS_AT;
use model::limits::{
    BYTE_ROOT, MATRIX_FLOATS, MAX_BYTE_ROOT_JOINTS, MAX_JOINTS, MAX_PARAMETERS, POSE_FLOATS,
};
use model::{Player, Transition};
use std::io::Write;

// A figure of as many joints as there may be, with one clip of one sample and one state of one node.
const ALL_JOINTS: u16 = MAX_JOINTS as u16;

const FEW_JOINTS: u16 = MAX_BYTE_ROOT_JOINTS as u16;

const CLIPS_AT: usize = PARENTS_AT + MAX_JOINTS;

const ALL_WORDS: usize = CLIPS_AT + 8;

const ALL_NUMBERS: usize = 1 + MAX_JOINTS * POSE_FLOATS;

pub fn printed_example<W: Write>(to: &mut W) {
    let mut output = [9.0f32; MATRIX_FLOATS + 2];
    show::text(
        to,
        b"# printed-example: the two floats behind the matrix are kept\n",
    );
    let begun = start(&PLAN, &NUMBERS);
    show::answer(to, b"start\n", begun.answer);
    let shown = frame(&PLAN, &NUMBERS, begun.player, 0.0, &mut output);
    show::answer(to, b"frame\n", shown.answer);
    show::floats(to, &output);
}

fn try_start<W: Write>(to: &mut W, title: &[u8], plan: &[u16], numbers: &[f32]) {
    show::text(to, title);
    show::outcome(to, b"start\n", start(plan, numbers));
}

// Plans that are refused, each with its title.
const REFUSED: [(&[u8], &[u16]); 8] = [
    (
        b"# start-2: no clips\n",
        &[1, 0, 0, 1, 0, NO_PARENT, 1, 0, 1, 0, 0, 0, 0, 0],
    ),
    (
        b"# start-3: a joint that is its own parent\n",
        &[1, 1, 0, 1, 0, 0, 1, 0, 1, 0, 0, 0, 0, 0],
    ),
    (
        b"# start-4-clip: a clip that there is not\n",
        &[1, 1, 0, 1, 0, NO_PARENT, 1, 0, 1, 0, 1, 0, 0, 0],
    ),
    (
        b"# start-4-unused: two clip nodes and no node above them, found at K\n",
        &[1, 1, 0, 1, 0, NO_PARENT, 1, 0, 2, 0, 0, 0, 0, 0, 0, 0, 0, 0],
    ),
    (
        b"# start-5: a condition on a parameter, where none can be read\n",
        &[1, 1, 0, 1, 0, NO_PARENT, 1, 0, 1, 0, 0, 0, 0, 1, 0, 0, 0],
    ),
    (
        b"# start-14: an ending that is neither loop nor stop\n",
        &[1, 1, 0, 1, 0, NO_PARENT, 1, 2, 1, 0, 0, 0, 0, 0],
    ),
    (
        b"# start-14-after-2: a clip with a sample too many and with such an ending\n",
        &[1, 1, 0, 1, 0, NO_PARENT, 4097, 2, 1, 0, 0, 0, 0, 0],
    ),
    (
        b"# start-6: a word too many\n",
        &[1, 1, 0, 1, 0, NO_PARENT, 1, 0, 1, 0, 0, 0, 0, 0, 0],
    ),
];

pub fn of_start<W: Write>(to: &mut W) {
    let cut = b"# start-1: the plan ends after three words\n";
    try_start(to, cut, &PLAN[..3], &NUMBERS);
    for (title, plan) in REFUSED {
        try_start(to, title, plan, &NUMBERS);
    }
    try_start(to, b"# start-7: a number too few\n", &PLAN, &NUMBERS[..8]);
}

// In a state that no plan has.
fn astray(player: Player) -> Player {
    Player {
        state: usize::MAX,
        ..player
    }
}

// On its way to a state that a plan of one state does not have.
fn bound(player: Player) -> Player {
    Player {
        transition: Transition::Running {
            start: 0.0,
            target: 1,
            duration: 1.0,
        },
        ..player
    }
}

pub fn of_set_and_frame<W: Write>(to: &mut W) {
    let player = start(&PLAN, &NUMBERS).player;
    show::text(to, b"# set-8: parameter 32\n");
    let refused = set(player, MAX_PARAMETERS, 1.0);
    show::answer(to, b"set\n", refused.answer);
    let cases: [(&[u8], &[u16], Player); 4] = [
        (
            b"# frame-1: a plan that does not pass, before a state that is not there\n",
            &PLAN[..3],
            astray(refused.player),
        ),
        (
            b"# frame-9-state: a state that the plan does not have\n",
            &PLAN,
            astray(refused.player),
        ),
        (
            b"# frame-9-target: a target that the plan does not have\n",
            &PLAN,
            bound(player),
        ),
        (
            b"# frame-10: an output one float too short\n",
            &PLAN,
            player,
        ),
    ];
    let mut output = [9.0f32; MATRIX_FLOATS - 1];
    for (title, plan, player) in cases {
        show::text(to, title);
        let shown = frame(plan, &NUMBERS, player, 0.0, &mut output);
        show::outcome(to, b"frame\n", shown);
        show::floats(to, &output);
    }
}

pub fn joint_limit<W: Write>(to: &mut W) {
    let numbers = [1.0f32; ALL_NUMBERS];
    let mut plan = [NO_PARENT; ALL_WORDS];
    plan[..PARENTS_AT].copy_from_slice(&[ALL_JOINTS, 1, 0, 1, 0]);
    plan[CLIPS_AT..].copy_from_slice(&[1, 0, 1, 0, 0, 0, 0, 0]);
    try_start(to, b"# joints-400: they pass\n", &plan, &numbers);
    plan[0] = ALL_JOINTS + 1;
    try_start(to, b"# joints-401: they do not\n", &plan, &numbers);
    plan[0] = FEW_JOINTS + 1;
    plan[PARENTS_AT] = BYTE_ROOT as u16;
    try_start(
        to,
        b"# byte-root-65: 255 is no root, and no earlier joint\n",
        &plan,
        &numbers,
    );
    plan[0] = FEW_JOINTS;
    try_start(
        to,
        b"# byte-root-64: it is a root; the next count is wrong\n",
        &plan,
        &numbers,
    );
}
