// The program `replay FIGURE CALLS`: reads a figure's text and a list of calls from two files, and prints what each call
// shows.
#![tactic(auto)]

use calls::MAX_LIST;
use input_file::{has_argument, read_file};
use model::limits::MAX_TEXT;
use replay_print::print_replay;

// What stands for an argument that cannot be had.
const ARGUMENT: &[u8] = b"replay: an argument";

fn replay(rt: &HostRuntime, figure: &[u8], calls: &[u8]) {
    if calls.len() > MAX_LIST {
        let _ = eprintln!(rt; "replay: the list of calls is longer than 262144 bytes");
        return;
    }
    if print_replay(&mut rt.stdout(), figure, calls).is_err() {
        let _ = eprintln!(rt; "replay: standard output cannot be written");
    }
}

// The buffers hold a byte more than is read, so that a longer file is noticed.
fn main(rt: HostRuntime) {
    if !has_argument(&rt, 2) || has_argument(&rt, 3) {
        let _ = eprintln!(rt;
            "usage: replay FIGURE CALLS\nprints what each call of the list in CALLS shows on the figure in FIGURE"
        );
        return;
    }
    let mut figure = [0u8; MAX_TEXT + 1];
    let Some(figure_size) = read_file(&rt, ARGUMENT, 1, &mut figure) else {
        return;
    };
    let mut calls = [0u8; MAX_LIST + 1];
    let Some(calls_size) = read_file(&rt, ARGUMENT, 2, &mut calls) else {
        return;
    };
    replay(&rt, &figure[..figure_size], &calls[..calls_size]);
}
