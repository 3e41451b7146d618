// Replays lists of calls, as many as standard input has, and prints what `replay` would print for each.
// README.md has the format; oracle/compare records lists and the expected reports.
#![tactic(auto)]

use calls::MAX_LIST;
use model::limits::MAX_TEXT;
use replay_print::print_replay;
use std::io::{Read, Write};
use test_io::{read_front, size_at};

const HEADER_SIZE: usize = 23;

// A figure may be a byte too long.
const FIGURE_SIZE: usize = MAX_TEXT + 1;

// None at the end of the input, at a case that is cut off or too long, and where the output cannot be written.
fn run_case<R: Read, W: Write>(input: &mut R, output: &mut W) -> Option<()> {
    let mut header = [0u8; HEADER_SIZE];
    input.read_exact(&mut header).ok()?;
    let figure_size = size_at(&header, 5)?;
    let calls_size = size_at(&header, 14)?;
    if FIGURE_SIZE < figure_size || MAX_LIST < calls_size {
        return None;
    }
    let mut figure = [0u8; FIGURE_SIZE];
    let mut calls = [0u8; MAX_LIST];
    let figure = read_front(input, &mut figure, figure_size).ok()?;
    let calls = read_front(input, &mut calls, calls_size).ok()?;
    let _ = output.write_all(&header);
    print_replay(output, figure, calls).ok()
}

// A proved loop has to end, and nothing says that the input does.
// The loop of recorded_texts too, whose comment says why it is not shared.
fn main(rt: HostRuntime) {
    let mut input = rt.stdin();
    let mut output = rt.stdout();
    for _ in 0..u64::MAX {
        if run_case(&mut input, &mut output).is_none() {
            return;
        }
    }
}
