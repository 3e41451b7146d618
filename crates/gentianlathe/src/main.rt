// The program: reads a figure's text from standard input, starts it, and prints each joint's matrix of one frame, or the
// refusal. `program::answer` does the work, on slices; here are only the reading and the writing.
#![tactic(auto)]

use input::read_input;
use model::limits::MAX_TEXT;
use printing::MAX_PRINTED;
use program::{Question, answer};

fn main(rt: HostRuntime) {
    // A byte more, so that a longer text is noticed.
    let mut text = [0u8; MAX_TEXT + 1];
    let Ok(count) = read_input(&mut rt.stdin(), &mut text) else {
        let _ = eprintln!(rt; "gentianlathe: standard input cannot be read");
        return;
    };
    let mut out = [0u8; MAX_PRINTED];
    let length = answer(Question::Frame, &text[..count], &mut out);
    if rt.write_all(&out[..length]).is_err() {
        let _ = eprintln!(rt; "gentianlathe: standard output cannot be written");
    }
}
