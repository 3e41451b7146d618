// Prints what replaying a list of calls on a figure shows. The work is `replay_core`'s, on slices; here it is written to an
// output, part by part.
#![tactic(auto)]

ghost use Rattle.std.specs.Prelude.{ℕ, List, ◌≤◌, length};
ghost use Rattle.std.specs.Fn.{FnOnceReturnsAtMut};

use calls::check_calls;
use layout::MAX_PLAN;
use model::Player;
use model::limits::MAX_NUMBERS;
use printing::put_only_refusal;
use program_text::read_program_text;
use replay_core::{Left, MAX_REPORT, begin, finish, perform, put_malformed};
use std::io::{self, Write};

// Room for the longest report and some others, which are printed at once.
const BUFFER_SIZE: usize = 2 * MAX_REPORT;

// What `put` puts over the front of a buffer. `print_list` prints parts of a longer one, so it does without.
fn print_front<W: Write, P: FnOnce(&mut [u8; MAX_REPORT]) -> usize>(
    output: &mut W,
    put: P,
) -> io::Result<()>
    requires callable { P.IsAlwaysCallable put }
    requires inside { (before after : List ℕ) (size : ℕ) → FnOnceReturnsAtMut P.FnOnce put before size after
        → size ≤ length after }
{
    let mut out = [0u8; MAX_REPORT];
    let size = put(&mut out);
    output.write_all(&out[..size])
}

// The start, and the player of it. Not by `print_front`, whose closure hands back how many bytes it put and nothing else.
fn print_start<W: Write>(output: &mut W, plan: &[u16], numbers: &[f32]) -> io::Result<Player> {
    let mut out = [0u8; MAX_REPORT];
    let begun = begin(plan, numbers, &mut out);
    output.write_all(&out[..begun.length])?;
    Ok(begun.player)
}

// A list of so many lines, as many of its calls at a time as the buffer holds reports of.
fn print_list<W: Write>(
    output: &mut W,
    plan: &[u16],
    numbers: &[f32],
    calls: &[u8],
    lines: usize,
) -> io::Result<()> {
    let player = print_start(output, plan, numbers)?;
    let mut left = Left {
        player,
        at: 0,
        lines,
    };
    let mut out = [0u8; BUFFER_SIZE];
    while left.lines > 0 {
        let progress = perform(plan, numbers, calls, left, &mut out);
        output.write_all(&out[..progress.length])?;
        left = progress.left;
    }
    print_front(output, |out| finish(left.player, out))
}

// An error where the output cannot be written.
pub fn print_replay<W: Write>(output: &mut W, figure: &[u8], calls: &[u8]) -> io::Result<()> {
    let mut plan = [0u16; MAX_PLAN];
    let mut numbers = [0.0f32; MAX_NUMBERS];
    let read = match read_program_text(figure, &mut plan, &mut numbers) {
        Ok(read) => read,
        Err(refusal) => return print_front(output, |out| put_only_refusal(refusal, out)),
    };
    let plan = &plan[..read.words];
    let numbers = &numbers[..read.numbers];
    match check_calls(calls) {
        Ok(lines) => print_list(output, plan, numbers, calls, lines),
        Err(malformed) => print_front(output, |out| put_malformed(malformed.line, out)),
    }
}
