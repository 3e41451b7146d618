// Puts texts to the programs' work, as many as standard input has, and prints what the program would print for each.
// README.md has the format; oracle/compare records texts and the expected answers.
#![tactic(auto)]

mod damage;

use damage::print_damaged;
use model::limits::MAX_TEXT;
use printing::MAX_PRINTED;
use program::{Question, answer};
use std::io::{Read, Write};
use test_io::{read_front, size_at};

// Of a text that is damaged, and of another, which has two bytes less.
const HEADER_SIZE: usize = 16;

const SHORT_HEADER_SIZE: usize = HEADER_SIZE - 2;

// A text may be a byte too long.
const TEXT_SIZE: usize = MAX_TEXT + 1;

// The longest text that is damaged.
const MAX_DAMAGED: usize = 1024;

// The text behind a header, which has its size at a place; None where it is longer than `text`, or cut off.
fn read_text<'a, R: Read>(
    input: &mut R,
    header: &[u8],
    at: usize,
    text: &'a mut [u8],
) -> Option<&'a mut [u8]> {
    let size = size_at(header, at)?;
    if text.len() < size {
        return None;
    }
    read_front(input, text, size).ok()
}

// A text for the program, or one whose uses are asked: their headers have the same form.
// The letter is made a `Question` where it is read, which `answer` takes. Input and output stay two parameters: a struct
// with its impl would be longer than what three functions pass on.
fn run_text<R: Read, W: Write>(input: &mut R, output: &mut W, header: &[u8]) -> Option<()> {
    let mut text = [0u8; TEXT_SIZE];
    let text = read_text(input, header, 5, &mut text)?;
    let question = if header.starts_with(b"u") {
        Question::Uses
    } else {
        Question::Frame
    };
    let mut out = [0u8; MAX_PRINTED];
    let length = answer(question, text, &mut out);
    let _ = output.write_all(header);
    let _ = output.write_all(&out[..length]);
    Some(())
}

fn run_damage<R: Read, W: Write>(input: &mut R, output: &mut W, header: &[u8]) -> Option<()> {
    let mut text = [0u8; MAX_DAMAGED];
    let text = read_text(input, header, 7, &mut text)?;
    let _ = output.write_all(header);
    print_damaged(output, text);
    Some(())
}

// None at the end of the input, and at a case that is cut off or has no size.
// The letter is asked where it is read: an enum of two would be made here and matched here.
fn run_case<R: Read, W: Write>(input: &mut R, output: &mut W) -> Option<()> {
    let mut header = [0u8; HEADER_SIZE];
    input.read_exact(&mut header[..SHORT_HEADER_SIZE]).ok()?;
    if header[0] != b'd' {
        return run_text(input, output, &header[..SHORT_HEADER_SIZE]);
    }
    input.read_exact(&mut header[SHORT_HEADER_SIZE..]).ok()?;
    run_damage(input, output, &header)
}

// A proved loop has to end, and nothing says that the input does.
// The loop of recorded_lists too: shared, its three lines would be a public function's, with a closure's contract.
fn main(rt: HostRuntime) {
    let mut input = rt.stdin();
    let mut output = rt.stdout();
    for _ in 0..u64::MAX {
        if run_case(&mut input, &mut output).is_none() {
            return;
        }
    }
}
