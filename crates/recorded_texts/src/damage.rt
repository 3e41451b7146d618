// Every one-byte damage of a text, with what the program would print.
ghost use Rattle.std.specs.Prelude.{◌<◌, length};

use printing::MAX_PRINTED;
use program::{Question, answer};
use std::io::Write;

// FNV-1a: where it starts, and its prime.
const BASIS: u64 = 0xcbf2_9ce4_8422_2325;

const PRIME: u64 = 0x100_0000_01b3;

fn hash(bytes: &[u8]) -> u64 {
    bytes
        .iter()
        .fold(BASIS, |h, b| (h ^ u64::from(*b)).wrapping_mul(PRIME))
}

// `i,v,` and the refusal, or the hash of other output. Told apart by the first byte: `program::answer` gives bytes alone.
fn print_change<W: Write>(output: &mut W, i: usize, v: u8, printed: &[u8], h: u64) {
    let _ = write!(output, "{i},{v},");
    if printed.starts_with(b"r") {
        let _ = output.write_all(printed);
    } else {
        let _ = writeln!(output, "{h:016x}");
    }
}

// Each byte in the place of byte i; a line where the output is not that of the byte before.
fn print_position<W: Write>(output: &mut W, text: &mut [u8], i: usize)
    requires { i < length text.old }
{
    let original = text[i];
    let mut last = None;
    for v in 0..=u8::MAX {
        text[i] = v;
        let mut out = [0u8; MAX_PRINTED];
        let length = answer(Question::Frame, text, &mut out);
        let h = hash(&out[..length]);
        if last.replace(h) != Some(h) {
            print_change(output, i, v, &out[..length], h);
        }
    }
    text[i] = original;
}

pub fn print_damaged<W: Write>(output: &mut W, text: &mut [u8]) {
    for i in 0..text.len() {
        print_position(output, text, i);
    }
}
