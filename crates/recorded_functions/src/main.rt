// Answers the rows of standard input by the functions of float, math and transform, a line for each.
// README.md has the rows' format; oracle/compare makes rows and judges the answers.
#![tactic(auto)]

ghost use Rattle.std.specs.Prelude.{◌≤◌, length};
ghost use Rattle.recorded_functions.specs.Sizes.{max_operands};

mod words;

use fields::read_field;
use model::FieldForm;
use model::limits::{MATRIX_FLOATS as MATRIX, NUMBER_BYTES, POSE_FLOATS as POSE};
use printing::Writer;
use std::io::{Read, Write};
use std::slice::Iter;
use test_io::read_front;
use words::{Words, next};

// The most words that a row has, which are two matrices.
const MAX_OPERANDS: usize = 2 * MATRIX;

// The longest row behind its letter, with its LF.
const ROW_SIZE: usize = NUMBER_BYTES * MAX_OPERANDS + 1;

// The longest answer, which is a matrix, with its LF.
const LINE_SIZE: usize = NUMBER_BYTES * MATRIX + 1;

// Why no row is answered any more.
#[derive(Drop)]
enum End {
    Input,
    Malformed,
    Output,
}

// The words of a row's operands. None where a comma, a digit or the LF is missing.
fn parse(row: &[u8]) -> Option<[u32; MAX_OPERANDS]> {
    let [operands @ .., b'\n'] = row else {
        return None;
    };
    let mut words = [0u32; MAX_OPERANDS];
    for (word, operand) in words.iter_mut().zip(operands.chunks_exact(NUMBER_BYTES)) {
        let [b',', digits @ ..] = operand else {
            return None;
        };
        let field = read_field(digits, 0, FieldForm::Bits)?;
        *word = u32::try_from(field.value).ok()?;
    }
    Some(words)
}

// Where rows come from, and where their answers go.
#[derive(Drop)]
struct Rows<R, W> {
    input: R,
    output: W,
}

impl<R: Read, W: Write> Rows<R, W> {
    // Reads `count` operands, and prints what `call` makes of them.
    fn answer<T: Words, F: FnOnce(&mut Iter<'_, u32>) -> T>(
        &mut self,
        count: usize,
        call: F,
    ) -> Result<(), End>
        requires few { count ≤ max_operands }
        requires callable { F.IsAlwaysCallable call }
    {
        let mut row = [0u8; ROW_SIZE];
        let row = read_front(&mut self.input, &mut row, NUMBER_BYTES * count + 1).map_err(
            |_| End::Malformed,
        )?;
        let words = parse(row).ok_or(End::Malformed)?;
        // The LF behind the last word is there from the beginning, and the first word's comma is left out.
        let mut bytes = [b'\n'; LINE_SIZE];
        let mut line = Writer::new(&mut bytes);
        call(&mut words.iter()).put(&mut line);
        let end = line.at + 1;
        self.output
            .write_all(&bytes[1..end])
            .map_err(|_| End::Output)
    }

    // A row's letter picks the function that its operands go to.
    fn answer_next(&mut self) -> Result<(), End> {
        let mut letter = [0u8; 1];
        self.input.read_exact(&mut letter).map_err(|_| End::Input)?;
        match letter[0] {
            b'i' => self.answer(1, |w| math::inv_sqrt(next(w))),
            b'l' => self.answer(9, |w| math::lerp_quaternion(next(w), next(w), next(w))),
            b'm' => self.answer(4, |w| math::quaternion_to_matrix(next(w))),
            b'q' => self.answer(MATRIX, |w| math::matrix_to_quaternion(next(w))),
            b'p' => self.answer(2 * MATRIX, |w| math::row_mat4_mul(next(w), next(w))),
            b'L' => self.answer(2 * POSE + 1, |w| transform::lerp(next(w), next(w), next(w))),
            b'c' => self.answer(2 * POSE, |w| transform::concat(next(w), next(w))),
            b'M' => self.answer(POSE, |w| transform::to_matrix(next(w))),
            b'Q' => self.answer(MATRIX, |w| transform::from_matrix(next(w))),
            b'w' => self.answer(1, |w| float::f64_to_bits(float::widen(next(w)))),
            b'n' => self.answer(2, |w| float::narrow(float::f64_from_bits(next(w)))),
            b'd' => self.answer(1, |w| float::floor_index(next(w))),
            b'u' => self.answer(1, |w| float::ceiling_index(next(w))),
            b'x' => self.answer(2, |w| float::index_to_float(next(w))),
            _ => Err(End::Malformed),
        }
    }
}

// A proved loop has to end, and nothing says that the input does: the row's number cannot grow past u64::MAX.
fn main(rt: HostRuntime) {
    let mut rows = Rows {
        input: rt.stdin(),
        output: rt.stdout(),
    };
    for row in 1..u64::MAX {
        match rows.answer_next() {
            Ok(()) => {}
            Err(End::Malformed) => {
                let _ = writeln!(rows.output, "malformed,{row}");
                return;
            }
            Err(End::Input | End::Output) => return,
        }
    }
}
