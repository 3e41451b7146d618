// What operands and answers are made of, as words.
ghost use Rattle.std.specs.Prelude.{◌*◌, ◌≤◌, ℕ};
ghost use Rattle.std.proofs.Common.{rules};
ghost use Rattle.model.specs.Program.{number_bytes};
ghost use Rattle.printing.specs.Written.{HasRoom};
ghost use Rattle.recorded_functions.specs.Moved.{Moved};
ghost use Rattle.recorded_functions.specs.Sizes.{max_words};

use model::limits::NUMBER_BYTES;
use model::{Matrix4, Pose, Quaternion, Row, Vector3};
use printing::Writer;
use std::slice::Iter;

const HEXADECIMAL: usize = 16;

const WORD_DIGITS: usize = NUMBER_BYTES - 1;

// A struct is its fields in order.
// An impl for each struct, field by field: `rt ci` refuses a derive of one's own.
pub trait Words: Sized {
    // How many words a value has.
    ghost word_count: { ℕ };

    // The next value of a row's operands.
    fn take(words: &mut Iter<'_, u32>) -> Self;

    // Puts a value into an answer's line: a comma and eight digits for each word.
    fn put(self, line: &mut Writer<'_>)
        requires { HasRoom (number_bytes * word_count) line.old }
        ensures { Moved (number_bytes * word_count) line.old line.new };

    // An answer has room in a line.
    ghost fits_a_line: { word_count ≤ max_words };
}

// The next value, of the type that is asked for.
pub fn next<T: Words>(words: &mut Iter<'_, u32>) -> T {
    T::take(words)
}

// The next word: 0 behind the last, so that nobody asks how many there are.
fn word(words: &mut Iter<'_, u32>) -> u32 {
    words.next().copied().unwrap_or(0)
}

impl Words for f32 {
    ghost word_count = { 1 };

    ghost fits_a_line = { Prim.search rules };

    fn take(words: &mut Iter<'_, u32>) -> f32 {
        float::f32_from_bits(word(words))
    }

    fn put(self, line: &mut Writer<'_>) {
        line.put_bits(self);
    }
}

// A 64-bit float's bits, or an index; the high word first.
impl Words for u64 {
    ghost word_count = { 2 };

    ghost fits_a_line = { Prim.search rules };

    fn take(words: &mut Iter<'_, u32>) -> u64 {
        let high = word(words);
        let low = word(words);
        u64::from(high) * 0x1_0000_0000 + u64::from(low)
    }

    #[tactic(auto, using(model::proofs::Laws::Digits::length_digits))]
    fn put(self, line: &mut Writer<'_>) {
        line.put_field(HEXADECIMAL, WORD_DIGITS, (self / 0x1_0000_0000) as usize);
        line.put_field(HEXADECIMAL, WORD_DIGITS, (self % 0x1_0000_0000) as usize);
    }
}

impl Words for Vector3 {
    ghost word_count = { 3 };

    ghost fits_a_line = { Prim.search rules };

    fn take(words: &mut Iter<'_, u32>) -> Vector3 {
        Vector3 {
            x: f32::take(words),
            y: f32::take(words),
            z: f32::take(words),
        }
    }

    fn put(self, line: &mut Writer<'_>) {
        self.x.put(line);
        self.y.put(line);
        self.z.put(line);
    }
}

impl Words for Quaternion {
    ghost word_count = { 4 };

    ghost fits_a_line = { Prim.search rules };

    fn take(words: &mut Iter<'_, u32>) -> Quaternion {
        Quaternion {
            w: f32::take(words),
            x: f32::take(words),
            y: f32::take(words),
            z: f32::take(words),
        }
    }

    fn put(self, line: &mut Writer<'_>) {
        self.w.put(line);
        self.x.put(line);
        self.y.put(line);
        self.z.put(line);
    }
}

impl Words for Pose {
    ghost word_count = { 8 };

    ghost fits_a_line = { Prim.search rules };

    fn take(words: &mut Iter<'_, u32>) -> Pose {
        Pose {
            translation: Vector3::take(words),
            scale: f32::take(words),
            rotation: Quaternion::take(words),
        }
    }

    fn put(self, line: &mut Writer<'_>) {
        self.translation.put(line);
        self.scale.put(line);
        self.rotation.put(line);
    }
}

impl Words for Row {
    ghost word_count = { 4 };

    ghost fits_a_line = { Prim.search rules };

    fn take(words: &mut Iter<'_, u32>) -> Row {
        Row {
            c0: f32::take(words),
            c1: f32::take(words),
            c2: f32::take(words),
            c3: f32::take(words),
        }
    }

    fn put(self, line: &mut Writer<'_>) {
        self.c0.put(line);
        self.c1.put(line);
        self.c2.put(line);
        self.c3.put(line);
    }
}

impl Words for Matrix4 {
    ghost word_count = { 16 };

    ghost fits_a_line = { Prim.search rules };

    fn take(words: &mut Iter<'_, u32>) -> Matrix4 {
        Matrix4 {
            r0: Row::take(words),
            r1: Row::take(words),
            r2: Row::take(words),
            r3: Row::take(words),
        }
    }

    fn put(self, line: &mut Writer<'_>) {
        self.r0.put(line);
        self.r1.put(line);
        self.r2.put(line);
        self.r3.put(line);
    }
}
