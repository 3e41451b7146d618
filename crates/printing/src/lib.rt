// What programs print, put into a slice of bytes: fields, a refusal, a line for each joint.
// Not by `Display` and `write!`: `write_fmt` says which bytes it wrote only where it answers Ok, and nothing says where it does. `Wrote` holds at each return.
#![tactic(auto)]

ghost use Rattle.std.specs.Prelude.{◌≡◌, [], ◌∷◌, ◌+◌, ◌*◌, ◌<◌, ◌≤◌, length};
ghost use Rattle.model.specs.Answers.{number_of};
ghost use Rattle.model.specs.Text.{comma};
ghost use Rattle.model.specs.Plan.{max_joints, output_at};
ghost use Rattle.model.specs.Program.{glyph, digits, places, decimal_fields, refused_line, joint_line, number_bytes};
ghost use Rattle.printing.specs.Written.{HasRoom, Wrote, WroteUpTo, WroteExactly, Front};
ghost use Rattle.printing.specs.Written.{float_fields, matrix_in, joint_lines};
ghost use Rattle.printing.specs.Sizes.{max_digits, decimal_size, refusal_size, joint_size};

use float::f32_to_bits;
use model::Refusal;
use model::limits::{MATRIX_FLOATS, MAX_JOINTS, NUMBER_BYTES};

// Digits of a float's bits, of any number, and of an index of joints or clip nodes.
const FLOAT_DIGITS: usize = NUMBER_BYTES - 1;

const MAX_DIGITS: usize = 20;

const INDEX_DIGITS: usize = 3;

// How many bytes fields and lines have at the most; specs/Sizes.antt has the same for contracts.
pub const DECIMAL_SIZE: usize = 1 + MAX_DIGITS;

pub const REFUSAL_SIZE: usize = 7 + 2 * DECIMAL_SIZE + 1;

const JOINT_SIZE: usize = 5 + (1 + INDEX_DIGITS) + MATRIX_FLOATS * NUMBER_BYTES + 1;

// All that the program prints.
pub const MAX_PRINTED: usize = MAX_JOINTS * JOINT_SIZE;

// The byte of a digit.
fn glyph(d: usize) -> u8
    requires { d < 16 }
    ensures { result ≡ glyph d }
{
    b"0123456789abcdef"[d]
}

// How many decimal digits n has.
fn places(n: usize) -> usize
    ensures { (result ≡ places 19 n) × (result ≤ max_digits) }
{
    n.max(1).ilog10() as usize + 1
}

// The last digits of n, as many as there is room for.
// The base is a number, as in the definition `digits`: an enum of two would be turned into it.
fn put_digits(out: &mut [u8], base: usize, n: usize)
    requires { (2 ≤ base) × (base ≤ 16) }
    ensures { out.new ≡ digits base (length out.old) n }
{
    let mut rest = n;
    for k in (0..out.len()).rev() {
        out[k] = glyph(rest % base);
        rest /= base;
    }
}

// A lent slice, and the place up to which it is written.
#[derive(Drop)]
pub struct Writer<'a> {
    pub out: &'a mut [u8],
    pub at: usize,
}

impl<'a> Writer<'a> {
    pub fn new(out: &'a mut [u8]) -> Writer<'a>
        ensures same { result.out.ghost_name ≡ out.entry.ghost_name }
        ensures held { result.out.now ≡ out.old }
        ensures first { result.at ≡ 0 }
    {
        Writer { out, at: 0 }
    }

    pub fn put_bytes(&mut self, bytes: &[u8])
        requires { HasRoom (length bytes.now) self.old }
        ensures { Wrote bytes.now self.old self.new }
    {
        let behind = self.at + bytes.len();
        self.out[self.at..behind].copy_from_slice(bytes);
        self.at = behind;
    }

    // A comma, and the last `count` digits of n.
    pub fn put_field(&mut self, base: usize, count: usize, n: usize)
        requires { (2 ≤ base) × (base ≤ 16) × HasRoom (1 + count) self.old }
        ensures { Wrote (comma ∷ digits base count n) self.old self.new }
    {
        self.put_bytes(b",");
        let behind = self.at + count;
        put_digits(&mut self.out[self.at..behind], base, n);
        self.at = behind;
    }

    pub fn put_decimal(&mut self, n: usize)
        requires { HasRoom decimal_size self.old }
        ensures { WroteUpTo decimal_size (decimal_fields (n ∷ [])) self.old self.new }
    {
        self.put_field(10, places(n), n);
    }

    // A comma, and the bits of x.
    pub fn put_bits(&mut self, x: f32)
        requires { HasRoom number_bytes self.old }
        ensures { WroteExactly number_bytes (float_fields (x ∷ [])) self.old self.new }
    {
        self.put_field(16, FLOAT_DIGITS, f32_to_bits(x) as usize);
    }

    // A `for` of one line, as for joints, marks and instances: by a closure, its contract would have to say its room.
    pub fn put_floats(&mut self, floats: &[f32])
        requires { HasRoom (number_bytes * length floats.now) self.old }
        ensures { WroteExactly (number_bytes * length floats.now)
            (float_fields floats.now) self.old self.new }
    {
        for x in floats {
            self.put_bits(*x);
        }
    }

    pub fn put_refusal(&mut self, refusal: Refusal)
        requires { HasRoom refusal_size self.old }
        ensures { WroteUpTo refusal_size
            (refused_line (number_of refusal.reason) refusal.place) self.old self.new }
    {
        self.put_bytes(b"refused");
        self.put_decimal(refusal.reason.number());
        self.put_decimal(refusal.place);
        self.put_bytes(b"\n");
    }

    // Joint j's line, for its matrix in an output.
    #[tactic(auto, using(crate::proofs::Laws::short_index))]
    fn put_joint(&mut self, j: usize, output: &[f32])
        requires { (j < max_joints) × HasRoom joint_size self.old × (output_at (j + 1) ≤ length output.now) }
        ensures { WroteUpTo joint_size (joint_line j (matrix_in output.now j)) self.old self.new }
    {
        self.put_bytes(b"joint");
        self.put_decimal(j);
        let from = MATRIX_FLOATS * j;
        let end = from + MATRIX_FLOATS;
        self.put_floats(&output[from..end]);
        self.put_bytes(b"\n");
    }

    // The lines of the first `count` joints.
    // A count beside the output, which may be longer: every caller has the count, and would cut by it.
    pub fn put_joints(&mut self, count: usize, output: &[f32])
        requires { (count ≤ max_joints) × HasRoom (joint_size * count) self.old × (output_at count ≤ length output.now) }
        ensures { WroteUpTo (joint_size * count) (joint_lines count output.now) self.old self.new }
    {
        for j in 0..count {
            self.put_joint(j, output);
        }
    }
}

// A refusal's line alone, over the front of `out`, and how many bytes that is; the others are left.
pub fn put_only_refusal(refusal: Refusal, out: &mut [u8]) -> usize
    requires { refusal_size ≤ length out.old }
    ensures { Front (refused_line (number_of refusal.reason) refusal.place) out.old out.new result }
{
    let mut w = Writer::new(out);
    w.put_refusal(refusal);
    w.at
}
