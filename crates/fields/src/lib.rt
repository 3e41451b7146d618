// The name or the field at a place of a text. The cursor that walks over a line's fields is in `text::lines`.
// All is on a slice and a place: document 01 asks for a cursor of few thin functions over such a core.
#![tactic(auto)]

ghost use Rattle.std.specs.Prelude.{◌≡◌, cond, ℕ, ◌+◌, ◌-◌, ◌<◌, ◌≤◌, ◌^◌, length, get_or, drop};
ghost use Rattle.model.specs.Text.{digit, digit_count, begins};
ghost use Rattle.model.specs.declared.FieldForm.TheVariants as FieldForm;
ghost use Rattle.fields.specs.Found.{field_at};
ghost use Rattle.fields.specs.Wide.{hexadecimal_at, wide_bits_at};
ghost use Rattle.fields.specs.CountedTo.{CountedTo};

use model::FieldForm;

// report, printing and recorded_functions have sizes of their own: a line each, as importing a public one would be.
const DECIMAL: usize = 10;

const HEXADECIMAL: usize = 16;

// How many digits the bits of a 32-bit float have, and those of a 64-bit float.
const BITS_DIGITS: usize = 8;

const WIDE_DIGITS: usize = 2 * BITS_DIGITS;

// The largest number of fifteen digits: one digit more fits 64 bits.
const MAX_FIFTEEN: usize = 0x0fff_ffff_ffff_ffff;

// The number that a run of digits writes, and the place behind the last of them.
#[derive(Clone, Copy)]
pub struct Field {
    pub value: usize,
    pub end: usize,
}

// The byte at a place, 0 past the end.
pub fn byte(text: &[u8], at: usize) -> u8
    ensures { result ≡ get_or text.now at 0 }
{
    text.get(at).copied().unwrap_or(0)
}

// The length of a name if that stands at `at`, else 0; it stands inside the text.
// An answer of 0 and no Option: the clause `value`, which may not change, says so.
pub fn name_at(text: &[u8], at: usize, name: &[u8]) -> usize
    requires { (i : ℕ) → i < length name.now → 1 ≤ get_or name.now i 0 }
    ensures value { result ≡ cond (begins name.now (drop at text.now)) (length name.now) 0 }
    ensures upper_bound { result ≤ length text.now - at }
{
    match text.get(at..) {
        Some(rest) if rest.starts_with(name) => name.len(),
        _ => 0,
    }
}

// The value of each byte as a digit. No `Option`: the definition `digit` answers 16 where there is none, so that one test
// ends a run in either base.
// A table and no tests: digits that come in no order mispredict branches, and tests that become none are all done for each
// digit, so that reading digits whose branches would be foreseen takes a third longer.
const DIGITS: [u8; 256] = [
    16, 16, 16, 16, 16, 16, 16, 16, 16, 16, 16, 16, 16, 16, 16, 16, 16, 16, 16, 16, 16, 16, 16, 16,
    16, 16, 16, 16, 16, 16, 16, 16, 16, 16, 16, 16, 16, 16, 16, 16, 16, 16, 16, 16, 16, 16, 16, 16,
    0, 1, 2, 3, 4, 5, 6, 7, 8, 9, 16, 16, 16, 16, 16, 16, 16, 16, 16, 16, 16, 16, 16, 16, 16, 16,
    16, 16, 16, 16, 16, 16, 16, 16, 16, 16, 16, 16, 16, 16, 16, 16, 16, 16, 16, 16, 16, 16, 16, 10,
    11, 12, 13, 14, 15, 16, 16, 16, 16, 16, 16, 16, 16, 16, 16, 16, 16, 16, 16, 16, 16, 16, 16, 16,
    16, 16, 16, 16, 16, 16, 16, 16, 16, 16, 16, 16, 16, 16, 16, 16, 16, 16, 16, 16, 16, 16, 16, 16,
    16, 16, 16, 16, 16, 16, 16, 16, 16, 16, 16, 16, 16, 16, 16, 16, 16, 16, 16, 16, 16, 16, 16, 16,
    16, 16, 16, 16, 16, 16, 16, 16, 16, 16, 16, 16, 16, 16, 16, 16, 16, 16, 16, 16, 16, 16, 16, 16,
    16, 16, 16, 16, 16, 16, 16, 16, 16, 16, 16, 16, 16, 16, 16, 16, 16, 16, 16, 16, 16, 16, 16, 16,
    16, 16, 16, 16, 16, 16, 16, 16, 16, 16, 16, 16, 16, 16, 16, 16, 16, 16, 16, 16, 16, 16, 16, 16,
    16, 16, 16, 16, 16, 16, 16, 16, 16, 16, 16, 16, 16, 16,
];

fn digit(b: u8) -> usize
    ensures { result ≡ digit b }
{
    usize::from(DIGITS[usize::from(b)])
}

// The place behind the run that begins at `at`.
fn run_end(text: &[u8], at: usize, base: usize) -> usize
    ensures { result ≡ at + digit_count base (drop at text.now) }
{
    for end in at..text.len() {
        if digit(text[end]) >= base {
            return end;
        }
    }
    at.max(text.len())
}

// The run that begins at `at`. Once its number is above `most` it is not counted further, so that a long run cannot
// overflow: `run_end` goes on, and the loop here need not choose a number for each digit.
// Not by `from_str_radix`, here and below: it takes a sign and upper case, and document 01's fields have neither. The
// base is a number, as in `digit_count`: an enum of two would be turned into it.
fn run_at(text: &[u8], at: usize, base: usize, most: usize) -> Field
    requires { (1 ≤ base) × (base ≤ 16) × (most < 2 ^ 60) }
    ensures { (result.end ≡ at + digit_count base (drop at text.now))
        × CountedTo base most (result.end - at) (drop at text.now) result.value }
{
    let mut value = 0;
    for end in at..text.len() {
        let next = digit(text[end]);
        if next >= base {
            return Field { value, end };
        }
        if value > most {
            let end = run_end(text, end, base);
            return Field { value, end };
        }
        value = value * base + next;
    }
    Field {
        value,
        end: at.max(text.len()),
    }
}

fn decimal_at(text: &[u8], at: usize, limit: u16) -> Option<Field>
    ensures { result ≡ field_at (FieldForm.Decimal limit) text.now at }
{
    let most = usize::from(limit);
    let run = run_at(text, at, DECIMAL, most);
    if run.end == at {
        return None;
    }
    if text[at] == b'0' && at + 1 < run.end {
        return None;
    }
    (run.value <= most).then_some(run)
}

// The bits that so many digits write.
fn bits_at(text: &[u8], at: usize, count: usize) -> Option<Field>
    requires { 16 ^ (count - 1) ≤ 2 ^ 60 }
    ensures { result ≡ hexadecimal_at count text.now at }
{
    let run = run_at(text, at, HEXADECIMAL, MAX_FIFTEEN);
    (run.end - at == count).then_some(run)
}

// The bits of a 64-bit float.
#[tactic(auto, unfolding(crate::specs::Wide::wide_bits_at))]
pub fn read_wide_bits(text: &[u8], at: usize) -> Option<Field>
    ensures { result ≡ wide_bits_at text.now at }
{
    bits_at(text, at, WIDE_DIGITS)
}

// The field at a place of a text.
// `FieldForm` stays an enum of its own: it says which of two kinds a field is, and not whether there is one.
pub fn read_field(text: &[u8], at: usize, form: FieldForm) -> Option<Field>
    ensures { result ≡ field_at form text.now at }
{
    match form {
        FieldForm::Decimal { limit } => decimal_at(text, at, limit),
        FieldForm::Bits => bits_at(text, at, BITS_DIGITS),
    }
}
