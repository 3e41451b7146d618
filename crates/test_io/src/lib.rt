// How the test programs read their cases from standard input, and write what they found.
#![tactic(auto)]

ghost use Rattle.std.specs.Prelude.{◌≡◌, ◌≤◌, length, take, IfOk, OnOk};
ghost use Rattle.std.specs.Io.KnownBytes.{Appends, Consumes};
ghost use Rattle.std.specs.Option.{option_map};
ghost use Rattle.model.specs.declared.FieldForm.TheVariants as FieldForm;
ghost use Rattle.fields.specs.Found.{field_at};

use fields::read_field;
use model::FieldForm;
use std::io::{self, Read, Write};

// How many bytes a header says that follow it: eight hexadecimal digits from `at` on, if these are there.
// At a place, as `read_field` takes it.
pub fn size_at(header: &[u8], at: usize) -> Option<usize>
    ensures { result ≡ option_map (λ field. field.value) (field_at FieldForm.Bits header.now at) }
{
    read_field(header, at, FieldForm::Bits).map(|field| field.value)
}

// Fills the front of `text`, `size` bytes, from the input, and answers with it.
// The size stays beside the slice: the edit read_past_the_slice holds this `requires`.
pub fn read_front<'a, R: Read>(
    input: &mut R,
    text: &'a mut [u8],
    size: usize,
) -> io::Result<&'a mut [u8]>
    requires { size ≤ length text.old }
    ensures size { IfOk result (λ front. length front.now ≡ size) }
    ensures bytes { IfOk result (λ front. Consumes (R.remaining input.old) (R.remaining input.new) front.now) }
{
    let front = &mut text[..size];
    input.read_exact(front)?;
    Ok(front)
}

// Writes the bytes below `size`: the functions that put text into a buffer answer how far it reaches. The buffer and its
// size stay beside one another, since this `requires`, which an edit holds, may not change.
pub fn write_front<W: Write>(output: &mut W, bytes: &[u8], size: usize) -> io::Result<()>
    requires { size ≤ length bytes.now }
    ensures { OnOk result
        (Appends (W.contents output.old) (W.contents output.new) (take size bytes.now)) }
{
    output.write_all(&bytes[..size])
}
