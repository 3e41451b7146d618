// A reader: one line, or many of a kind, into the slices. A place past a slice's end is not written, so that slices of no
// length serve to judge a text.
ghost use Rattle.std.specs.Prelude.{[], ◌∷◌, ◌+◌, ◌<◌, ◌^◌, ◌≡◌};
ghost use Rattle.std.proofs.lemmas.List.Edits.{sets};
ghost use Rattle.model.specs.declared.Reason.TheVariants as reason;
ghost use Rattle.text.specs.Steps.{InText};

use crate::lines::{MAX_FIELDS, forms, line_at};
use float::f32_from_bits;
use model::{FieldForm, LineKind, Reason, Refusal};

// The place in the text, and how many lines, words and numbers stand before it.
#[derive(Clone, Copy, Default)]
pub struct Progress {
    pub at: usize,
    pub line: usize,
    pub words: usize,
    pub numbers: usize,
}

// A line that is not what it has to be, counted from 1.
#[derive(Clone, Copy)]
pub struct Malformed {
    pub line: usize,
}

impl From<Malformed> for Refusal {
    ghost from_gives = { λ m r. r ≡ record { reason = reason.Line; place = m.line } };

    fn from(malformed: Malformed) -> Refusal {
        Reason::Line.at(malformed.line)
    }
}

// A text, how far it is read, the values of the line that was read last, and the slices that words and numbers go to.
#[derive(Drop)]
pub struct Reader<'a> {
    pub text: &'a [u8],
    pub progress: Progress,
    pub values: [usize; MAX_FIELDS],
    pub plan: &'a mut [u16],
    pub numbers: &'a mut [f32],
    ghost in_text: { InText text.now progress },
}

// A value at a place, which moves on. A slice that ends before it takes nothing.
fn put_next<T: Copy>(into: &mut [T], at: &mut usize, value: T)
    requires { at.old + 1 < 2 ^ 64 }
    ensures values { into.new ≡ sets into.old at.old (value ∷ []) }
    ensures place { at.new ≡ at.old + 1 }
{
    if *at < into.len() {
        into[*at] = value;
    }
    *at += 1;
}

impl Reader<'_> {
    ghost use Rattle.std.specs.Prelude.{◌≤◌, length, IfOk};
    ghost use Rattle.model.specs.Text.{max_word, forms, words_in, bits_in, read_line, times, floats_of};
    ghost use Rattle.model.specs.Laws.Text.{Bounded};
    ghost use Rattle.text.specs.Steps.{LineAt, with_word, with_number, LineValues};
    ghost use Rattle.text.specs.Readers.{SameReader, Unwritten, RoomFor, PutTo, LineRead, ReadTo};

    // ---- values, each behind those that were put before

    pub fn put_word(&mut self, value: usize)
        requires { (value ≤ max_word) × RoomFor 1 0 self.old.progress }
        ensures same { SameReader self.old self.new × (self.new.values ≡ self.old.values) }
        ensures progress { self.new.progress ≡ with_word self.old.progress }
        ensures plan { self.new.plan.now ≡ sets self.old.plan.now self.old.progress.words (value ∷ []) }
        ensures numbers { self.new.numbers.now ≡ self.old.numbers.now }
    {
        put_next(self.plan, &mut self.progress.words, value as u16);
    }

    fn put_number(&mut self, bits: usize)
        requires { (bits < 2 ^ 32) × RoomFor 0 1 self.old.progress }
        ensures same { SameReader self.old self.new × (self.new.values ≡ self.old.values) }
        ensures progress { self.new.progress ≡ with_number self.old.progress }
        ensures plan { self.new.plan.now ≡ self.old.plan.now }
        ensures numbers { self.new.numbers.now ≡ sets self.old.numbers.now self.old.progress.numbers (floats_of (bits ∷ [])) }
    {
        let number = f32_from_bits(bits as u32);
        put_next(self.numbers, &mut self.progress.numbers, number);
    }

    // A decimal goes to the plan, bits go to the numbers.
    // The match of a `FieldForm`'s two kinds, which are data: `forms` has them.
    fn put_value(&mut self, form: FieldForm, value: usize)
        requires { Bounded form value
            × RoomFor (length (words_in (form ∷ []) (value ∷ []))) (length (bits_in (form ∷ []) (value ∷ []))) self.old.progress }
        ensures { PutTo (form ∷ []) (value ∷ []) self.old self.new }
    {
        match form {
            FieldForm::Decimal { limit: _ } => self.put_word(value),
            FieldForm::Bits => self.put_number(value),
        }
    }

    // A line's values, field by field.
    fn put_line(&mut self, kind: LineKind)
        requires { LineValues kind self.old.values
            × RoomFor (length (words_in (forms kind) self.old.values)) (length (bits_in (forms kind) self.old.values)) self.old.progress }
        ensures { PutTo (forms kind) self.old.values self.old self.new }
    {
        for (k, form) in forms(kind).iter().enumerate() {
            self.put_value(*form, self.values[k]);
        }
    }

    // ---- lines

    // Goes behind a line of a kind, with nothing put yet.
    pub fn pass_line(&mut self, kind: LineKind) -> Result<(), Malformed>
        ensures same { Unwritten self.old self.new }
        ensures line { LineRead kind self.old self.new result }
    {
        let line = self.progress.line + 1;
        let found = line_at(self.text, self.progress.at, kind, &mut self.values);
        let at = found.ok_or(Malformed { line })?;
        self.progress = Progress {
            at,
            line,
            ..self.progress
        };
        Ok(())
    }

    pub fn read_line(&mut self, kind: LineKind) -> Result<(), Malformed>
        ensures read { ReadTo (read_line kind) self.old self.new result }
        ensures valued { IfOk result (λ _. LineAt kind self.old.text.now self.new.values self.old.progress self.new.progress.at) }
    {
        self.pass_line(kind)?;
        self.put_line(kind);
        Ok(())
    }

    // `count` lines of one kind.
    pub fn read_lines(&mut self, kind: LineKind, count: usize) -> Result<(), Malformed>
        ensures { ReadTo (times count (read_line kind)) self.old self.new result }
    {
        for _ in 0..count {
            self.read_line(kind)?;
        }
        Ok(())
    }
}
