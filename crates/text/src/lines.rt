// Lines of a text: a name, fields with a comma before each, LF.
ghost use Rattle.std.specs.Prelude.{◌≡◌, ◌<◌, length, set, drop};
ghost use Rattle.model.specs.Text.{name, forms, fields_in, line_in};
ghost use Rattle.fields.specs.Found.{found};
ghost use Rattle.text.specs.LineFound.{max_fields, LineFound};
ghost use Rattle.text.specs.LineReading.{comma_field, Stepped};

use fields::{Field, byte, name_at, read_field};
use model::FieldForm::{Bits, Decimal};
use model::limits::{
    MAX_CLIPS, MAX_JOINTS, MAX_NODES, MAX_PARAMETERS, MAX_SAMPLES, MAX_STATES, MAX_TRANSITIONS,
    MAX_WORD,
};
use model::{FieldForm, LineKind};

// No line has more fields.
pub const MAX_FIELDS: usize = 8;

// ---- the kinds of line

#[tactic(auto, unfolding(model::specs::Text::name))]
fn name(kind: LineKind) -> &'static [u8]
    ensures { result.now ≡ name kind }
{
    match kind {
        LineKind::Figure => b"figure",
        LineKind::Joint => b"joint",
        LineKind::Clip => b"clip",
        LineKind::State => b"state",
        LineKind::Node => b"node",
        LineKind::Go => b"go",
        LineKind::Pose => b"pose",
    }
}

// A count's decimal has the count's upper limit.
const JOINTS: FieldForm = Decimal {
    limit: MAX_JOINTS as u16,
};

const CLIPS: FieldForm = Decimal {
    limit: MAX_CLIPS as u16,
};

const PARAMETERS: FieldForm = Decimal {
    limit: MAX_PARAMETERS as u16,
};

const STATES: FieldForm = Decimal {
    limit: MAX_STATES as u16,
};

const SAMPLES: FieldForm = Decimal {
    limit: MAX_SAMPLES as u16,
};

const NODES: FieldForm = Decimal {
    limit: MAX_NODES as u16,
};

const TRANSITIONS: FieldForm = Decimal {
    limit: MAX_TRANSITIONS as u16,
};

const WORD: FieldForm = Decimal {
    limit: MAX_WORD as u16,
};

// What the fields of a line hold, in their order.
#[tactic(auto, unfolding(model::specs::Text::forms))]
pub fn forms(kind: LineKind) -> &'static [FieldForm]
    ensures { result.now ≡ forms kind }
{
    match kind {
        LineKind::Figure => &[JOINTS, CLIPS, PARAMETERS, STATES, WORD],
        LineKind::Joint => &[WORD],
        LineKind::Clip => &[SAMPLES, Bits, WORD],
        LineKind::State => &[NODES, TRANSITIONS],
        LineKind::Node => &[WORD; 4],
        LineKind::Go => &[WORD, WORD, WORD, Bits, Bits],
        LineKind::Pose => &[Bits; MAX_FIELDS],
    }
}

// ---- the cursor: a text and a place in it, held together

// Thin, as document 01 prescribes, over functions of a slice and a place: those beside it, and `fields`.
#[derive(Clone, Copy)]
struct Fields<'a> {
    text: &'a [u8],
    at: usize,
}

// A field behind a comma.
fn field_at(text: &[u8], at: usize, form: FieldForm) -> Option<Field>
    ensures { found text.now result ≡ comma_field form (drop at text.now) }
{
    if byte(text, at) != b',' {
        return None;
    }
    read_field(text, at + 1, form)
}

impl Fields<'_> {
    // The next field's value; the cursor goes behind it.
    fn next(&mut self, form: FieldForm) -> Option<usize>
        ensures text { self.new.text.now ≡ self.old.text.now }
        ensures step { Stepped form self.old.text.now self.old.at self.new.at result }
    {
        let field = field_at(self.text, self.at, form)?;
        self.at = field.end;
        Some(field.value)
    }
}

// ---- a line

// The fields from `at` on, and the place behind the line's end. Where they do not stand there the values are as they were.
fn fields_at(
    text: &[u8],
    at: usize,
    kind: LineKind,
    values: &mut [usize; MAX_FIELDS],
) -> Option<usize>
    ensures { LineFound text.now (fields_in (forms kind) (drop at text.now))
        result values.old values.new }
{
    let mut cursor = Fields { text, at };
    let mut read = [0; MAX_FIELDS];
    for (k, form) in forms(kind).iter().enumerate() {
        read[k] = cursor.next(*form)?;
    }
    let end = cursor.at;
    if byte(text, end) != b'\n' {
        return None;
    }
    *values = read;
    Some(end + 1)
}

// The place behind a line's LF.
pub fn line_at(
    text: &[u8],
    at: usize,
    kind: LineKind,
    values: &mut [usize; MAX_FIELDS],
) -> Option<usize>
    ensures { LineFound text.now (line_in kind (drop at text.now))
        result values.old values.new }
{
    let length = name_at(text, at, name(kind));
    if length == 0 {
        return None;
    }
    fields_at(text, at + length, kind, values)
}
