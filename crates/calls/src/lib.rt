// Lists of calls as text, a call a line.
#![tactic(auto)]

ghost use Rattle.std.specs.Prelude.{List, ◌≡◌, ◌≤◌, ◌<◌, ℕ, Float, length, get_or, drop};
ghost use Rattle.std.specs.Float.{binary32, binary64};
ghost use Rattle.std.specs.Float.Ieee.{of_bits};
ghost use Rattle.model.specs.Run as Run;
ghost use Rattle.model.specs.Text as Text;
ghost use Rattle.fields.specs.Found.{found};
ghost use Rattle.calls.specs.CallText.{behind_comma, decimal_field, bits_field, wide_field};
ghost use Rattle.calls.specs.CallText.{line_end, time_line, set_line, frame_line, loops_line};
ghost use Rattle.calls.specs.CallText.{call_in, line_count, call_list};
ghost use Rattle.calls.specs.Read.{call_of, Makes, Reads, line_read, call_at, left, Skipped, Stepped, CallRead, checked};

use fields::{Field, name_at, read_field, read_wide_bits};
use float::{f32_from_bits, f64_from_bits};
use model::limits::MAX_WORD;
use model::{FieldForm, FrameKind};

// The longest list that programs read.
pub const MAX_LIST: usize = 262_144;

const WORD: FieldForm = FieldForm::Decimal {
    limit: MAX_WORD as u16,
};

// What a line asks for. A frame has its ext and the output's length.
#[derive(Clone, Copy)]
pub enum Call {
    Update {
        delta: f64,
    },
    Speed {
        value: f64,
    },
    Set {
        parameter: usize,
        value: f32,
    },
    Frame {
        kind: FrameKind,
        ext: f64,
        length: usize,
    },
    Loops {
        state: usize,
        node: usize,
        time: f32,
    },
}

// A call and the place behind its line.
#[derive(Clone, Copy)]
pub struct CallAt {
    pub call: Call,
    pub end: usize,
}

// The first malformed line of a list, counted from 1, and how many lines the list has.
#[derive(Clone, Copy)]
pub struct Malformed {
    pub line: usize,
    pub lines: usize,
}

// ---- a line, from some place of it on

// A cursor of its own beside that of text::lines, whose form document 01 prescribes: it walks over names and 64-bit
// floats too.
#[derive(Clone, Copy)]
struct Cursor<'a> {
    text: &'a [u8],
    at: usize,
}

impl Cursor<'_> {
    // Whether some bytes stand here, none of which is 0; then the cursor goes behind them.
    fn skip(&mut self, bytes: &[u8]) -> bool
        requires { (0 < length bytes.now)
            × ((i : ℕ) → i < length bytes.now → 1 ≤ get_or bytes.now i 0) }
        ensures { Skipped bytes.now self.old self.new result }
    {
        let length = name_at(self.text, self.at, bytes);
        self.at += length;
        length > 0
    }

    // The value of the next field, behind a comma; the cursor goes behind it.
    fn field<F: Fn(&[u8], usize) -> Option<Field>>(&mut self, read: F) -> Option<usize>
        requires { F.IsAlwaysCallable read }
        ensures { (parse : List ℕ → Text.Field) → Reads (F.post read) parse
            → Stepped (λ v. v) (behind_comma parse (left self.old)) self.old self.new result }
    {
        if !self.skip(b",") {
            return None;
        }
        let field = read(self.text, self.at)?;
        self.at = field.end;
        Some(field.value)
    }

    fn decimal(&mut self) -> Option<usize>
        ensures { Stepped (λ v. v) (decimal_field (left self.old)) self.old self.new result }
    {
        self.field(|text, at| read_field(text, at, WORD))
    }

    fn float(&mut self) -> Option<f32>
        ensures { Stepped (of_bits binary32) (bits_field (left self.old)) self.old self.new result }
    {
        let bits = self.field(|text, at| read_field(text, at, FieldForm::Bits))?;
        Some(f32_from_bits(bits as u32))
    }

    fn wide_float(&mut self) -> Option<f64>
        ensures { Stepped (of_bits binary64) (wide_field (left self.old)) self.old self.new result }
    {
        let bits = self.field(read_wide_bits)?;
        Some(f64_from_bits(bits as u64))
    }

    // A call, if its line ends here.
    fn ends(mut self, call: Call) -> Option<CallAt>
        ensures { CallRead self.entry.text.now (line_end (call_of call) (left self.entry)) result }
    {
        self.skip(b"\n").then_some(CallAt { call, end: self.at })
    }
}

// ---- lines, from behind their names on

// Update or speed.
fn time_line<F: Fn(f64) -> Call>(mut line: Cursor, call: F) -> Option<CallAt>
    requires { F.IsAlwaysCallable call }
    ensures { (make : Float → Run.Call) → Makes (F.post call) make
        → CallRead line.entry.text.now (time_line make (left line.entry)) result }
{
    let time = line.wide_float()?;
    line.ends(call(time))
}

fn set_line(mut line: Cursor) -> Option<CallAt>
    ensures { CallRead line.entry.text.now (set_line (left line.entry)) result }
{
    let parameter = line.decimal()?;
    let value = line.float()?;
    line.ends(Call::Set { parameter, value })
}

// `kind` picks nothing: it goes into the call.
fn frame_line(mut line: Cursor, kind: FrameKind) -> Option<CallAt>
    ensures { CallRead line.entry.text.now (frame_line kind (left line.entry)) result }
{
    let ext = line.wide_float()?;
    let length = line.decimal()?;
    line.ends(Call::Frame { kind, ext, length })
}

fn loops_line(mut line: Cursor) -> Option<CallAt>
    ensures { CallRead line.entry.text.now (loops_line (left line.entry)) result }
{
    let state = line.decimal()?;
    let node = line.decimal()?;
    let time = line.float()?;
    line.ends(Call::Loops { state, node, time })
}

// The call in the line that begins at `at`; none where that line is malformed.
// Of a text and a place, as docs/PROOFS.md has it. The names are tried in turn, as in `call_in`: to match on one, its
// end would have to be found first.
pub fn call_at(text: &[u8], at: usize) -> Option<CallAt>
    ensures value { result ≡ call_at text.now at }
    ensures result_value { line_read text.now result ≡ call_in (drop at text.now) }
{
    let mut line = Cursor { text, at };
    if line.skip(b"update") {
        time_line(line, |delta| Call::Update { delta })
    } else if line.skip(b"speed") {
        time_line(line, |value| Call::Speed { value })
    } else if line.skip(b"set") {
        set_line(line)
    } else if line.skip(b"frame") {
        frame_line(line, FrameKind::Ordinary)
    } else if line.skip(b"page") {
        frame_line(line, FrameKind::Page)
    } else if line.skip(b"loops") {
        loops_line(line)
    } else {
        None
    }
}

// ---- a list

fn line_count(text: &[u8]) -> usize
    ensures { (result ≡ line_count text.now) × (result ≤ length text.now) }
{
    text.iter().filter(|b| **b == b'\n').count()
}

// How many lines a list has, if each is a call and nothing is left behind the last.
// By place and not over lines: `call_at` takes a place, and gives the one behind its line.
pub fn check_calls(text: &[u8]) -> Result<usize, Malformed>
    ensures { result ≡ checked (line_count text.now) (call_list text.now) }
{
    let lines = line_count(text);
    let mut at = 0;
    for i in 0..lines {
        let read = call_at(text, at).ok_or(Malformed { line: i + 1, lines })?;
        at = read.end;
    }
    if at < text.len() {
        return Err(Malformed {
            line: lines + 1,
            lines,
        });
    }
    Ok(lines)
}
