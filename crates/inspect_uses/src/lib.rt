// What `inspect uses` prints: which states, parameters and clips a figure can use.
// It is not printed by `Display`: the head of `printing` says why.
#![tactic(auto)]

ghost use Rattle.std.specs.Prelude.{◌+◌, ◌*◌, ◌≤◌, length};
ghost use Rattle.model.specs.Plan.{max_states, max_parameters, max_clips, state_count, parameter_count, clip_count};
ghost use Rattle.printing.specs.Written.{HasRoom, WroteUpTo, Front};
ghost use Rattle.inspect_uses.specs.UsesText.{mark_line, mark_lines, use_lines, uses_shown};
ghost use Rattle.inspect_uses.specs.Sizes.{name_size, mark_size, uses_size, max_uses_printed};

use layout::{CLIP_COUNT_AT, PARAMETER_COUNT_AT, STATE_COUNT_AT, word};
use model::Uses;
use printing::Writer;
use report::put_answer;
use uses::uses;

fn put_mark(w: &mut Writer<'_>, name: &[u8], k: usize, mark: bool)
    requires { (length name.now ≤ name_size) × HasRoom mark_size w.old }
    ensures { WroteUpTo mark_size (mark_line name.now k mark) w.old w.new }
{
    w.put_bytes(name);
    w.put_decimal(k);
    w.put_decimal(usize::from(mark));
    w.put_bytes(b"\n");
}

// A line for each mark of a kind.
fn put_marks(w: &mut Writer<'_>, name: &[u8], marks: &[bool])
    requires { (length name.now ≤ name_size) × HasRoom (mark_size * length marks.now) w.old }
    ensures { WroteUpTo (mark_size * length marks.now)
        (mark_lines name.now (length marks.now) marks.now) w.old w.new }
{
    for (k, mark) in marks.iter().enumerate() {
        put_mark(w, name, k, *mark);
    }
}

// The lines of a figure that was not refused.
#[tactic(auto, unfolding(model::specs::Plan::state_count, model::specs::Plan::parameter_count, model::specs::Plan::clip_count))]
fn put_uses(w: &mut Writer<'_>, plan: &[u16], marks: &Uses)
    requires { (state_count plan.now ≤ max_states)
        × (parameter_count plan.now ≤ max_parameters)
        × (clip_count plan.now ≤ max_clips)
        × HasRoom uses_size w.old }
    ensures { WroteUpTo uses_size
        (use_lines plan.now marks.now.states marks.now.parameters marks.now.clips)
        w.old w.new }
{
    let states = word(plan, STATE_COUNT_AT);
    let parameters = word(plan, PARAMETER_COUNT_AT);
    let clips = word(plan, CLIP_COUNT_AT);
    put_marks(w, b"state", &marks.states[..states]);
    put_marks(w, b"parameter", &marks.parameters[..parameters]);
    put_marks(w, b"clip", &marks.clips[..clips]);
}

// What `inspect uses` prints of a figure, over the front of `out`, and how many bytes that is; the others are left.
// How many bytes, and not their slice: the promise `Front` is about all of `out`, what is left too.
pub fn show_uses(plan: &[u16], numbers: &[f32], out: &mut [u8]) -> usize
    requires { max_uses_printed ≤ length out.old }
    ensures { Front (uses_shown plan.now numbers.now) out.old out.new result }
{
    let mut w = Writer::new(out);
    match uses(plan, numbers) {
        Ok(marks) => {
            put_answer(&mut w, Ok(()));
            put_uses(&mut w, plan, &marks);
        }
        Err(refusal) => put_answer(&mut w, Err(refusal)),
    }
    w.at
}
