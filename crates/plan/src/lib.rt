// The check of a plan, front to back in one pass, and the layout that it finds.
#![tactic(auto)]

ghost use Rattle.std.specs.Prelude.{◌≡◌, length, IfOk};
ghost use Rattle.model.specs.Answers.{values};
ghost use Rattle.model.specs.Check.{check};
ghost use Rattle.plan.specs.Checked.{PlanChecked};
ghost use Rattle.model.specs.Plan.{state_count, transitions_before, plan_end};
ghost use Rattle.layout.specs.Layout.{layout_of, Passes};
ghost use Rattle.plan.specs.Parts.{WordsChecked, Worded, LengthsChecked};

use crate::states::{States, check_states};
use crate::words::{Counts, check_clips, check_header, check_parents};
use layout::passed::{Figure, Plan};
use layout::{
    CLIP_COUNT_AT, INITIAL_STATE_AT, JOINT_COUNT_AT, Layout, PARAMETER_COUNT_AT, STATE_COUNT_AT,
    TRANSITION_NUMBERS, sample_count_at, samples_before, word,
};
use model::limits::POSE_FLOATS;
use model::{Answer, Reason, Refusal};

pub mod nodes;
pub mod states;
pub mod words;

// Without what an acceptance hands back.
pub fn answer_of<T: Copy>(checked: Result<T, Refusal>) -> Answer
    ensures { values result ≡ values checked }
{
    checked.map(|_| ())
}

// Refusals 1 to 5 and 14: every word that the plan says it has.
fn check_words(plan: &[u16]) -> Result<States, Refusal>
    ensures { WordsChecked plan.now result }
{
    check_header(plan)?;
    let joints = word(plan, JOINT_COUNT_AT);
    check_parents(plan, joints)?;
    let clips = word(plan, CLIP_COUNT_AT);
    check_clips(plan, joints, clips)?;
    let counts = Counts {
        clips,
        parameters: word(plan, PARAMETER_COUNT_AT),
        states: word(plan, STATE_COUNT_AT),
    };
    check_states(plan, sample_count_at(joints, clips), counts)
}

// The layout of a plan whose words passed, for so many transitions.
fn laid_out(plan: &[u16], transitions: usize) -> Layout
    requires { Worded plan.now × (transitions ≡ transitions_before plan.now (state_count plan.now)) }
    ensures { result ≡ layout_of plan.now }
{
    let joints = word(plan, JOINT_COUNT_AT);
    let clips = word(plan, CLIP_COUNT_AT);
    Layout {
        joints,
        clips,
        states: word(plan, STATE_COUNT_AT),
        initial: word(plan, INITIAL_STATE_AT),
        states_at: sample_count_at(joints, clips),
        poses_at: clips + TRANSITION_NUMBERS * transitions,
    }
}

// Refusals 6 and 7: words left over, then the count of numbers.
fn check_lengths(
    plan: &[u16],
    numbers: usize,
    end: usize,
    transitions: usize,
) -> Result<Layout, Refusal>
    requires { Worded plan.now
        × (end ≡ plan_end plan.now)
        × (transitions ≡ transitions_before plan.now (state_count plan.now)) }
    ensures { LengthsChecked plan.now numbers result }
{
    if end < plan.len() {
        return Err(Reason::WordsLeft.at(end));
    }
    let layout = laid_out(plan, transitions);
    let samples = samples_before(plan, layout.joints, layout.clips);
    if numbers != layout.poses_at + samples * layout.joints * POSE_FLOATS {
        return Err(Reason::NumberCount.at(0));
    }
    Ok(layout)
}

// Refusals 1 to 7 and 14 for a plan with so many numbers.
// Not inlined: so `figure` is, whose figure then needs no memory, and every call shares this one check.
#[inline(never)]
pub fn check(plan: &[u16], numbers: usize) -> Result<Layout, Refusal>
    ensures { PlanChecked plan.now numbers result }
{
    let words = check_words(plan)?;
    check_lengths(plan, numbers, words.end, words.transitions)
}

// The figure of a plan and its numbers, where both pass.
pub fn figure<'a>(plan: &'a [u16], numbers: &'a [f32]) -> Result<Figure<'a>, Refusal>
    ensures answer { values result ≡ check plan.entry.now (length numbers.entry.now) }
    ensures words { IfOk result (λ figure. figure.plan.words ≡ plan.entry) }
    ensures numbers { IfOk result (λ figure. figure.numbers ≡ numbers.entry) }
{
    let layout = check(plan, numbers.len())?;
    Ok(Figure {
        plan: Plan {
            words: plan,
            layout,
        },
        numbers,
    })
}

// The plan of words of which it is known that they pass, with whatever count of numbers.
pub fn passed_plan<'a>(words: &'a [u16]) -> Plan<'a>
    requires { Passes words.now }
    ensures { result.words ≡ words.entry }
{
    let Ok(states) = check_words(words) else {
        unreachable!();
    };
    Plan {
        words,
        layout: laid_out(words, states.transitions),
    }
}
