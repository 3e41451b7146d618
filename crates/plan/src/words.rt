// Single words, and the parts of a plan before its states.
ghost use Rattle.std.specs.Prelude.{◌≡◌, ◌≤◌, leb, ltb};
ghost use Rattle.model.specs.Answers.{number_of, values, each};
ghost use Rattle.model.specs.Text.{max_word};
ghost use Rattle.model.specs.Plan.{word, joint_count};
ghost use Rattle.model.specs.Check.{within, word_is, check_header, check_parent, check_clip};

use layout::{
    CLIP_COUNT_AT, INITIAL_STATE_AT, JOINT_COUNT_AT, PARAMETER_COUNT_AT, PARENTS_AT,
    STATE_COUNT_AT, is_root, sample_count_at, word,
};
use model::limits::{MAX_CLIPS, MAX_JOINTS, MAX_PARAMETERS, MAX_SAMPLES, MAX_STATES};
use model::{Answer, Reason};

// The header's counts that words of states are held against.
// It has no ghost field: definitions take it beside any list of words, and `CountsOf` says whose counts these are.
#[derive(Clone, Copy)]
pub struct Counts {
    pub clips: usize,
    pub parameters: usize,
    pub states: usize,
}

// A word that is missing, or fails its test, is refused.
// What is tested is told by a bool, since some tests are not of the word alone (`is_free`, `a != b`, `is_root`).
// At a place: a plan may end anywhere, so nothing can be cut out of it beforehand, and a refusal names the place.
pub fn word_is(plan: &[u16], reason: Reason, at: usize, ok: bool) -> Answer
    ensures { values result ≡ word_is plan.now (number_of reason) at ok }
{
    if plan.len() <= at {
        return Err(Reason::PlanEnded.at(plan.len()));
    }
    if !ok {
        return Err(reason.at(at));
    }
    Ok(())
}

fn within(low: usize, x: usize, high: usize) -> bool
    ensures { result ≡ within low x high }
{
    low <= x && x <= high
}

// A line each over `word_is`, with the definitions' own test in its clause: for a range that would speak of bounds.
pub fn word_within(plan: &[u16], reason: Reason, at: usize, low: usize, high: usize) -> Answer
    ensures { values result ≡ word_is plan.now (number_of reason) at (within low (word plan.now at) high) }
{
    word_is(plan, reason, at, within(low, word(plan, at), high))
}

pub fn word_up_to(plan: &[u16], reason: Reason, at: usize, high: usize) -> Answer
    ensures { values result ≡ word_is plan.now (number_of reason) at (leb (word plan.now at) high) }
{
    word_is(plan, reason, at, word(plan, at) <= high)
}

pub fn word_below(plan: &[u16], reason: Reason, at: usize, limit: usize) -> Answer
    ensures { values result ≡ word_is plan.now (number_of reason) at (ltb (word plan.now at) limit) }
{
    word_is(plan, reason, at, word(plan, at) < limit)
}

pub fn check_header(plan: &[u16]) -> Answer
    ensures { values result ≡ check_header plan.now }
{
    word_within(plan, Reason::Count, JOINT_COUNT_AT, 1, MAX_JOINTS)?;
    word_within(plan, Reason::Count, CLIP_COUNT_AT, 1, MAX_CLIPS)?;
    word_up_to(plan, Reason::Count, PARAMETER_COUNT_AT, MAX_PARAMETERS)?;
    word_within(plan, Reason::Count, STATE_COUNT_AT, 1, MAX_STATES)?;
    word_below(
        plan,
        Reason::Count,
        INITIAL_STATE_AT,
        word(plan, STATE_COUNT_AT),
    )
}

// No parent, or an earlier joint.
fn check_parent(plan: &[u16], joints: usize, j: usize) -> Answer
    requires { (joints ≡ joint_count plan.now) × (j ≤ max_word) }
    ensures { values result ≡ check_parent plan.now j }
{
    let at = PARENTS_AT + j;
    let parent = word(plan, at);
    let good = (parent < j) || is_root(joints, parent);
    word_is(plan, Reason::Parent, at, good)
}

// Not inlined: within `check` the same loop took up to twice the time, by where it came to lie.
#[inline(never)]
pub fn check_parents(plan: &[u16], joints: usize) -> Answer
    requires { (joints ≡ joint_count plan.now) × (joints ≤ max_word) }
    ensures { values result ≡ each joints (check_parent plan.now) }
{
    for j in 0..joints {
        check_parent(plan, joints, j)?;
    }
    Ok(())
}

// A sample count, then its ending.
fn check_clip(plan: &[u16], joints: usize, c: usize) -> Answer
    requires { (joints ≡ joint_count plan.now) × (joints ≤ max_word) × (c ≤ max_word) }
    ensures { values result ≡ check_clip plan.now c }
{
    let at = sample_count_at(joints, c);
    let ending_at = at + 1;
    word_within(plan, Reason::Count, at, 0, MAX_SAMPLES)?;
    word_within(plan, Reason::Ending, ending_at, 0, 1)
}

pub fn check_clips(plan: &[u16], joints: usize, clips: usize) -> Answer
    requires { (joints ≡ joint_count plan.now) × (joints ≤ max_word) × (clips ≤ max_word) }
    ensures { values result ≡ each clips (check_clip plan.now) }
{
    for c in 0..clips {
        check_clip(plan, joints, c)?;
    }
    Ok(())
}
