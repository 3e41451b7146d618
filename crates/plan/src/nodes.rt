// The nodes of a state. Marks say which of them are inputs so far.
ghost use Rattle.std.specs.Prelude.{◌≡◌, false, ◌+◌, ◌*◌, ◌≤◌, get_or, length};
ghost use Rattle.model.specs.Answers.{values, each, require};
ghost use Rattle.model.specs.Text.{max_word};
ghost use Rattle.model.specs.Plan.{max_nodes, max_plan};
ghost use Rattle.plan.specs.Parts.{is_free, check_clip_node, check_blend_node, check_node_at, marks_after, clip_node_after};
ghost use Rattle.plan.specs.Parts.{CountsOf, HasInputs, NodesChecked};

use crate::words::{Counts, word_below, word_is, word_up_to};
use layout::{Kind, NODE_WORDS, word};
use model::limits::{MAX_CLIP_NODES, MAX_NODES};
use model::{Answer, Reason};

// A mark for each node, and one more, which is never looked at: where marks are copied, 32 bytes make the whole check
// twice as fast as 31 (docs/DECISIONS.md, 50). Here they are written and looked through in place.
pub const MARKS: usize = MAX_NODES + 1;

// A node by its number in its state: the word of its kind, and the number that it has if it is a clip.
// It has no ghost field: laws of `check_node_at` make such records of any numbers, and would have to prove it there.
#[derive(Clone, Copy)]
pub struct NodePlace {
    pub i: usize,
    pub at: usize,
    pub clip_node: usize,
}

// The words after the kind of a clip node. One clip node too many is refused at its kind.
fn check_clip_node(plan: &[u16], node: NodePlace, counts: Counts) -> Answer
    requires { node.at ≤ max_word }
    ensures { values result ≡ check_clip_node plan.now node counts }
{
    let at = node.at;
    if node.clip_node >= MAX_CLIP_NODES {
        return Err(Reason::Count.at(at));
    }
    word_below(plan, Reason::Node, at + 1, counts.clips)?;
    word_is(plan, Reason::Node, at + 2, word(plan, at + 2) == 0)?;
    word_is(plan, Reason::Node, at + 3, word(plan, at + 3) == 0)
}

// An input of node i is an earlier node that is not one yet.
fn is_free(used: &[bool; MARKS], k: usize, i: usize) -> bool
    requires { i ≤ max_nodes }
    ensures { result ≡ is_free used.now i k }
{
    k < i && !used[k]
}

// The words after the kind of a lerp or additive node.
fn check_blend_node(plan: &[u16], node: NodePlace, counts: Counts, used: &[bool; MARKS]) -> Answer
    requires { (node.at ≤ max_word) × (node.i ≤ max_nodes) }
    ensures { values result ≡ check_blend_node plan.now node counts used.now }
{
    let at = node.at;
    let a = word(plan, at + 1);
    let b = word(plan, at + 2);
    word_is(plan, Reason::Node, at + 1, is_free(used, a, node.i))?;
    word_is(
        plan,
        Reason::Node,
        at + 2,
        is_free(used, b, node.i) & (a != b),
    )?;
    word_below(plan, Reason::Node, at + 3, counts.parameters)
}

fn check_node(plan: &[u16], node: NodePlace, counts: Counts, used: &[bool; MARKS]) -> Answer
    requires { (node.at ≤ max_word) × (node.i ≤ max_nodes) }
    ensures { values result ≡ check_node_at plan.now node counts used.now }
{
    word_up_to(plan, Reason::Node, node.at, 2)?;
    match Kind::from(word(plan, node.at)) {
        Kind::Clip => check_clip_node(plan, node, counts),
        Kind::Lerp | Kind::Additive => check_blend_node(plan, node, counts, used),
    }
}

// The marks after the node whose kind is the word `at`.
fn mark(plan: &[u16], at: usize, used: &mut [bool; MARKS])
    requires { (at ≤ max_word) × HasInputs plan.now at }
    ensures { used.new ≡ marks_after plan.now at used.old }
{
    match Kind::from(word(plan, at)) {
        Kind::Clip => {}
        Kind::Lerp | Kind::Additive => {
            used[word(plan, at + 1)] = true;
            used[word(plan, at + 2)] = true;
        }
    }
}

// The clip node after that node.
fn counted(plan: &[u16], at: usize, clip_node: usize) -> usize
    requires { clip_node ≤ max_word }
    ensures { result ≡ clip_node_after plan.now at clip_node }
{
    match Kind::from(word(plan, at)) {
        Kind::Clip => clip_node + 1,
        Kind::Lerp | Kind::Additive => clip_node,
    }
}

// The first n nodes of the state whose K is the word `at`. Their marks are left in `used`.
// At a place, like all of the check: words.rt says why.
pub fn check_nodes(
    plan: &[u16],
    at: usize,
    n: usize,
    counts: Counts,
    first_clip_node: usize,
    used: &mut [bool; MARKS],
) -> Answer
    requires { (at + 1 + 4 * n ≤ max_word)
        × (n ≤ max_nodes)
        × (first_clip_node ≤ max_plan)
        × CountsOf plan.now counts }
    ensures { NodesChecked plan.now at first_clip_node n used.new result }
{
    *used = [false; MARKS];
    let mut clip_node = first_clip_node;
    for i in 0..n {
        let node = NodePlace {
            i,
            at: at + 1 + NODE_WORDS * i,
            clip_node,
        };
        check_node(plan, node, counts, used)?;
        mark(plan, node.at, used);
        clip_node = counted(plan, node.at, clip_node);
    }
    Ok(())
}

// The nodes with these marks are inputs; else the refusal is at the place of K.
pub fn check_used(used: &[bool], place: usize) -> Answer
    ensures { values result ≡ each (length used.now) (λ k. require (get_or used.now k false) 4 place) }
{
    if used.contains(&false) {
        return Err(Reason::Node.at(place));
    }
    Ok(())
}

#[cfg(test)]
mod tests {
    use super::*;
    use model::limits::ROOT;

    // A joint, a clip of one sample and a state of one node, which begins at its K, the word 8.
    const STATE: usize = 8;

    const PLAN: [u16; 13] = [1, 1, 0, 1, 0, ROOT as u16, 1, 0, 1, 0, 0, 0, 0];

    const COUNTS: Counts = Counts {
        clips: 1,
        parameters: 0,
        states: 1,
    };

    // With its node, and where the plan ends before it. At word 0 no state begins, and what is read from there as a node has
    // itself for an input.
    #[test]
    fn check_nodes_has_a_reason(rt: HostRuntime) {
        let mut used = [false; MARKS];
        let whole = check_nodes(&PLAN, STATE, 1, COUNTS, 0, &mut used);
        assert!(rt; whole == Ok(()));
        let ended = check_nodes(&PLAN[..STATE + 1], STATE, 1, COUNTS, 0, &mut used);
        assert!(rt; ended == Err(Reason::PlanEnded.at(STATE + 1)));
        let misread = check_nodes(&PLAN, 0, 1, COUNTS, 0, &mut used);
        assert!(rt; misread == Err(Reason::Node.at(2)));
    }
}
