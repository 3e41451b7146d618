// A frame and a page frame on the parts of a player, which their owner lends, so that nothing large is copied.
// `controller` has both on a player by value.
#![tactic(auto)]

ghost use Rattle.std.specs.Prelude.{◌≡◌, true, ◌<◌};
ghost use Rattle.model.specs.declared.Transition.TheVariants as Transition;
ghost use Rattle.model.specs.Plan.{state_count};
ghost use Rattle.model.specs.Controller.{is_target_below, has_states};
ghost use Rattle.layout.specs.Layout.{state_layout};
ghost use Rattle.skeleton.specs.Buffer.{HasRoom};
ghost use Rattle.frames.specs.Parts.{parts_of, moved, player_of, FramedParts, FrameAnswered, FramePlayed};

use blend_tree::StateAt;
use float::narrow;
use layout::passed::{Figure, State};
use layout::{Layout, StateLayout};
use model::limits::{MAX_INSTANCES, MAX_PARAMETERS};
use model::{Answer, FrameKind, Player, Reason, Transition};
use output_pose::{show, show_joint};
use plan::{answer_of, figure};
use skeleton::output_at;
use transitions::{Stepped, step};

// What a frame reads of a player beside its arrays.
// Beside `Player`, which has the arrays in it: a host lends those where they lie, and nothing large is copied.
#[derive(Clone, Copy)]
pub struct Parts {
    pub clock: f64,
    pub speed: f64,
    pub state: usize,
    pub transition: Transition,
}

impl From<&Player> for Parts {
    ghost from_gives = { λ player r. r ≡ parts_of player.now };

    fn from(player: &Player) -> Parts {
        Parts {
            clock: player.clock,
            speed: player.speed,
            state: player.state,
            transition: player.transition,
        }
    }
}

// The answer, and the parts that a frame hands back; the instances are changed where they are.
// No `Result`: `FramedParts` says of a refused frame too what it hands back.
// No `Stepped` in it: both callers would read the two fields a level deeper, for one line less here.
#[derive(Clone, Copy)]
pub struct FrameParts {
    pub answer: Answer,
    pub state: usize,
    pub transition: Transition,
}

// By match: with `matches!` it would be two of them, or the negation of a target that is not below.
fn is_target_below(n: usize, transition: Transition) -> bool
    ensures { result ≡ is_target_below n transition }
{
    match transition {
        Transition::Idle => true,
        Transition::Running { target, .. } => target < n,
    }
}

// Whether a player's state and running target are among so many states: else refusal 9.
pub fn has_states(states: usize, state: usize, transition: Transition) -> bool
    ensures { result ≡ has_states states state transition }
{
    (state < states) & is_target_below(states, transition)
}

// The layout of a state, which is often that of the one at hand.
fn layout_of(at_hand: &State<'_>, state: usize) -> StateLayout
    requires { state < state_count at_hand.now.plan.words.now }
    ensures { result ≡ state_layout at_hand.now.plan.words.now state }
{
    if state == at_hand.here.state {
        return at_hand.here;
    }
    at_hand.plan.state_layout(state)
}

// One joint, one clip, and no transition. It is asked here, since the way through `show` costs more than the pose.
fn is_single(layout: Layout, here: StateLayout, transition: Transition) -> bool
    ensures { result ≡ true → (layout.joints ≡ 1) × (here.nodes ≡ 1) × (transition ≡ Transition.Idle) }
{
    let Transition::Idle = transition else {
        return false;
    };
    layout.joints == 1 && here.nodes == 1
}

// Steps 1 to 3 of a frame that nothing refuses.
fn play(
    kind: FrameKind,
    figure: &Figure<'_>,
    parts: Parts,
    parameters: &[f32; MAX_PARAMETERS],
    instances: &mut [f32; MAX_INSTANCES],
    ext: f64,
    output: &mut [f32],
) -> Stepped
    requires state { parts.state < state_count figure.now.plan.words.now }
    requires target { is_target_below (state_count figure.now.plan.words.now) parts.transition ≡ true }
    requires room { HasRoom figure.now.plan.words.now output.old }
    ensures { FramePlayed kind figure.now.plan.words.now figure.now.numbers.now
        (player_of parts parameters.now instances.old)
        ext output.old output.new
        (player_of (moved parts result.state result.transition) parameters.now instances.new) }
{
    let instant = parts.clock + ext;
    let before = figure.plan.state(parts.state);
    let stepped = step(
        &before,
        figure.numbers,
        parts.transition,
        parameters,
        instant,
    );
    let state = StateAt {
        figure: *figure,
        here: layout_of(&before, stepped.state),
        time: narrow(parts.clock + ext * parts.speed),
    };
    if is_single(figure.plan.layout, state.here, stepped.transition) {
        show_joint(kind, &state, instances, output);
        return stepped;
    }
    show(
        kind,
        &state,
        stepped.transition,
        parameters,
        instances,
        instant,
        output,
    );
    stepped
}

// A refused frame leaves the parts as they were.
fn kept(refusal: Answer, parts: Parts) -> FrameParts
    ensures { (result.answer ≡ refusal) × (result.state ≡ parts.state) × (result.transition ≡ parts.transition) }
{
    FrameParts {
        answer: refusal,
        state: parts.state,
        transition: parts.transition,
    }
}

// Of a plan that passed: the player's state and running target must be the plan's, and the output long enough.
fn frame_answer(figure: &Figure<'_>, parts: Parts, length: usize) -> Answer
    ensures { FrameAnswered figure.now.plan.words.now figure.now.numbers.now parts length result }
{
    let layout = figure.plan.layout;
    if !has_states(layout.states, parts.state, parts.transition) {
        return Err(Reason::State.at(0));
    }
    if length < output_at(layout.joints) {
        return Err(Reason::Output.at(0));
    }
    Ok(())
}

// One function for both kinds, so that the compiler can inline the work.
// Its parameters are those of the calls, with a player's arrays as a C host lends them (`host_frame`).
pub fn frame(
    kind: FrameKind,
    plan: &[u16],
    numbers: &[f32],
    parts: Parts,
    parameters: &[f32; MAX_PARAMETERS],
    instances: &mut [f32; MAX_INSTANCES],
    ext: f64,
    output: &mut [f32],
) -> FrameParts
    ensures { FramedParts kind plan.now numbers.now parts parameters.now ext
        instances.old instances.new output.old output.new result }
{
    // Lent anew, so that its pointer and length are loaded one by one: a load of both would wait for a C host's two stores.
    let checked = figure(&*plan, numbers);
    let Ok(figure) = checked else {
        return kept(answer_of(checked), parts);
    };
    let answer = frame_answer(&figure, parts, output.len());
    let Ok(()) = answer else {
        return kept(answer, parts);
    };
    let stepped = play(kind, &figure, parts, parameters, instances, ext, output);
    FrameParts {
        answer,
        state: stepped.state,
        transition: stepped.transition,
    }
}
