// Ports controller.rs: the calls on a player. Each takes the player by value and returns it with its answer, but for
// `update_in_place`, which changes the caller's; none asks anything of its caller.
#![tactic(auto)]

ghost use Rattle.std.specs.Prelude.{◌≡◌, replicate};
ghost use Rattle.model.specs.Numbers.{0f};
ghost use Rattle.model.specs.declared.FrameKind.TheVariants.{Ordinary, Page};
ghost use Rattle.model.specs.Plan.{max_parameters, max_clip_nodes, state_count};
ghost use Rattle.model.specs.Clips.{blank_instances};
ghost use Rattle.model.specs.Controller.{blank, fresh, synchronize_states};
ghost use Rattle.model.specs.Promises.{Started, Updated, SpeedSet, ParameterSet, Framed};

use blend_tree::{SLOTS, StateAt};
use frames::Parts;
use layout::passed::Figure;
use model::limits::{INSTANCE_FLOATS, MAX_CLIP_NODES, MAX_INSTANCES, MAX_PARAMETERS};
use model::{FrameKind, Outcome, Player, Reason, Transition};
use plan::{answer_of, figure};

// Every third float: a player's instances are one array, and model's `Player` says why.
fn blank_instances() -> [f32; MAX_INSTANCES]
    ensures { result ≡ blank_instances max_clip_nodes }
{
    let mut instances = [0.0f32; MAX_INSTANCES];
    for n in 0..MAX_CLIP_NODES {
        instances[INSTANCE_FLOATS * n + 1] = 1.0;
    }
    instances
}

fn blank() -> Player
    ensures { result ≡ blank }
{
    Player {
        clock: 0.0,
        speed: 1.0,
        state: 0,
        transition: Transition::Idle,
        parameters: [0.0f32; MAX_PARAMETERS],
        instances: blank_instances(),
    }
}

// ---- start

// Every state once at time 0, with parameters that are all 0.
fn synchronize_states(
    figure: &Figure<'_>,
    parameters: &[f32; MAX_PARAMETERS],
    instances: &mut [f32; MAX_INSTANCES],
)
    requires { parameters.now ≡ replicate max_parameters 0f }
    ensures { instances.new
        ≡ synchronize_states figure.now.plan.words.now figure.now.numbers.now
        (state_count figure.now.plan.words.now)
        instances.old }
{
    let mut slots = [0u8; SLOTS];
    for s in 0..figure.plan.layout.states {
        let state = StateAt {
            figure: *figure,
            here: figure.plan.state_layout(s),
            time: 0.0,
        };
        state.synchronize(parameters, &mut slots, instances);
    }
}

fn fresh(figure: &Figure<'_>) -> Player
    ensures { result ≡ fresh figure.now.plan.words.now figure.now.numbers.now }
{
    let mut player = blank();
    player.state = figure.plan.layout.initial;
    synchronize_states(figure, &player.parameters, &mut player.instances);
    player
}

pub fn start(plan: &[u16], numbers: &[f32]) -> Outcome
    ensures { Started plan.now numbers.now result }
{
    let checked = figure(plan, numbers);
    Outcome {
        answer: answer_of(checked),
        player: match checked {
            Ok(figure) => fresh(&figure),
            Err(_) => blank(),
        },
    }
}

// ---- update, speed, set

pub fn update(mut player: Player, delta: f64) -> Player
    ensures { Updated player delta result }
{
    player.clock = player.clock + delta * player.speed;
    player
}

// `update` on the player that the caller keeps.
pub fn update_in_place(player: &mut Player, delta: f64)
    ensures { Updated player.old delta player.new }
{
    *player = update(*player, delta);
}

pub fn speed(mut player: Player, v: f64) -> Player
    ensures { SpeedSet player v result }
{
    player.speed = v;
    player
}

pub fn set(mut player: Player, n: usize, v: f32) -> Outcome
    ensures { ParameterSet player n v result }
{
    if n >= MAX_PARAMETERS {
        return Outcome {
            answer: Err(Reason::Parameter.at(0)),
            player,
        };
    }
    player.parameters[n] = v;
    Outcome {
        answer: Ok(()),
        player,
    }
}

// ---- frame and page frame

// Of either kind, over the player's parts.
fn framed(
    kind: FrameKind,
    plan: &[u16],
    numbers: &[f32],
    player: Player,
    ext: f64,
    output: &mut [f32],
) -> Outcome
    ensures { Framed kind plan.now numbers.now player ext
        output.old output.new result }
{
    let mut instances = player.instances;
    let done = frames::frame(
        kind,
        plan,
        numbers,
        Parts::from(&player),
        &player.parameters,
        &mut instances,
        ext,
        output,
    );
    Outcome {
        answer: done.answer,
        player: Player {
            state: done.state,
            transition: done.transition,
            instances,
            ..player
        },
    }
}

// Two calls over one function, since README and docs/PROOFS.md name both.
pub fn frame(plan: &[u16], numbers: &[f32], player: Player, ext: f64, output: &mut [f32]) -> Outcome
    ensures { Framed Ordinary plan.now numbers.now player ext
        output.old output.new result }
{
    framed(FrameKind::Ordinary, plan, numbers, player, ext, output)
}

pub fn page_frame(
    plan: &[u16],
    numbers: &[f32],
    player: Player,
    ext: f64,
    output: &mut [f32],
) -> Outcome
    ensures { Framed Page plan.now numbers.now player ext
        output.old output.new result }
{
    framed(FrameKind::Page, plan, numbers, player, ext, output)
}
