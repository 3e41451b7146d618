// The static library: the calls for hosts in C and Rust. A player stays in the host's memory, as a flat struct. No call
// asks anything of its content.
#![tactic(auto)]

ghost use Rattle.std.specs.Prelude.{◌≡◌, ◌/◌};
ghost use Rattle.model.specs.declared.FrameKind.TheVariants as Kind;
ghost use Rattle.model.specs.Plan.{max_plan, joint_count, output_at};
ghost use Rattle.model.specs.Program.{number_bytes};
ghost use Rattle.host_player.specs.HostPromises.{HostStarted, HostUpdated, HostSpeedSet, HostParameterSet};
ghost use Rattle.host_player.specs.HostPromises.{HostFramed, HostTextRead};
ghost use Rattle.host_uses.specs.HostUses.{HostUsesFound};
ghost use Rattle.host_loops.specs.HostLoops.{HostLoopsCounted};
ghost use Rattle.capi.specs.PlayerSize.{player_bytes};

use host_loops::{HostLoops, host_loops};
use host_player::{
    HostAnswer, HostParts, HostPlayer, HostTextAnswer, host_frame, parameter_set, started, updated,
    with_speed,
};
use host_uses::{HostUses, host_uses};
use layout::{JOINT_COUNT_AT, MAX_PLAN, word};
use model::FrameKind;
use model::limits::{MAX_INSTANCES, MAX_PARAMETERS, NUMBER_BYTES};
use skeleton::output_at;

// ---- start, update, speed, set

// C calls each by its name. They share no function: each only stores what its call by value in host_player answers.
#[unsafe(no_mangle)]
pub extern "C" fn gentianlathe_start(
    plan: &[u16],
    numbers: &[f32],
    player: &mut HostPlayer,
) -> HostAnswer
    ensures { HostStarted plan.now numbers.now player.new result }
{
    let outcome = started(plan, numbers);
    *player = outcome.player;
    outcome.answer
}

#[unsafe(no_mangle)]
pub extern "C" fn gentianlathe_update(player: &mut HostPlayer, delta: f64)
    ensures { HostUpdated player.old delta player.new }
{
    *player = updated(*player, delta);
}

#[unsafe(no_mangle)]
pub extern "C" fn gentianlathe_speed(player: &mut HostPlayer, value: f64)
    ensures { HostSpeedSet player.old value player.new }
{
    *player = with_speed(*player, value);
}

#[unsafe(no_mangle)]
pub extern "C" fn gentianlathe_set(
    player: &mut HostPlayer,
    parameter: usize,
    value: f32,
) -> HostAnswer
    ensures { HostParameterSet player.old parameter value player.new result }
{
    let outcome = parameter_set(*player, parameter, value);
    *player = outcome.player;
    outcome.answer
}

// ---- frame and page frame: the host's arrays are lent where they lie

fn frame_in_place(
    kind: FrameKind,
    plan: &[u16],
    numbers: &[f32],
    player: &mut HostPlayer,
    ext: f64,
    output: &mut [f32],
) -> HostAnswer
    ensures { HostFramed kind plan.now numbers.now player.old ext
        output.old output.new player.new result }
{
    let parts = HostParts::from(&*player);
    let frame = host_frame(
        kind,
        plan,
        numbers,
        parts,
        &player.parameters,
        &mut player.instances,
        ext,
        output,
    );
    // Stored one by one, since the arrays beside them stay where they are.
    player.clock = frame.parts.clock;
    player.speed = frame.parts.speed;
    player.state = frame.parts.state;
    player.running = frame.parts.running;
    player.start = frame.parts.start;
    player.target = frame.parts.target;
    player.duration = frame.parts.duration;
    frame.answer
}

// C calls each kind by its name; both are this one function.
#[unsafe(no_mangle)]
pub extern "C" fn gentianlathe_frame(
    plan: &[u16],
    numbers: &[f32],
    player: &mut HostPlayer,
    ext: f64,
    output: &mut [f32],
) -> HostAnswer
    ensures { HostFramed Kind.Ordinary plan.now numbers.now player.old ext
        output.old output.new player.new result }
{
    frame_in_place(FrameKind::Ordinary, plan, numbers, player, ext, output)
}

#[unsafe(no_mangle)]
pub extern "C" fn gentianlathe_page_frame(
    plan: &[u16],
    numbers: &[f32],
    player: &mut HostPlayer,
    ext: f64,
    output: &mut [f32],
) -> HostAnswer
    ensures { HostFramed Kind.Page plan.now numbers.now player.old ext
        output.old output.new player.new result }
{
    frame_in_place(FrameKind::Page, plan, numbers, player, ext, output)
}

// ---- what a figure can use

#[unsafe(no_mangle)]
pub extern "C" fn gentianlathe_uses(plan: &[u16], numbers: &[f32]) -> HostUses
    ensures { HostUsesFound plan.now numbers.now result }
{
    host_uses(plan, numbers)
}

// ---- loops played, and the rest

#[unsafe(no_mangle)]
pub extern "C" fn gentianlathe_loops(
    plan: &[u16],
    numbers: &[f32],
    player: &HostPlayer,
    state: usize,
    node: usize,
    time: f32,
) -> HostLoops
    ensures { HostLoopsCounted plan.now numbers.now player.now state node time result }
{
    host_loops(plan, numbers, *player, state, node, time)
}

// ---- text

#[unsafe(no_mangle)]
pub extern "C" fn gentianlathe_read_text(
    text: &[u8],
    plan: &mut [u16],
    numbers: &mut [f32],
) -> HostTextAnswer
    ensures { HostTextRead text.now plan.old plan.new
        numbers.old numbers.new result }
{
    HostTextAnswer::from(text::read(text, plan, numbers))
}

// ---- sizes

// Of the player, in bytes: six fields of 8, then floats of 4, up to a multiple of 8.
const PLAYER_SIZE: usize = (6 * 8 + 4 * (1 + MAX_PARAMETERS + MAX_INSTANCES) + 7) / 8 * 8;

// For a host to hold its own struct to. The contract takes it from the struct's type.
#[unsafe(no_mangle)]
pub extern "C" fn gentianlathe_player_size() -> usize
    ensures { result ≡ player_bytes }
{
    PLAYER_SIZE
}

// How many floats a frame of this plan writes, if the plan passes.
#[unsafe(no_mangle)]
pub extern "C" fn gentianlathe_output_length(plan: &[u16]) -> usize
    ensures { result ≡ output_at (joint_count plan.now) }
{
    output_at(word(plan, JOINT_COUNT_AT))
}

// No text has more words.
#[unsafe(no_mangle)]
pub extern "C" fn gentianlathe_most_words() -> usize
    ensures { result ≡ max_plan }
{
    MAX_PLAN
}

// No text of so many bytes has more numbers.
#[unsafe(no_mangle)]
pub extern "C" fn gentianlathe_most_numbers(text_length: usize) -> usize
    ensures { result ≡ text_length / number_bytes }
{
    text_length / NUMBER_BYTES
}
