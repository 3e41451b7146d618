// A player and answers as hosts in C and Rust hold them, flat since their interface has no enums, and the calls on the
// parts of such a player.
// `capi` has the calls that hosts make, which only load and store what is theirs.
#![tactic(auto)]

ghost use Rattle.std.specs.Prelude.{◌≡◌};
ghost use Rattle.model.specs.Answers.{values};
ghost use Rattle.model.specs.Text.{text_values};
ghost use Rattle.host_player.specs.HostPlayer.{unpacked, packed, host_answer, host_text_answer};
ghost use Rattle.host_player.specs.HostPromises.{HostStarted, HostUpdated, HostSpeedSet, HostParameterSet};
ghost use Rattle.host_player.specs.HostPromises.{HostFramed};
ghost use Rattle.host_player.specs.HostParts.{host_of, parts_of_host, UnpackedParts, PackedParts};

use controller::{set, speed, start, update};
use frames::{Parts, frame};
use model::limits::{MAX_INSTANCES, MAX_PARAMETERS};
use model::{Answer, FrameKind, Lengths, Outcome, Player, Refusal, Transition};

// Start, target and duration count where `running` is not 0.
// `running` and no `Option`: C has this struct.
#[repr(C)]
#[derive(Clone, Copy)]
pub struct HostPlayer {
    pub clock: f64,
    pub speed: f64,
    pub state: usize,
    pub running: usize,
    pub start: f64,
    pub target: usize,
    pub duration: f32,
    pub parameters: [f32; MAX_PARAMETERS],
    pub instances: [f32; MAX_INSTANCES],
}

// The numbers of a flat player, without its arrays.
// Flat too, with what does not count: `HostFramed` says that a refused frame leaves all of it as it was.
// No field of `HostPlayer`: as one it would end in padding, which C's struct does not have before its arrays.
#[derive(Clone, Copy)]
pub struct HostParts {
    pub clock: f64,
    pub speed: f64,
    pub state: usize,
    pub running: usize,
    pub start: f64,
    pub target: usize,
    pub duration: f32,
}

// Number 0 is the acceptance.
// No `Result`: C has this struct.
#[repr(C)]
#[derive(Clone, Copy)]
pub struct HostAnswer {
    pub number: usize,
    pub place: usize,
}

// How many words and numbers were written, where the text was accepted.
// No `Result`: C has this struct.
#[repr(C)]
#[derive(Clone, Copy)]
pub struct HostTextAnswer {
    pub number: usize,
    pub place: usize,
    pub words: usize,
    pub numbers: usize,
}

// A flat player and the answer of the call that changed it, or not.
#[derive(Clone, Copy)]
pub struct HostOutcome {
    pub answer: HostAnswer,
    pub player: HostPlayer,
}

// ---- there and back

impl From<HostParts> for Parts {
    ghost from_gives = { UnpackedParts };

    fn from(flat: HostParts) -> Parts {
        let transition = if flat.running == 0 {
            Transition::Idle
        } else {
            Transition::Running {
                start: flat.start,
                target: flat.target,
                duration: flat.duration,
            }
        };
        Parts {
            clock: flat.clock,
            speed: flat.speed,
            state: flat.state,
            transition,
        }
    }
}

impl From<Parts> for HostParts {
    ghost from_gives = { PackedParts };

    fn from(parts: Parts) -> HostParts {
        let (running, start, target, duration) = match parts.transition {
            Transition::Idle => (0, 0.0, 0, 0.0),
            Transition::Running {
                start,
                target,
                duration,
            } => (1, start, target, duration),
        };
        HostParts {
            clock: parts.clock,
            speed: parts.speed,
            state: parts.state,
            running,
            start,
            target,
            duration,
        }
    }
}

impl From<&HostPlayer> for HostParts {
    ghost from_gives = { λ flat r. r ≡ parts_of_host flat.now };

    fn from(flat: &HostPlayer) -> HostParts {
        HostParts {
            clock: flat.clock,
            speed: flat.speed,
            state: flat.state,
            running: flat.running,
            start: flat.start,
            target: flat.target,
            duration: flat.duration,
        }
    }
}

impl From<HostPlayer> for Player {
    ghost from_gives = { λ flat r. r ≡ unpacked flat };

    fn from(flat: HostPlayer) -> Player {
        let parts = Parts::from(HostParts::from(&flat));
        Player {
            clock: parts.clock,
            speed: parts.speed,
            state: parts.state,
            transition: parts.transition,
            parameters: flat.parameters,
            instances: flat.instances,
        }
    }
}

impl From<Player> for HostPlayer {
    ghost from_gives = { λ player r. r ≡ packed player };

    fn from(player: Player) -> HostPlayer {
        let parts = HostParts::from(Parts::from(&player));
        HostPlayer {
            clock: parts.clock,
            speed: parts.speed,
            state: parts.state,
            running: parts.running,
            start: parts.start,
            target: parts.target,
            duration: parts.duration,
            parameters: player.parameters,
            instances: player.instances,
        }
    }
}

impl From<Answer> for HostAnswer {
    ghost from_gives = { λ answer r. r ≡ host_answer (values answer) };

    fn from(answer: Answer) -> HostAnswer {
        let (number, place) = match answer {
            Ok(()) => (0, 0),
            Err(refusal) => refusal.number_and_place(),
        };
        HostAnswer { number, place }
    }
}

impl From<Outcome> for HostOutcome {
    ghost from_gives = { λ outcome r. (r.answer ≡ host_answer (values outcome.answer)) × (r.player ≡ packed outcome.player) };

    fn from(outcome: Outcome) -> HostOutcome {
        HostOutcome {
            answer: HostAnswer::from(outcome.answer),
            player: HostPlayer::from(outcome.player),
        }
    }
}

impl From<Result<Lengths, Refusal>> for HostTextAnswer {
    ghost from_gives = { λ answer r. r ≡ host_text_answer (text_values answer) };

    fn from(answer: Result<Lengths, Refusal>) -> HostTextAnswer {
        match answer {
            Ok(lengths) => HostTextAnswer {
                number: 0,
                place: 0,
                words: lengths.words,
                numbers: lengths.numbers,
            },
            Err(refusal) => HostTextAnswer {
                number: refusal.reason.number(),
                place: refusal.place,
                words: 0,
                numbers: 0,
            },
        }
    }
}

// ---- start, update, speed, set

pub fn started(plan: &[u16], numbers: &[f32]) -> HostOutcome
    ensures { HostStarted plan.now numbers.now result.player result.answer }
{
    HostOutcome::from(start(plan, numbers))
}

// A line, as `with_speed`: a call by a closure would be as long.
pub fn updated(flat: HostPlayer, delta: f64) -> HostPlayer
    ensures { HostUpdated flat delta result }
{
    HostPlayer::from(update(Player::from(flat), delta))
}

pub fn with_speed(flat: HostPlayer, value: f64) -> HostPlayer
    ensures { HostSpeedSet flat value result }
{
    HostPlayer::from(speed(Player::from(flat), value))
}

pub fn parameter_set(flat: HostPlayer, parameter: usize, value: f32) -> HostOutcome
    ensures { HostParameterSet flat parameter value result.player result.answer }
{
    let outcome = set(Player::from(flat), parameter, value);
    let Ok(()) = outcome.answer else {
        return HostOutcome {
            answer: HostAnswer::from(outcome.answer),
            player: flat,
        };
    };
    HostOutcome::from(outcome)
}

// ---- frame and page frame: the player's owner lends its arrays

// What a frame hands back beside the instances: its answer, and the numbers of the player after it.
// No `Result`: `HostFramed` says of a refused frame too which parts the player has.
#[derive(Clone, Copy)]
pub struct HostFrame {
    pub answer: HostAnswer,
    pub parts: HostParts,
}

// On the flat player's parts. Refused, they are handed back as they came.
pub fn host_frame(
    kind: FrameKind,
    plan: &[u16],
    numbers: &[f32],
    parts: HostParts,
    parameters: &[f32; MAX_PARAMETERS],
    instances: &mut [f32; MAX_INSTANCES],
    ext: f64,
    output: &mut [f32],
) -> HostFrame
    ensures { HostFramed kind plan.now numbers.now
        (host_of parts parameters.now instances.old)
        ext output.old output.new
        (host_of result.parts parameters.now instances.new) result.answer }
{
    let before = Parts::from(parts);
    let frame = frame(
        kind, plan, numbers, before, parameters, instances, ext, output,
    );
    let answer = HostAnswer::from(frame.answer);
    let Ok(()) = frame.answer else {
        return HostFrame { answer, parts };
    };
    let after = Parts {
        state: frame.state,
        transition: frame.transition,
        ..before
    };
    HostFrame {
        answer,
        parts: HostParts::from(after),
    }
}
