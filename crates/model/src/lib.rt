// The types of the interface. What they mean is defined in specs/, one file for each section of document 01 and each card of document 02.
#![tactic(auto)]

ghost use Rattle.std.specs.Prelude.{◌≡◌};
ghost use Rattle.model.specs.Answers.{number_of, values, refused};

use crate::limits::{MAX_CLIPS, MAX_INSTANCES, MAX_PARAMETERS, MAX_STATES};
pub use reasons::Unnamed;

pub mod limits;
mod reasons;

#[derive(Clone, Copy)]
pub struct Vector3 {
    pub x: f32,
    pub y: f32,
    pub z: f32,
}

#[derive(Clone, Copy)]
pub struct Quaternion {
    pub w: f32,
    pub x: f32,
    pub y: f32,
    pub z: f32,
}

// The Rust's QVTransform: eight floats in three parts.
#[derive(Clone, Copy)]
pub struct Pose {
    pub translation: Vector3,
    pub scale: f32,
    pub rotation: Quaternion,
}

// A row of a matrix: `m.r1.c2` is the Rust's `m[1][2]`.
#[derive(Clone, Copy)]
pub struct Row {
    pub c0: f32,
    pub c1: f32,
    pub c2: f32,
    pub c3: f32,
}

#[derive(Clone, Copy)]
pub struct Matrix4 {
    pub r0: Row,
    pub r1: Row,
    pub r2: Row,
    pub r3: Row,
}

// What the Rust's ClipInstance holds beside its clip: start time, playback rate and time offset.
#[derive(Clone, Copy)]
pub struct ClipInstance {
    pub start: f32,
    pub rate: f32,
    pub offset: f32,
}

// A player's 'transition': none is under way, or one that began at `start` leads to a state and takes `duration` seconds.
// No `Option`: document 01 prescribes this enum, Idle or Running.
#[derive(Clone, Copy)]
pub enum Transition {
    Idle,
    Running {
        start: f64,
        target: usize,
        duration: f32,
    },
}

// The instances are so many times start, rate and offset in one array of floats, as `instance_at` of the definitions
// reads them and as hosts hold them, so that a host's are lent without a copy.
#[derive(Clone, Copy)]
pub struct Player {
    pub clock: f64,
    pub speed: f64,
    pub state: usize,
    pub transition: Transition,
    pub parameters: [f32; MAX_PARAMETERS],
    pub instances: [f32; MAX_INSTANCES],
}

// The cases of narrowing a 64-bit pattern to 32 bits, by IEEE 754 (document 02, Card 4). A finite one goes by its rounded result; what Normal and
// Subnormal hold is that result's pattern without its sign.
#[derive(Clone, Copy)]
pub enum Narrowed {
    Nan,
    Infinite,
    // Finite, and rounded to an infinity.
    TooLarge,
    Normal(u32),
    Subnormal(u32),
    Zero,
}

// Of a frame: what each joint's own matrix is, before its parent's is multiplied on.
#[derive(Clone, Copy)]
pub enum FrameKind {
    Ordinary,
    Page,
}

// Why a call is refused. `number` has what document 01 and the cards call each.
#[derive(Clone, Copy, PartialEq, Eq)]
pub enum Reason {
    // The plan: its words, in the order in which they are read, then how many there are, and how many numbers.
    PlanEnded,
    Count,
    Parent,
    Node,
    Transition,
    WordsLeft,
    NumberCount,
    Ending,
    // What a call is given beside the figure.
    Parameter,
    State,
    Output,
    ClipNode,
    NotLooping,
    // A figure's text.
    Line,
    Room,
    TextLength,
    // A number that none of these has.
    Other(Unnamed),
}

impl Reason {
    pub fn number(self) -> usize
        ensures { result ≡ number_of self }
    {
        match self {
            Reason::PlanEnded => 1,
            Reason::Count => 2,
            Reason::Parent => 3,
            Reason::Node => 4,
            Reason::Transition => 5,
            Reason::WordsLeft => 6,
            Reason::NumberCount => 7,
            Reason::Parameter => 8,
            Reason::State => 9,
            Reason::Output => 10,
            Reason::Line => 11,
            Reason::Room => 12,
            Reason::TextLength => 13,
            Reason::Ending => 14,
            Reason::ClipNode => 16,
            Reason::NotLooping => 17,
            Reason::Other(unnamed) => unnamed.number,
        }
    }
}

// The one that has a number: `number` tells each from every other.
impl From<usize> for Reason {
    ghost from_gives = { λ number r. number_of r ≡ number };

    fn from(number: usize) -> Reason {
        match number {
            1 => Reason::PlanEnded,
            2 => Reason::Count,
            3 => Reason::Parent,
            4 => Reason::Node,
            5 => Reason::Transition,
            6 => Reason::WordsLeft,
            7 => Reason::NumberCount,
            8 => Reason::Parameter,
            9 => Reason::State,
            10 => Reason::Output,
            11 => Reason::Line,
            12 => Reason::Room,
            13 => Reason::TextLength,
            14 => Reason::Ending,
            16 => Reason::ClipNode,
            17 => Reason::NotLooping,
            _ => Reason::Other(Unnamed { number }),
        }
    }
}

// Why, and at which place: a word of the plan, a line of the text; 0 where no place is named.
#[derive(Clone, Copy, PartialEq, Eq)]
pub struct Refusal {
    pub reason: Reason,
    pub place: usize,
}

impl Reason {
    pub fn at(self, place: usize) -> Refusal
        ensures { result ≡ record { reason = self; place = place } }
    {
        Refusal {
            reason: self,
            place,
        }
    }
}

impl Refusal {
    // As answers tell them.
    pub fn number_and_place(self) -> (usize, usize)
        ensures { result ≡ (number_of self.reason, self.place) }
    {
        (self.reason.number(), self.place)
    }
}

// An acceptance that carries nothing beside, or a refusal.
pub type Answer = Result<(), Refusal>;

// A refusal of any number.
#[tactic(auto, unfolding(crate::specs::Answers::values))]
pub fn refused(number: usize, place: usize) -> Answer
    ensures { values result ≡ refused number place 0 }
{
    Err(Reason::from(number).at(place))
}

// An answer with the player to go on with.
#[derive(Clone, Copy)]
pub struct Outcome {
    pub answer: Answer,
    pub player: Player,
}

// What a figure can use (document 02, Card 3): a mark for each state that is reachable, each parameter that such a state reads and each clip that it plays.
// Marks behind the figure's own states, parameters and clips are false.
#[derive(Clone, Copy)]
pub struct Uses {
    pub states: [bool; MAX_STATES],
    pub parameters: [bool; MAX_PARAMETERS],
    pub clips: [bool; MAX_CLIPS],
}

// How many whole loops a clip node's clip has played, and how many samples of the next (document 02, Card 7).
#[derive(Clone, Copy)]
pub struct LoopCount {
    pub loops: usize,
    pub rest: usize,
}

// ---- text

// The seven kinds of line.
#[derive(Clone, Copy)]
pub enum LineKind {
    Figure,
    Joint,
    Clip,
    State,
    Node,
    Go,
    Pose,
}

// What a field holds: a decimal up to a limit, or a float's bits.
#[derive(Clone, Copy)]
pub enum FieldForm {
    Decimal { limit: u16 },
    Bits,
}

// How many words and numbers a figure's text has.
#[derive(Clone, Copy)]
pub struct Lengths {
    pub words: usize,
    pub numbers: usize,
}
