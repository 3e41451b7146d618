// Document 01's limits and sizes, under the names that the definitions in specs/ have (`max_joints`, ..), and what follows from them. Code has them from here;
// contracts have the definitions', so a function builds only where the two agree.

pub const MAX_JOINTS: usize = 400;

pub const MAX_CLIPS: usize = 16;

pub const MAX_PARAMETERS: usize = 32;

pub const MAX_STATES: usize = 16;

pub const MAX_SAMPLES: usize = 4096;

pub const MAX_NODES: usize = 31;

pub const MAX_TRANSITIONS: usize = 16;

pub const MAX_CLIP_NODES: usize = 64;

// The parent of a root, and the one that marks a root too in a figure of so few joints.
pub const ROOT: usize = 65535;

pub const BYTE_ROOT: usize = 255;

pub const MAX_BYTE_ROOT_JOINTS: usize = 64;

// The largest word of a plan and decimal of a text.
pub const MAX_WORD: usize = 65535;

// The longest text that the program reads.
pub const MAX_TEXT: usize = 65536;

// ---- floats

pub const POSE_FLOATS: usize = 8;

pub const MATRIX_FLOATS: usize = 16;

pub const INSTANCE_FLOATS: usize = 3;

// Of a player's instances.
pub const MAX_INSTANCES: usize = INSTANCE_FLOATS * MAX_CLIP_NODES;

// Of the longest output.
pub const MAX_OUTPUT: usize = MATRIX_FLOATS * MAX_JOINTS;

// The numbers of the longest text, and the bytes of one: a comma and eight digits.
pub const NUMBER_BYTES: usize = 9;

pub const MAX_NUMBERS: usize = MAX_TEXT / NUMBER_BYTES;
