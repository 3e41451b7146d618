// The lines of a figure in their order, and the call.
ghost use Rattle.std.specs.Prelude.{◌≡◌};
ghost use Rattle.model.specs.Promises.{TextRead};
ghost use Rattle.model.specs.Text.{read_figure};
ghost use Rattle.text.specs.Steps.{ReadBy};
ghost use Rattle.text.specs.Figures.{begin};

use crate::lines::MAX_FIELDS;
use crate::put::{Malformed, Progress, Reader};
use layout::{CLIP_COUNT_AT, JOINT_COUNT_AT, STATE_COUNT_AT};
use model::{Lengths, LineKind, Reason, Refusal};

// Of the header.
// Others than plan's `Counts`: these say how many lines there are, those what a state's words may name.
#[derive(Clone, Copy)]
struct Counts {
    joints: usize,
    clips: usize,
    states: usize,
}

impl Reader<'_> {
    ghost use Rattle.std.specs.Prelude.{◌≡◌, ◌≤◌, drop, IfOk};
    ghost use Rattle.model.specs.Plan.{max_joints, max_clips};
    ghost use Rattle.model.specs.Text.{read_line, read_state, times, read_end, read_figure};
    ghost use Rattle.model.specs.declared.LineKind.TheVariants as LineKind;
    ghost use Rattle.text.specs.Readers.{ReadTo};
    ghost use Rattle.text.specs.Figures.{sampled, read_poses, read_motion};

    // ---- states

    // The text has T beside K; the plan has it behind the nodes.
    fn read_state(&mut self) -> Result<(), Malformed>
        ensures { ReadTo read_state self.old self.new result }
    {
        self.pass_line(LineKind::State)?;
        let nodes = self.values[0];
        let transitions = self.values[1];
        self.put_word(nodes);
        self.read_lines(LineKind::Node, nodes)?;
        self.put_word(transitions);
        self.read_lines(LineKind::Go, transitions)
    }

    // As `read_lines`: one for both would have to say in its contract what a closure does to the reader.
    fn read_states(&mut self, count: usize) -> Result<(), Malformed>
        ensures { ReadTo (times count read_state) self.old self.new result }
    {
        for _ in 0..count {
            self.read_state()?;
        }
        Ok(())
    }

    // ---- clips

    // The sum of the clips' samples says how many poses there are.
    fn read_clips(&mut self, count: usize) -> Result<usize, Malformed>
        requires { count ≤ max_clips }
        ensures read { ReadTo (times count (read_line LineKind.Clip)) self.old self.new result }
        ensures samples { IfOk result
            (λ m. sampled count m (times count (read_line LineKind.Clip) (drop self.old.progress.at self.old.text.now))) }
    {
        let mut samples = 0;
        for _ in 0..count {
            self.read_line(LineKind::Clip)?;
            samples += self.values[0];
        }
        Ok(samples)
    }

    // ---- the whole

    // A line where none is left to come is one too many.
    fn read_end(&self) -> Result<(), Malformed>
        ensures { ReadTo read_end self.now self.now result }
    {
        if self.progress.at < self.text.len() {
            return Err(Malformed {
                line: self.progress.line + 1,
            });
        }
        Ok(())
    }

    // The poses are the last lines.
    fn read_poses(&mut self, count: usize) -> Result<(), Malformed>
        ensures { ReadTo (read_poses count) self.old self.new result }
    {
        self.read_lines(LineKind::Pose, count)?;
        self.read_end()
    }

    // Clips, states and poses.
    fn read_motion(&mut self, counts: Counts) -> Result<(), Malformed>
        requires { (counts.joints ≤ max_joints) × (counts.clips ≤ max_clips) }
        ensures { ReadTo (read_motion counts.joints counts.clips counts.states) self.old self.new result }
    {
        let samples = self.read_clips(counts.clips)?;
        self.read_states(counts.states)?;
        self.read_poses(samples * counts.joints)
    }

    fn read_figure(&mut self) -> Result<(), Malformed>
        ensures { ReadTo read_figure self.old self.new result }
    {
        self.read_line(LineKind::Figure)?;
        let counts = Counts {
            joints: self.values[JOINT_COUNT_AT],
            clips: self.values[CLIP_COUNT_AT],
            states: self.values[STATE_COUNT_AT],
        };
        self.read_lines(LineKind::Joint, counts.joints)?;
        self.read_motion(counts)
    }
}

// A figure's text from its front on.
fn read_text(text: &[u8], plan: &mut [u16], numbers: &mut [f32]) -> Result<Progress, Malformed>
    ensures { ReadBy read_figure text.now begin result
        plan.old plan.new numbers.old numbers.new }
{
    let mut reader = Reader {
        text,
        progress: Progress::default(),
        values: [0; MAX_FIELDS],
        plan,
        numbers,
    };
    reader.read_figure()?;
    Ok(reader.progress)
}

// The figure of a text, in the front of both slices; what follows there is kept. Refused, both keep their contents.
pub fn read(text: &[u8], plan: &mut [u16], numbers: &mut [f32]) -> Result<Lengths, Refusal>
    ensures { TextRead text.now
        plan.old plan.new numbers.old numbers.new
        result }
{
    let whole = read_text(text, &mut plan[..0], &mut numbers[..0])?;
    let lengths = Lengths {
        words: whole.words,
        numbers: whole.numbers,
    };
    if plan.len() < lengths.words || numbers.len() < lengths.numbers {
        return Err(Reason::Room.at(0));
    }
    // It passed before, so it passes again.
    let _ = read_text(text, plan, numbers);
    Ok(lengths)
}
