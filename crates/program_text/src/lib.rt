// What every program does with the text of a figure, before it shows anything.
#![tactic(auto)]

ghost use Rattle.program_text.specs.ProgramText.{ProgramTextRead};

use layout::MAX_PLAN;
use model::limits::{MAX_NUMBERS, MAX_TEXT};
use model::{Lengths, Reason, Refusal};

// The figure of a text, in the front of both arrays, which hold that of any text that is not too long: the limits allow
// no more words, and each number takes nine bytes of the text. Refused, both keep their contents.
pub fn read_program_text(
    text: &[u8],
    plan: &mut [u16; MAX_PLAN],
    numbers: &mut [f32; MAX_NUMBERS],
) -> Result<Lengths, Refusal>
    ensures { ProgramTextRead text.now
        plan.old plan.new numbers.old numbers.new
        result }
{
    if text.len() > MAX_TEXT {
        return Err(Reason::TextLength.at(MAX_TEXT));
    }
    text::read(text, plan, numbers)
}
