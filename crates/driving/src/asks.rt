// The calls that need no store: two questions about a row, and the converter of an old image.
ghost use Rattle.std.specs.Prelude.{◌≡◌, [], ◌∷◌, ◌<◌};
ghost use Rattle.rules.specs.Convert.{convert_image};
ghost use Rattle.rules.specs.Outcomes.{outcome, value_or};
ghost use Rattle.traces.specs.Answers.{answer_bytes};
ghost use Rattle.showing.specs.Told.{lent, Writes};
ghost use Rattle.driving.specs.Asks.{asked_bytes, written_bytes};

use rules::Refusal;
use showing::written;
use traces::{AskOp, put_answer};

// The question that the op says, of a row; the number is a bone's. "one byte, 1 if shown, else 0; 0 on a refusal", or "how many".
fn ask(op: AskOp, row: &[u8], n: u64) -> Result<u8, Refusal>
    ensures { answer_bytes (outcome result) 0 (value_or 0 result ∷ []) ≡ asked_bytes op row.now n }
{
    match op {
        AskOp::Bone => Ok(u8::from(bones::bone_shown(row, n)?)),
        AskOp::Bones => bones::bones_shown(row),
    }
}

pub(crate) fn tell_ask(op: AskOp, row: &[u8], n: u64, out: &mut [u8]) -> usize
    ensures { Writes (asked_bytes op row.now n) out.old result out.new }
{
    match ask(op, row, n) {
        Ok(shown) => put_answer(out, Ok(()), 0, &[shown]),
        Err(why) => put_answer(out, Err(why), 0, &[0]),
    }
}

// "the call is lent a buffer of that many bytes, each 0xEE before the call"; it is the front of an array of the most that may be lent.
pub(crate) fn tell_convert(image: &[u8], len: usize, out: &mut [u8]) -> usize
    requires { len < 262145 }
    ensures { Writes (written_bytes (convert_image image.now (lent len))) out.old result out.new }
{
    let mut longest = [0xEEu8; 262144];
    let converted = &mut longest[..len];
    let done = converts::convert_image(image, converted);
    written(done, converted).tell(out)
}
