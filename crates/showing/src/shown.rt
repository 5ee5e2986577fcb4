// What a call tells: an answer with its count and its payload.
ghost use Rattle.rules.specs.Outcomes.{outcome, wrote};
ghost use Rattle.traces.specs.Answers.{answer_bytes};
ghost use Rattle.showing.specs.Told.{Writes};
ghost use Rattle.showing.specs.Shows.{ShownAs, ShownOf};

use rules::Refusal;

// The payload is the front of a buffer that was lent for it.
#[derive(Clone, Copy)]
pub struct Shown<'a> {
    pub answer: Result<(), Refusal>,
    pub count: u64,
    pub payload: &'a [u8],
}

// "A writing call also gives the bytes written"; its payload is the whole lent buffer, refused or not.
pub fn written(done: Result<usize, Refusal>, buffer: &[u8]) -> Shown<'_>
    ensures { ShownOf (wrote done) buffer.now result }
{
    Shown::of(done, done.unwrap_or(0), buffer)
}

impl<'a> Shown<'a> {
    // Of a call's result only the answer is told; what it shows is in the payload.
    pub(crate) fn of<T: Copy>(done: Result<T, Refusal>, count: usize, payload: &'a [u8]) -> Self
        ensures { ShownAs (outcome done) count payload.now result }
    {
        Shown {
            answer: done.map(|_| ()),
            count: count as u64,
            payload,
        }
    }

    // Writes the answer over the front of the buffer `out`, if it fits there, and says how many bytes it has.
    pub fn tell(self, out: &mut [u8]) -> usize
        ensures { Writes (answer_bytes (outcome self.entry.answer) self.entry.count self.entry.payload.now) out.old result out.new }
    {
        traces::put_answer(out, self.answer, self.count, self.payload)
    }
}
