// An answer: its number (1 byte), the holder's transaction (8), start (8), time to live (8) and kind (1), the count (8), a 4-byte payload
// length, the payload.
ghost use Rattle.rules.specs.Outcomes.{outcome};
ghost use Rattle.traces.specs.Put.{Put, room};
ghost use Rattle.traces.specs.Answers.{HeadOf, answer_bytes};

use forms::{Width, put_byte, put_bytes, put_digits};
use rules::Refusal;

// The number of an answer and its holder, as docs/TRACE.md writes them: zeros where it has none.
#[derive(Clone, Copy, Default)]
pub struct Head {
    pub number: u8,
    pub txn: u64,
    pub start: u64,
    pub ttl: u64,
    pub kind: u8,
}

fn head_of(answer: Result<(), Refusal>) -> Head
    ensures { HeadOf (outcome answer) result }
{
    let Err(refusal) = answer else {
        return Head::default();
    };
    let number = refusal.number();
    match refusal.holder() {
        Some(holder) => Head {
            number,
            txn: holder.txn,
            start: holder.start,
            ttl: holder.ttl,
            kind: u8::from(holder.kind),
        },
        None => Head {
            number,
            ..Head::default()
        },
    }
}

// Writes an answer over the front of the buffer, and says how many bytes it has.
pub fn put_answer(out: &mut [u8], answer: Result<(), Refusal>, count: u64, payload: &[u8]) -> usize
    ensures { Put (room (answer_bytes (outcome answer) count payload.now) out.old) (answer_bytes (outcome answer) count payload.now) out.old result out.new }
{
    if out.len() < payload.len() + 38 {
        return 0;
    }
    let head = head_of(answer);
    let a = put_byte(out, 0, head.number);
    let b = put_digits(out, a, Width::Eight, head.txn);
    let c = put_digits(out, b, Width::Eight, head.start);
    let d = put_digits(out, c, Width::Eight, head.ttl);
    let e = put_byte(out, d, head.kind);
    let f = put_digits(out, e, Width::Eight, count);
    let g = put_digits(out, f, Width::Four, payload.len() as u64);
    put_bytes(out, g, payload)
}
