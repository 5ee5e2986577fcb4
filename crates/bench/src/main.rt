// The benchmark program; bench/run times it, and nothing here is part of the store. Standard input holds 8 bytes, the number of turns; a byte,
// the kind of call (src/ways.rt); a 4-byte length and an image of that length; and the calls of one turn (src/asked.rt). The image is restored,
// so many turns are made, each call on that box, and the sum of what the answers are worth is written, 8 bytes. An input that is shorter than
// its lengths say gives 0.
#![tactic(auto)]

mod asked;
mod changing;
mod shows;
mod turning;
mod ways;
mod worths;

use forms::{Width, number_at};
use inputs::read_full;
use mvcc::AREA;
use turning::{Subject, many_turns};
use ways::Way;

// What the input says: the turns, their kind, the image and the calls.
#[derive(Clone, Copy)]
struct Input<'a> {
    turns: u64,
    way: Way,
    image: &'a [u8],
    calls: &'a [u8],
}

fn input_of(bytes: &[u8]) -> Option<Input<'_>> {
    let (head, rest) = bytes.split_at_checked(13)?;
    let turns = number_at(head, 0, Width::Eight)?;
    let length = number_at(head, 9, Width::Four)?;
    let (image, calls) = rest.split_at_checked(length as usize)?;
    Some(Input {
        turns,
        way: Way::from(head[8]),
        image,
        calls,
    })
}

// The image restored, and its turns.
fn measure(input: Input) -> u64 {
    let mut area = [0u8; AREA];
    let mut copy = [0u8; AREA];
    let mut store = mvcc::open(&area);
    let _ = mvcc::restore(&mut store, &mut area, input.image);
    let subject = Subject {
        store: &store,
        area: &area,
        image: input.image,
    };
    many_turns(subject, &mut copy, input.way, input.turns, input.calls)
}

fn main(rt: HostRuntime) {
    let mut bytes = [0u8; 262144];
    let n = read_full(&mut rt.stdin(), &mut bytes);
    let sum = match input_of(&bytes[..n]) {
        Some(input) => measure(input),
        None => 0,
    };
    let _ = rt.write_all(&sum.to_be_bytes());
}
