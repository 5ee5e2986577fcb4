// The driver of docs/TRACE.md: `drive < trace > answers`. With the argument `many` the input is any number of traces, each after a 4-byte
// length, and the answers of all follow one another. Each answer is written as it comes.
#![tactic(auto)]

ghost use Rattle.store.specs.Made.{Made};

use inputs::read_full;
use rules::Refusal;
use std::env::Env;
use std::io::Read;
use store::{AREA, Store};
use traces::Calls;

mod streams;

use streams::Next;

// "A trace not in form gives one answer, number 6, with zeros and no payload"
fn refuse(rt: &impl Print, out: &mut [u8]) -> bool {
    let n = traces::put_answer(out, Err(Refusal::BatchForm), 0, &[]);
    rt.write_all(&out[..n]).is_ok()
}

// "The calls of one trace run in turn on one store"
fn answer_calls(
    rt: &impl Print,
    mut calls: Calls,
    mut store: Store,
    area: &mut [u8; AREA],
    out: &mut [u8],
) -> bool
    requires { Made store area.old }
{
    while let Some(call) = calls.next_call() {
        let n = driving::run_call(&mut store, area, call, out);
        if rt.write_all(&out[..n]).is_err() {
            return false;
        }
    }
    true
}

// "fresh at the start"; "nothing is run" of a trace that is not in form
fn answer_trace(rt: &impl Print, trace: &[u8], out: &mut [u8]) -> bool {
    let Some(calls) = traces::calls_in(trace) else {
        return refuse(rt, out);
    };
    let mut area = [0u8; AREA];
    answer_calls(rt, calls, store::fresh(), &mut area, out)
}

// Whether there is more to answer.
fn answer_next(rt: &impl Print, input: &mut impl Read, trace: &mut [u8], out: &mut [u8]) -> bool {
    match streams::next_trace(input, trace) {
        Next::End => false,
        Next::Over => refuse(rt, out),
        Next::Trace(n) => answer_trace(rt, &trace[..n], out),
    }
}

// Each loop is proved to end: no stream has more traces than that.
fn answer_many(rt: &impl Print, input: &mut impl Read, trace: &mut [u8], out: &mut [u8]) {
    for _ in 0..u64::MAX {
        if !answer_next(rt, input, trace, out) {
            return;
        }
    }
}

// The buffer has one byte more than a trace may have, so that a longer one shows.
fn answer_one(rt: &impl Print, input: &mut impl Read, trace: &mut [u8], out: &mut [u8]) {
    let n = read_full(input, trace);
    answer_trace(rt, &trace[..n], out);
}

fn asked_many(rt: &impl Env) -> bool {
    let mut word = [0u8; 8];
    match rt.arg(1, &mut word) {
        Ok(n) => &word[..n] == b"many".as_slice(),
        Err(_) => false,
    }
}

fn main(rt: HostRuntime) {
    let mut out = [0u8; 262182];
    let mut trace = [0u8; 262145];
    let mut input = rt.stdin();
    if asked_many(&rt) {
        answer_many(&rt, &mut input, &mut trace, &mut out);
    } else {
        answer_one(&rt, &mut input, &mut trace, &mut out);
    }
}
