// A trace: "a 2-byte count of calls, then each call after its 2-byte length". It is judged whole, once; then its calls are handed out, one after
// the other.
ghost use Rattle.std.specs.Prelude.{◌≡◌, ◌+◌, IfSome, Some};
ghost use Rattle.std.specs.Option.{is_some as tells};
ghost use Rattle.forms.specs.Readers.{whole, is_some};
ghost use Rattle.traces.specs.Trace.{call_length, framed, calls_from, trace_form};
ghost use Rattle.traces.specs.Taken.{Takes, behind};
ghost use Rattle.traces.specs.Walk.{Starts, framed_if};

use crate::call::args_of;
use crate::reader::Reader;
use forms::Width;

impl<'a> Reader<'a> {
    // "A length of 65,535 is followed by a 4-byte length, which is then the call's own"
    fn call_length(&mut self) -> Option<u64>
        ensures { Takes call_length (λ n. n) self.old.left.now result self.new.left.now }
    {
        let len = self.number(Width::Two)?;
        if len == 65535 {
            return self.number(Width::Four);
        }
        Some(len)
    }

    // "each call after its 2-byte length": the call's bytes.
    fn framed(&mut self) -> Option<&'a [u8]>
        ensures { Takes framed behind self.old.left.now result self.new.left.now }
    {
        let len = self.call_length()?;
        self.stretch(len as usize)
    }
}

// "The driver takes up to 262,144 bytes"
const MOST: usize = 262144;

// Reads every call, to the end of the trace.
fn read_calls(trace: &[u8]) -> Option<()>
    ensures { tells result ≡ is_some (whole calls_from trace.now) }
{
    let calls = Calls::of(trace)?;
    let mut reader = calls.reader;
    for _ in 0..calls.left {
        args_of(reader.framed()?)?;
    }
    if reader.left.is_empty() {
        Some(())
    } else {
        None
    }
}

// "Not in form: .. an unknown op, bytes missing or left over in a call or after the last one, an empty input, more than 262,144 bytes."
pub fn trace_in_form(trace: &[u8]) -> bool
    ensures { result ≡ trace_form trace.now }
{
    trace.len() <= MOST && read_calls(trace).is_some()
}

// The calls of a trace in form; none of any other.
pub fn calls_in(trace: &[u8]) -> Option<Calls<'_>>
    ensures form { tells result ≡ trace_form trace.now }
    ensures calls { IfSome result (λ c. Starts trace.now (Some c)) }
{
    if trace_in_form(trace) {
        Calls::of(trace)
    } else {
        None
    }
}

// The calls of a trace that are still to come: their bytes, and how many they are.
#[derive(Clone, Copy)]
pub struct Calls<'a> {
    pub reader: Reader<'a>,
    pub left: usize,
}

impl<'a> Calls<'a> {
    // All calls of a trace; none where it has no count.
    pub fn of(trace: &'a [u8]) -> Option<Self>
        ensures { Starts trace.now result }
    {
        let mut reader = Reader { left: trace };
        let left = reader.number(Width::Two)? as usize;
        Some(Calls { reader, left })
    }

    // The bytes of the next call; none where no call is left, or the bytes end before it does.
    pub fn next_call(&mut self) -> Option<&'a [u8]>
        ensures call { Takes (framed_if self.old.left) behind self.old.reader.left.now result self.new.reader.left.now }
        ensures left { IfSome result (λ call. self.old.left ≡ self.new.left + 1) }
    {
        if self.left == 0 {
            return None;
        }
        let call = self.reader.framed()?;
        self.left -= 1;
        Some(call)
    }
}
