// The bounds of a page: "start, end and resume may each be absent". The keys may be any bytes.

// Each key as the caller has it: it need not be in form.
#[derive(Clone, Copy)]
pub struct Bounds<'a> {
    pub start: Option<&'a [u8]>,
    pub end: Option<&'a [u8]>,
    pub resume: Option<&'a [u8]>,
}
