// The arguments of a call, each read off the front of its bytes. A call has or has not an argument: one that it has not is passed over, and its
// value is 0, or a Delete, or absent, or no bytes.
ghost use Rattle.std.specs.Prelude.{◌<◌, ◌^◌, [], IfSome};
ghost use Rattle.std.proofs.Math.Option.{none};
ghost use Rattle.forms.specs.Numbers.{number_of, width_of};
ghost use Rattle.rules.specs.declared.records.Kind.TheVariants.{Delete};
ghost use Rattle.traces.specs.Arguments.{kind, text, bound, remaining};
ghost use Rattle.traces.specs.Ops.{is_long};
ghost use Rattle.traces.specs.Taken.{Takes, Ends, behind, key_behind, given, first_width, buffer_by, buffer_below};

use crate::op::{Op, is_long};
use crate::reader::Reader;
use forms::Width;
use rules::Kind;

// "a 4-byte length, at most 262,144"
const LONG: u64 = 262144;

impl<'a> Reader<'a> {
    pub(crate) fn number_if(&mut self, wanted: bool, width: Width) -> Option<u64>
        ensures taken { Takes (given wanted (number_of (width_of width)) 0) (λ n. n) self.old.left.now result self.new.left.now }
        ensures small { IfSome result (λ n. n < 256 ^ width_of width) }
    {
        if wanted { self.number(width) } else { Some(0) }
    }

    // The first number; "table | 4" if the call has a long buffer.
    pub(crate) fn first_if(&mut self, wanted: bool, op: Op) -> Option<u64>
        ensures taken { Takes (given wanted (number_of (first_width (is_long op))) 0) (λ n. n) self.old.left.now result self.new.left.now }
        ensures small { IfSome result (λ n. n < 256 ^ first_width (is_long op)) }
    {
        if is_long(op) {
            return self.number_if(wanted, Width::Four);
        }
        self.number_if(wanted, Width::Eight)
    }

    // "1 Put, 2 Delete"
    pub(crate) fn kind_if(&mut self, wanted: bool) -> Option<Kind>
        ensures { Takes (given wanted kind Delete) (λ k. k) self.old.left.now result self.new.left.now }
    {
        if !wanted {
            return Some(Kind::Delete);
        }
        match self.byte()? {
            1 => Some(Kind::Put),
            2 => Some(Kind::Delete),
            _ => None,
        }
    }

    // "a 2-byte length, then that many bytes of any value"
    fn text(&mut self) -> Option<&'a [u8]>
        ensures { Takes text behind self.old.left.now result self.new.left.now }
    {
        let len = self.number(Width::Two)?;
        self.stretch(len as usize)
    }

    // A key, a primary or a row.
    pub(crate) fn text_if(&mut self, wanted: bool) -> Option<&'a [u8]>
        ensures { Takes (given wanted text []) behind self.old.left.now result self.new.left.now }
    {
        if wanted { self.text() } else { Some(&[]) }
    }

    // "a flag byte: 0 absent; 1 present, then a key"
    pub(crate) fn bound_if(&mut self, wanted: bool) -> Option<Option<&'a [u8]>>
        ensures { Takes (given wanted bound none) key_behind self.old.left.now result self.new.left.now }
    {
        if !wanted {
            return Some(None);
        }
        match self.byte()? {
            0 => Some(None),
            1 => Some(Some(self.text()?)),
            _ => None,
        }
    }

    // The length of the long buffer, if the call has one; else that of the page's buffer, if it has one.
    pub(crate) fn buffer(&mut self, op: Op, page: bool) -> Option<usize>
        ensures taken { Takes (buffer_by (is_long op) page) (λ n. n) self.old.left.now result self.new.left.now }
        ensures small { IfSome result (λ n. n < buffer_below (is_long op)) }
    {
        if !is_long(op) {
            return Some(self.number_if(page, Width::Two)? as usize);
        }
        let len = self.number(Width::Four)?;
        if len <= LONG {
            Some(len as usize)
        } else {
            None
        }
    }

    // "the rest of the call, any bytes"; without one, nothing may be left.
    pub(crate) fn rest_if(self, wanted: bool) -> Option<&'a [u8]>
        ensures { Ends (given wanted remaining []) behind self.entry.left.now result }
    {
        if wanted || self.left.is_empty() {
            Some(self.left)
        } else {
            None
        }
    }
}
