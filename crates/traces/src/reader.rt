// The bytes of a trace or of a call, read from the front: each function takes what it hands out off the bytes, as the definition's reader does, or
// refuses.
ghost use Rattle.std.specs.Prelude.{◌<◌, ◌^◌, IfSome};
ghost use Rattle.forms.specs.Readers.{byte, stretch};
ghost use Rattle.forms.specs.Numbers.{number_of, width_of};
ghost use Rattle.traces.specs.Taken.{Takes, behind};

use forms::{Width, bytes_in, number_at};

// What is still to be read. After a refusal it is not read on.
#[derive(Clone, Copy)]
pub struct Reader<'a> {
    pub left: &'a [u8],
}

impl<'a> Reader<'a> {
    pub(crate) fn byte(&mut self) -> Option<u8>
        ensures { Takes byte (λ b. b) self.old.left.now result self.new.left.now }
    {
        let (first, left) = self.left.split_first()?;
        self.left = left;
        Some(*first)
    }

    pub(crate) fn stretch(&mut self, len: usize) -> Option<&'a [u8]>
        ensures { Takes (stretch len) behind self.old.left.now result self.new.left.now }
    {
        if self.left.len() < len {
            return None;
        }
        let front = &self.left[..len];
        self.left = &self.left[len..];
        Some(front)
    }

    pub(crate) fn number(&mut self, width: Width) -> Option<u64>
        ensures taken { Takes (number_of (width_of width)) (λ n. n) self.old.left.now result self.new.left.now }
        ensures small { IfSome result (λ n. n < 256 ^ width_of width) }
    {
        let number = number_at(self.left, 0, width)?;
        self.left = &self.left[bytes_in(width)..];
        Some(number)
    }
}
