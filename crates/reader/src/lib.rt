// The body of a packet is read field by field by a reader that keeps the packet's bytes and an offset; the work is done by `field::field_at`.
#![tactic(auto)]

ghost use Rattle.std.specs.Prelude.{◌≡◌};
ghost use Rattle.reader.specs.Reader.{reader_at, field_of};
ghost use Rattle.field.specs.Field.{field_at};

use field::{Number, field_at};

#[derive(Clone, Copy)]
pub struct Reader<'a> {
    pub src: &'a [u8],
    pub at: usize,
}

impl<'a> Reader<'a> {
    pub fn new(src: &'a [u8]) -> Reader<'a>
        ensures { result ≡ reader_at src.entry 0 }
    {
        Reader { src, at: 0 }
    }

    // The same bytes at another offset.
    pub fn moved(self, at: usize) -> Reader<'a>
        ensures { result ≡ reader_at self.entry.src at }
    {
        Reader { src: self.src, at }
    }

    // The field at the offset.
    pub fn read<T: Number>(self) -> Option<T>
        ensures { result ≡ field_of T.SIZE T.of self.entry }
    {
        field_at(self.src, self.at)
    }
}

// A reader of these bytes is made, moved on to the offset, and read.
pub fn read_at<T: Number>(p: &[u8], at: usize) -> Option<T>
    ensures { result ≡ field_at T.SIZE T.of p.now at }
{
    Reader::new(p).moved(at).read()
}
