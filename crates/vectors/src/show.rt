// What is written: fields and bytes in hexadecimal, other numbers in decimal.
use refusal::Refusal;
use std::io::Write;
use std::{fmt, io};

// Bytes in hexadecimal; `-` for none.
#[derive(Clone, Copy)]
pub(crate) struct Hex<'a>(pub(crate) &'a [u8]);

impl fmt::Display for Hex<'_> {
    fn fmt<W: fmt::Write>(&self, f: &mut fmt::Formatter<W>) -> fmt::Result {
        if self.0.is_empty() {
            return f.write_str("-");
        }
        for b in self.0 {
            write!(f, "{b:02x}")?;
        }
        Ok(())
    }
}

// What accepts or refuses.
pub(crate) fn checked<W: Write>(to: &mut W, x: Result<(), Refusal>) -> io::Result<()> {
    match x {
        Ok(()) => write!(to, "good"),
        Err(why) => refused(to, why),
    }
}

// What makes so many bytes, or refuses.
pub(crate) fn made<W: Write>(to: &mut W, x: Result<usize, Refusal>) -> io::Result<()> {
    match x {
        Ok(k) => write!(to, "{k}"),
        Err(why) => refused(to, why),
    }
}

pub(crate) fn refused<W: Write>(to: &mut W, why: Refusal) -> io::Result<()> {
    write!(to, "refused {}", u8::from(why))
}

// A line that is no case.
pub(crate) fn nothing<W: Write>(to: &mut W) -> io::Result<()> {
    write!(to, "?")
}

pub(crate) fn flag<W: Write>(to: &mut W, b: bool) -> io::Result<()> {
    write!(to, "{}", u8::from(b))
}
