// Image sets, name lists, image ranges and tidy forms.
use crate::show;
use crate::show::Hex;
use crate::text::Line;
use bundle::{check_images, check_names};
use image::{ImageId, image_range};
use refusal::Refusal;
use std::io;
use std::io::Write;
use tidy::{tidy, tidy_len};

// s BYTES
pub(crate) fn images<W: Write>(to: &mut W, line: Line<'_>) -> io::Result<()> {
    let mut set = [0; 1024];
    let set = line.bytes(1, &mut set);
    show::checked(to, check_images(set))
}

// n BYTES
pub(crate) fn names<W: Write>(to: &mut W, line: Line<'_>) -> io::Result<()> {
    let mut names = [0; 1024];
    let names = line.bytes(1, &mut names);
    show::checked(to, check_names(names))
}

fn ranged<W: Write>(to: &mut W, x: Result<(usize, usize), Refusal>) -> io::Result<()> {
    match x {
        Ok((start, len)) => write!(to, "at {start} {len}"),
        Err(k) => show::refused(to, k),
    }
}

// i SET ID OFFSET LENGTH
pub(crate) fn range<W: Write>(to: &mut W, line: Line<'_>) -> io::Result<()> {
    let mut set = [0; 1024];
    let set = line.bytes(1, &mut set);
    let id = ImageId(line.long(2));
    ranged(to, image_range(set, id, line.long(3), line.long(4)))
}

// z SET SIZE: how long the tidy form is, then it in a buffer of SIZE bytes of 0xAA, and the whole buffer afterwards.
pub(crate) fn tidy_case<W: Write>(to: &mut W, line: Line<'_>) -> io::Result<()> {
    let mut set = [0; 1024];
    let set = line.bytes(1, &mut set);
    let size = line.index(2);
    if 1024 < size {
        return show::nothing(to);
    }
    let mut form = [0xAA; 1024];
    let form = &mut form[..size];
    show::made(to, tidy_len(set))?;
    write!(to, " ")?;
    show::made(to, tidy(set, form))?;
    write!(to, " {}", Hex(form))
}
