// The files of data/: a letter and three digits. A file is read piece by piece, and what is past its end is 0.
use std::fmt::InlineText;
use std::fs::File;
use std::io;
use std::io::Read;
use std::rt::Files;

// Opens file n of a letter and writes its name; nothing where there is none.
pub fn open<R: Files>(
    rt: &R,
    out: &impl Print,
    letter: char,
    n: u8,
) -> io::Result<Option<R::File>> {
    let name = InlineText::<4>::of(format_args!("{letter}{n:03}"));
    let Ok(from) = File::open(rt, name.as_str()) else {
        return Ok(None);
    };
    print!(out; "{}", name.as_str())?;
    Ok(Some(from))
}

// So many bytes that stand next.
pub fn bytes<const N: usize>(from: &mut impl Read) -> [u8; N] {
    let mut bytes = [0; N];
    let _ = from.read_exact(&mut bytes);
    bytes
}
