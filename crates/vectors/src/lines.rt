// Whole lines: each file g000, g001, .. or r000, r001, .. of data/ has a kind, left and right, the number of its pixels and the pixels. A step tells a pixel by its value and
// the position that gave it, or `-` where there is none yet; the last drain is refused. A float is shown by its four bytes, high byte first.
use crate::files;
use crate::kind::Pixel;
use line::{Answer, Line};
use show::One;
use std::io;
use std::io::Read;
use std::rt::Files;

// Shows an answer, and says whether it is a line's: a refusal is not.
fn told<S: Pixel>(rt: &impl Print, a: Answer<S>) -> io::Result<bool> {
    match a {
        Answer::Pixel {
            value,
            position,
            ..
        } => print!(rt; " {}@{position}", One(value))?,
        Answer::NotYet { .. } => print!(rt; " -")?,
        Answer::Refused { refusal, .. } => {
            print!(rt; ", refused {}", refusal.number())?;
            return Ok(false);
        }
    }
    Ok(true)
}

fn read<S: Pixel>(rt: &impl Print, l: &mut Line<S>, v: S) -> io::Result<()> {
    let s = line::read(*l, v);
    *l = s.line;
    told(rt, s.answer)?;
    Ok(())
}

// Drains up to the first that is refused: no line has over 31.
fn drains<S: Pixel>(rt: &impl Print, l: &mut Line<S>) -> io::Result<()> {
    for _ in 0..32 {
        let s = line::drain(*l);
        *l = s.line;
        if !told(rt, s.answer)? {
            break;
        }
    }
    Ok(())
}

// Runs line n, and says whether there is one.
fn one<S: Pixel>(rt: &impl Files, out: &impl Print, n: u8) -> io::Result<bool> {
    let Some(mut from) = files::open(rt, out, S::letter(), n)? else {
        return Ok(false);
    };
    print!(out; ":")?;
    let [kind, left, right, low, high] = files::bytes::<5>(&mut from);
    let pixels = u16::from_le_bytes([low, high]);
    let mut l = line::start::<S>(kind, left, right, usize::from(pixels)).line;
    for _ in 0..pixels {
        read(out, &mut l, S::next(&mut from))?;
    }
    drains(out, &mut l)?;
    println!(out; "")?;
    Ok(true)
}

pub fn all<S: Pixel>(rt: &impl Files, out: &impl Print) -> io::Result<()> {
    for n in 0..255 {
        if !one::<S>(rt, out, n)? {
            break;
        }
    }
    Ok(())
}

// 65,535 equal pixels: what the last of them tells, and the drains.
pub fn longest(rt: &impl Print) -> io::Result<()> {
    print!(rt; "65535 alike:")?;
    let mut l = line::start::<u8>(0, 31, 31, 65535).line;
    for _ in 0..65534 {
        l = line::read(l, 7).line;
    }
    read(rt, &mut l, 7)?;
    drains(rt, &mut l)?;
    println!(rt; "")
}
