//! How lists of serials are written: with commas, as `1,2`, or as `-` where they are empty.

use ld_base::{Serial, Serials};
use std::alloc::Global;
use test_file::{Fault, whole};

pub fn serial(word: &str) -> Result<Serial, Fault> {
    Ok(Serial::new(whole(word).ok_or(Fault::Unclear)?))
}

pub fn serials(alloc: Global, list: &str) -> Result<Serials, Fault> {
    let mut serials = Serials::new(alloc);
    push_serials(&mut serials, list)?;
    Ok(serials)
}

pub fn push_serials(serials: &mut Serials, list: &str) -> Result<(), Fault> {
    if list == "-" {
        return Ok(());
    }
    for word in list.split(',') {
        serials.push(serial(word)?)?;
    }
    Ok(())
}

/// A list of serials, as it is written.
pub fn written(alloc: Global, serials: &[Serial]) -> Result<String, Fault> {
    let mut text = String::new(alloc);
    write_serials(&mut text, serials)?;
    Ok(text)
}

pub fn write_serials(text: &mut String, serials: &[Serial]) -> Result<(), Fault> {
    match serials.split_first() {
        Some((first, rest)) => {
            let first = first.number();
            write!(text, "{first}")?;
            write_more(text, rest)
        }
        None => Ok(text.push_str("-")?),
    }
}

fn write_more(text: &mut String, serials: &[Serial]) -> Result<(), Fault> {
    for serial in serials {
        let number = serial.number();
        write!(text, ",{number}")?;
    }
    Ok(())
}
