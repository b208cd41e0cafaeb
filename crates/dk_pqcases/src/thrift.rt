//! Calls of Thrift's reader and writer.

use anyhow::{Context, Result};
use dk_thrift::{Field, Reader, Writer};
use std::alloc::{AllocError, Global};

/// What the reader's calls answer, one after another. The words of `call` are the calls; the input is the bytes.
pub fn read(alloc: Global, call: &str, input: &str) -> Result<String> {
    let bytes = hex::decode(alloc, input)?;
    let mut reader = Reader::new(&bytes);
    let mut outer = 0;
    let mut said = String::new(alloc);
    for word in call.split(' ').skip(1) {
        match word {
            "enter" => outer = reader.enter(),
            "leave" => reader.leave(outer),
            _ => read_one(alloc, &mut reader, word, &mut said)?,
        }
    }
    Ok(said)
}

/// Adds what one call answers.
fn read_one(alloc: Global, reader: &mut Reader<'_>, word: &str, said: &mut String) -> Result<()> {
    match word {
        "field" => say_field(said, reader.field()?)?,
        "varint" => {
            let number = reader.varint()?;
            write!(said, "{number} ")?;
        }
        "whole" => {
            let number = reader.whole()?;
            write!(said, "{number} ")?;
        }
        "binary" => {
            let text = hex::encode(alloc, reader.binary()?)?;
            write!(said, "{text} ")?;
        }
        "list" => {
            let head = reader.list()?;
            write!(said, "{} of {} ", head.count, head.kind)?;
        }
        "left" => {
            let left = reader.rest().len();
            write!(said, "{left} left ")?;
        }
        _ => read_by_kind(reader, word, said)?,
    }
    Ok(())
}

fn say_field(said: &mut String, field: Field) -> Result<(), AllocError> {
    match field {
        Field::End => said.push_str("end "),
        Field::Next { id, kind } => write!(said, "{id}:{kind} "),
    }
}

/// The calls that take a kind, which stands behind their name.
fn read_by_kind(reader: &mut Reader<'_>, word: &str, said: &mut String) -> Result<()> {
    let (call, kind) = word.split_once(':').context("a call")?;
    let kind = kind.parse()?;
    if call == "skip" {
        reader.skip(kind)?;
        return Ok(());
    }
    match reader.number(kind)? {
        Some(number) => write!(said, "{number} ")?,
        None => said.push_str("none ")?,
    }
    Ok(())
}

/// What is written of a struct with this name.
pub fn written(alloc: Global, name: &str) -> Result<String> {
    let bytes = match name {
        "page header" => page_header(alloc)?,
        _ => long_forms(alloc)?,
    };
    let text = hex::encode(alloc, &bytes)?;
    Ok(text)
}

/// A page header: a data page of 18 bytes with 4 plain values.
fn page_header(alloc: Global) -> Result<Vec<u8>, AllocError> {
    let mut writer = Writer::new(alloc);
    writer.field(1, 5)?;
    writer.whole(0)?;
    writer.field(2, 5)?;
    writer.whole(18)?;
    writer.field(5, 12)?;
    writer.enter()?;
    writer.field(1, 5)?;
    writer.whole(4)?;
    writer.field(4, 5)?;
    writer.whole(3)?;
    writer.end()?;
    writer.end()?;
    Ok(writer.finish())
}

/// Fields whose steps are too long for a short header, a text, and lists of 15 and of 14 elements.
fn long_forms(alloc: Global) -> Result<Vec<u8>, AllocError> {
    let mut writer = Writer::new(alloc);
    writer.field(16, 8)?;
    writer.binary(b"ab")?;
    writer.field(-16, 9)?;
    writer.list(15, 8)?;
    writer.field(-16, 9)?;
    writer.list(14, 5)?;
    writer.field(-1, 1)?;
    writer.field(-1, 5)?;
    writer.end()?;
    Ok(writer.finish())
}
