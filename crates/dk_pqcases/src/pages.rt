//! Calls on pages.

use anyhow::{Context, Result};
use dk_pages::{Dictionary, PageView, Physical, next_page};
use dk_pqmodel::PageKind;
use std::alloc::{AllocError, Global};

/// What the header of the page at a place says, where its body ends, and how long it is.
pub fn page_at(alloc: Global, call: &str, input: &str) -> Result<String> {
    let (_, at) = call.split_once(' ').context("a place")?;
    let bytes = hex::decode(alloc, input)?;
    let page = next_page(&bytes, at.parse()?)?;
    let text = page_text(alloc, &page)?;
    Ok(text)
}

fn page_text(alloc: Global, page: &PageView<'_>) -> Result<String, AllocError> {
    let kind = match page.kind {
        PageKind::DataV1 => "data",
        PageKind::DataV2 => "data of version 2",
        PageKind::Dictionary => "dictionary",
    };
    let values = page.values;
    let encoding = page.encoding;
    let size = page.body.len();
    let next = page.next;
    let codes = format!(in alloc; "{} {}", page.rep_code, page.def_code)?;
    let sizes = format!(in alloc; "{} {}", page.rep_bytes, page.def_bytes)?;
    format!(in alloc;
        "{kind}: {values} values, encoding {encoding}, levels {codes}, their bytes {sizes}, body {size}, next {next}"
    )
}

/// The parts of the body of the page at the front. The words of `call` are the greatest levels.
pub fn split(alloc: Global, call: &str, input: &str) -> Result<String> {
    let (_, words) = call.split_once(' ').context("a level")?;
    let (rep, def) = words.split_once(' ').context("a level")?;
    let bytes = hex::decode(alloc, input)?;
    let page = next_page(&bytes, 0)?;
    let parts = page.split(rep.parse()?, def.parse()?)?;
    let rep = hex::encode(alloc, parts.rep)?;
    let def = hex::encode(alloc, parts.def)?;
    let values = hex::encode(alloc, parts.values)?;
    let text = format!(in alloc; "{rep} / {def} / {values}")?;
    Ok(text)
}

/// The entries of the dictionary page at the front, and the one behind them, which there isn't.
pub fn entries(alloc: Global, call: &str, input: &str) -> Result<String> {
    let kind = match call {
        "entries int32" => Physical::Int32,
        "entries int64" => Physical::Int64,
        _ => Physical::Bytes,
    };
    let bytes = hex::decode(alloc, input)?;
    let page = next_page(&bytes, 0)?;
    let dictionary = Dictionary::read(alloc, &page, kind)?;
    let mut said = String::new(alloc);
    for place in 0..=page.values {
        match dictionary.entry(place) {
            Some(entry) => said.push_str(hex::encode(alloc, entry)?.as_str())?,
            None => said.push_str("none")?,
        }
        said.push_str(" ")?;
    }
    Ok(said)
}
