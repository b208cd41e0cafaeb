//! Calls on footers.

use anyhow::Result;
use dk_pqmeta::{Chunk, FileNode, Footer, read_footer};
use std::alloc::{AllocError, Global};

/// What the footer says that these bytes are, in a file without pages.
pub fn footer(alloc: Global, input: &str) -> Result<String> {
    let part = hex::decode(alloc, input)?;
    let size = u32::try_from(part.len())?;
    let mut bytes = Vec::new(alloc);
    bytes.extend_from_slice(b"PAR1")?;
    bytes.extend_from_slice(&part)?;
    bytes.extend_from_slice(&size.to_le_bytes())?;
    bytes.extend_from_slice(b"PAR1")?;
    let footer = read_footer(alloc, &bytes)?;
    let text = footer_text(alloc, &footer)?;
    Ok(text)
}

/// What the footer of a file of these bytes says.
pub fn file(alloc: Global, input: &str) -> Result<String> {
    let bytes = hex::decode(alloc, input)?;
    let footer = read_footer(alloc, &bytes)?;
    let text = footer_text(alloc, &footer)?;
    Ok(text)
}

fn footer_text(alloc: Global, footer: &Footer) -> Result<String, AllocError> {
    let mut said = format!(in alloc; "{} rows ", footer.rows)?;
    say_nodes(&mut said, &footer.fields)?;
    for group in &footer.groups {
        write!(said, "; {} rows", group.rows)?;
        for (path, chunk) in &group.columns {
            say_path(&mut said, path)?;
            say_chunk(&mut said, chunk)?;
        }
    }
    Ok(said)
}

/// Each field by its name, its repetition and its type, with the fields of a group in parentheses.
#[cycle(nodes)]
fn say_nodes(said: &mut String, nodes: &[FileNode]) -> Result<(), AllocError> {
    for node in nodes {
        say_node(said, node)?;
    }
    Ok(())
}

#[cycle(nodes)]
fn say_node(said: &mut String, node: &FileNode) -> Result<(), AllocError> {
    write!(said, "{}", node.name)?;
    write!(said, ":{}", node.repetition)?;
    if let Some(physical) = node.physical {
        write!(said, ":{physical}")?;
    }
    said.push_str("(")?;
    say_nodes(said, &node.children)?;
    said.push_str(")")
}

fn say_path(said: &mut String, path: &[String]) -> Result<(), AllocError> {
    said.push_str(",")?;
    for name in path {
        write!(said, " {name}")?;
    }
    Ok(())
}

/// The type, the codec, the number of values, and the places of the first page and of the dictionary page.
fn say_chunk(said: &mut String, chunk: &Chunk) -> Result<(), AllocError> {
    write!(
        said,
        ": {} {} {}",
        chunk.physical, chunk.codec, chunk.values
    )?;
    write!(said, " at {}", chunk.first_page)?;
    match chunk.dictionary_page {
        Some(place) => write!(said, " and {place}"),
        None => Ok(()),
    }
}
