//! The row group, as it is written.

ghost use Rattle.std.specs.Prelude.{◌+◌, ◌∷◌, [], All, OnOk, map};
ghost use Rattle.dk_grammar.specs.Lists.{SpellsEach, SpellsListOf};
ghost use Rattle.dk_pqwrite.specs.Said.{SpellsChunkSaid, SpellsGroupSaid};
ghost use Rattle.dk_pqwrite.specs.Chunks.{FitsFormat, IsFit, chunk_said, chunks_size, group_said};
ghost use Rattle.dk_pqwrite.specs.Items.{PutsHeld, WritesValue};
ghost use Rattle.dk_thrift.specs.Writing.{IsOpen};

use crate::chunk::{Chunk, count, write_chunk};
use crate::fields::{I64, LIST, STRUCT, put_number};
use dk_thrift::Writer;
use std::alloc::AllocError;

/// The rows of a file, whose pages are written: how many there are, how many bytes all pages have, and the chunks of the columns, in order.
#[derive(Drop)]
pub(crate) struct RowGroup {
    pub rows: u64,
    pub size: u64,
    pub chunks: Vec<Chunk>,
}

/// The field of the row groups, of which there is one.
pub(crate) fn put_groups(writer: &mut Writer, group: &RowGroup) -> Result<(), AllocError>
    requires in_struct { IsOpen writer.old }
    requires fit { FitsFormat group.now }
    ensures { OnOk result (PutsHeld 4 9 (SpellsListOf 12 SpellsGroupSaid) (group_said group.now ∷ []) (36 + chunks_size group.now.chunks.items) writer.old writer.new) }
{
    writer.field(4, LIST)?;
    writer.list(1, STRUCT)?;
    write_group(writer, group)?;
    Ok(())
}

/// A row group (RowGroup), as a struct inside another one.
fn write_group(writer: &mut Writer, group: &RowGroup) -> Result<(), AllocError>
    requires in_struct { IsOpen writer.old }
    requires fit { FitsFormat group.now }
    ensures { OnOk result (WritesValue SpellsGroupSaid (group_said group.now) (30 + chunks_size group.now.chunks.items) writer.old writer.new) }
{
    writer.enter()?;
    put_chunks(writer, &group.chunks)?;
    put_number(writer, 2, I64, group.size)?;
    put_number(writer, 3, I64, group.rows)?;
    writer.end()?;
    Ok(())
}

/// The field of the chunks.
fn put_chunks(writer: &mut Writer, chunks: &[Chunk]) -> Result<(), AllocError>
    requires in_struct { IsOpen writer.old }
    requires fit { All IsFit chunks.now }
    ensures { OnOk result (PutsHeld 1 9 (SpellsListOf 12 SpellsChunkSaid) (map chunk_said chunks.now) (6 + chunks_size chunks.now) writer.old writer.new) }
{
    let count = count(chunks.len())?;
    writer.field(1, LIST)?;
    writer.list(count, STRUCT)?;
    write_chunks(writer, chunks)?;
    Ok(())
}

/// Chunks, one behind another.
fn write_chunks(writer: &mut Writer, chunks: &[Chunk]) -> Result<(), AllocError>
    requires in_struct { IsOpen writer.old }
    requires fit { All IsFit chunks.now }
    ensures { OnOk result (WritesValue (SpellsEach SpellsChunkSaid) (map chunk_said chunks.now) (chunks_size chunks.now) writer.old writer.new) }
{
    for chunk in chunks {
        write_chunk(writer, chunk)?;
    }
    Ok(())
}
