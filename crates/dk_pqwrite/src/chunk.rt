//! What a footer says of the chunks of columns, as it is written.

ghost use Rattle.std.specs.Prelude.{◌≡◌, ◌+◌, ◌*◌, IfOk, OnOk, length, map, pos, string_bytes, sum_by};
ghost use Rattle.dk_grammar.specs.Grammar.{SpellsWhole};
ghost use Rattle.dk_grammar.specs.Lists.{SpellsEach, SpellsListOf};
ghost use Rattle.dk_pqmodel.specs.FooterBytes.{SpellsName, SpellsPath};
ghost use Rattle.dk_pqwrite.specs.Chunks.{IsFit, chunk_said, encodings_of, meta_said, path_of_chunk};
ghost use Rattle.dk_pqwrite.specs.FooterSizes.{chunk_size, name_size};
ghost use Rattle.dk_pqwrite.specs.Items.{PutsHeld, WritesValue};
ghost use Rattle.dk_pqwrite.specs.Said.{SpellsChunkSaid, SpellsMetaSaid};
ghost use Rattle.dk_thrift.specs.Writing.{IsOpen};

use crate::fields::{BINARY, I32, I64, LIST, STRUCT, put_number, put_place};
use dk_thrift::Writer;
use std::alloc::AllocError;

/// The codec of pages that aren't compressed.
const UNCOMPRESSED: u64 = 0;

/// The encodings of pages with plain values: PLAIN, and RLE for levels.
const PLAIN: [u8; 2] = [0, 3];

/// The encodings where there is a dictionary: RLE_DICTIONARY is one more.
const DICTIONARY: [u8; 3] = [0, 3, 8];

/// A chunk of a column, whose pages are written. Sizes and places are in bytes, places from the front of the file.
#[derive(Drop)]
pub(crate) struct Chunk {
    /// The names from the top of the schema to the column.
    pub path: Vec<String>,
    /// The code of the physical type.
    pub physical: u8,
    /// How many values it has, nulls among them.
    pub values: u64,
    /// How many bytes its pages have, their headers among them.
    pub size: u64,
    /// The place of the first data page.
    pub first_page: u64,
    /// The place of the dictionary page, where there is one.
    pub dictionary_page: Option<u64>,
}

/// A chunk (ColumnChunk), as a struct inside another one.
pub(crate) fn write_chunk(writer: &mut Writer, chunk: &Chunk) -> Result<(), AllocError>
    requires in_struct { IsOpen writer.old }
    requires fit { IsFit chunk.now }
    ensures { OnOk result (WritesValue SpellsChunkSaid (chunk_said chunk.now) (chunk_size (path_of_chunk chunk.now)) writer.old writer.new) }
{
    writer.enter()?;
    put_number(writer, 2, I64, 0)?;
    put_metadata(writer, chunk)?;
    writer.end()?;
    Ok(())
}

/// The field of a chunk's metadata.
fn put_metadata(writer: &mut Writer, chunk: &Chunk) -> Result<(), AllocError>
    requires in_struct { IsOpen writer.old }
    requires fit { IsFit chunk.now }
    ensures { OnOk result (PutsHeld 3 12 SpellsMetaSaid (meta_said chunk.now) (88 + sum_by name_size (path_of_chunk chunk.now)) writer.old writer.new) }
{
    writer.field(3, STRUCT)?;
    write_metadata(writer, chunk)?;
    Ok(())
}

/// A chunk's metadata (ColumnMetaData), as a struct inside another one.
fn write_metadata(writer: &mut Writer, chunk: &Chunk) -> Result<(), AllocError>
    requires in_struct { IsOpen writer.old }
    requires fit { IsFit chunk.now }
    ensures { OnOk result (WritesValue SpellsMetaSaid (meta_said chunk.now) (88 + sum_by name_size (path_of_chunk chunk.now)) writer.old writer.new) }
{
    writer.enter()?;
    put_number(writer, 1, I32, u64::from(chunk.physical))?;
    put_encodings(writer, encodings(chunk.dictionary_page.is_some()))?;
    put_path(writer, &chunk.path)?;
    put_number(writer, 4, I32, UNCOMPRESSED)?;
    put_number(writer, 5, I64, chunk.values)?;
    put_number(writer, 6, I64, chunk.size)?;
    put_number(writer, 7, I64, chunk.size)?;
    put_number(writer, 9, I64, chunk.first_page)?;
    put_place(writer, 11, chunk.dictionary_page)?;
    writer.end()?;
    Ok(())
}

/// The encodings of a chunk's pages.
fn encodings(dictionary: bool) -> &'static [u8]
    ensures { result.now ≡ encodings_of dictionary }
{
    if dictionary { &DICTIONARY } else { &PLAIN }
}

/// The field of the encodings.
fn put_encodings(writer: &mut Writer, encodings: &[u8]) -> Result<(), AllocError>
    requires { IsOpen writer.old }
    ensures { OnOk result (PutsHeld 2 9 (SpellsListOf 5 SpellsWhole) (map pos encodings.now) (6 + 2 * length encodings.now) writer.old writer.new) }
{
    let count = count(encodings.len())?;
    writer.field(2, LIST)?;
    writer.list(count, I32)?;
    write_wholes(writer, encodings)?;
    Ok(())
}

/// Whole numbers, one behind another.
fn write_wholes(writer: &mut Writer, numbers: &[u8]) -> Result<(), AllocError>
    requires { IsOpen writer.old }
    ensures { OnOk result (WritesValue (SpellsEach SpellsWhole) (map pos numbers.now) (2 * length numbers.now) writer.old writer.new) }
{
    for number in numbers {
        write_whole(writer, *number)?;
    }
    Ok(())
}

/// A whole number.
fn write_whole(writer: &mut Writer, number: u8) -> Result<(), AllocError>
    requires { IsOpen writer.old }
    ensures { OnOk result (WritesValue SpellsWhole (pos number) 2 writer.old writer.new) }
{
    writer.whole(i64::from(number))?;
    Ok(())
}

/// The field of the path.
fn put_path(writer: &mut Writer, path: &[String]) -> Result<(), AllocError>
    requires { IsOpen writer.old }
    ensures { OnOk result (PutsHeld 3 9 SpellsPath (map string_bytes path.now) (6 + sum_by name_size (map string_bytes path.now)) writer.old writer.new) }
{
    let count = count(path.len())?;
    writer.field(3, LIST)?;
    writer.list(count, BINARY)?;
    write_names(writer, path)?;
    Ok(())
}

/// Names, one behind another.
fn write_names(writer: &mut Writer, names: &[String]) -> Result<(), AllocError>
    requires { IsOpen writer.old }
    ensures { OnOk result (WritesValue (SpellsEach SpellsName) (map string_bytes names.now) (sum_by name_size (map string_bytes names.now)) writer.old writer.new) }
{
    for name in names {
        write_name(writer, name)?;
    }
    Ok(())
}

/// A name.
fn write_name(writer: &mut Writer, name: &str) -> Result<(), AllocError>
    requires { IsOpen writer.old }
    ensures { OnOk result (WritesValue SpellsName name.now (name_size name.now) writer.old writer.new) }
{
    writer.binary(name.as_bytes())?;
    Ok(())
}

/// How many elements a list has, where the format can count them; of more there is no memory for the list.
pub(crate) fn count(count: usize) -> Result<u32, AllocError>
    ensures { IfOk result (λ n. n ≡ count) }
{
    if count < 1 << 32 {
        Ok(count as u32)
    } else {
        Err(AllocError)
    }
}
