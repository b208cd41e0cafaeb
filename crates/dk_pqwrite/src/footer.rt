//! The footer of a file, and the file around it.

ghost use Rattle.std.specs.Prelude.{◌≡◌, ◌+◌, ◌<◌, ◌≤◌, ◌^◌, ◌++◌, ℕ, length, IfOk, List, OnOk};
ghost use Rattle.dk_grammar.specs.Plain.{little};
ghost use Rattle.dk_pqmodel.specs.FooterBytes.{SpellsFooter, magic};
ghost use Rattle.dk_pqmodel.specs.Footer.{count_of};
ghost use Rattle.dk_pqmodel.specs.NodeView.{fields_of};
ghost use Rattle.dk_pqmodel.specs.SchemaView.{fields_in};
ghost use Rattle.dk_pqwrite.specs.Chunks.{FitsFormat};
ghost use Rattle.dk_pqwrite.specs.Elements.{fields_of_element, said_of};
ghost use Rattle.dk_pqwrite.specs.Footers.{AreColumnsOf, EndsFile, PutsSchema, SpellsFileFields, file_said, footer_of, footer_size, root_said};
ghost use Rattle.dk_pqwrite.specs.Said.{SpellsFileSaid};
ghost use Rattle.dk_pqwrite.specs.Written.{written_nodes};
ghost use Rattle.dk_thrift.specs.Writing.{IsOpen};

use crate::element::{Element, write_element};
use crate::fields::{I32, I64, LIST, STRUCT, put_number, put_text};
use crate::group::{RowGroup, put_groups};
use crate::nodes::{count_nodes, write_nodes};
use dk_pqmodel::{Node, Schema};
use dk_thrift::Writer;
use std::alloc::{AllocError, Global};

/// What a Parquet file begins and ends with.
pub(crate) const MAGIC: &[u8] = b"PAR1";

/// The version of the format.
const VERSION: u64 = 1;

/// What wrote the file.
const CREATED_BY: &str = "deltak";

/// Ends a file of one row group, whose pages stand behind the first magic: the footer (Apache Parquet, "File format" and "Metadata"), its
/// length and the magic.
///
/// The group's chunks are those of the schema's columns, in order. The only error is want of memory; a footer of 4 GiB or more, or more
/// nodes than the format counts, counts as that.
pub(crate) fn end_file(
    alloc: Global,
    bytes: &mut Vec<u8>,
    schema: &Schema,
    group: &RowGroup,
) -> Result<(), AllocError>
    requires begun { (content : List ℕ) × (bytes.old.items ≡ magic ++ content) }
    requires fit { FitsFormat group.now }
    requires columns { AreColumnsOf (fields_in schema.now) group.now.chunks.items }
    ensures ended { OnOk result (EndsFile (footer_of (fields_in schema.now) group.now) (file_said (fields_in schema.now) group.now) bytes.old.items bytes.new.items) }
    ensures size { OnOk result (length bytes.new.items ≤ length bytes.old.items + 78 + footer_size (fields_in schema.now) group.now.chunks.items) }
{
    let footer = write_footer(alloc, schema, group)?;
    close(bytes, &footer)?;
    Ok(())
}

/// The footer behind the pages, its length and the magic.
pub(crate) fn close(bytes: &mut Vec<u8>, footer: &[u8]) -> Result<(), AllocError>
    ensures small { OnOk result (length footer.now < 2 ^ 32) }
    ensures closed { OnOk result (bytes.new.items ≡ bytes.old.items ++ (footer.now ++ (little 4 (length footer.now) ++ magic))) }
{
    let length = footer.len();
    if length >= 1 << 32 {
        return Err(AllocError);
    }
    bytes.extend_from_slice(footer)?;
    bytes.extend_from_slice(&number(length as u32))?;
    bytes.extend_from_slice(MAGIC)?;
    Ok(())
}

/// A number in four bytes, the least first.
fn number(number: u32) -> [u8; 4]
    ensures { result ≡ little 4 number }
{
    number.to_le_bytes()
}

/// The footer of a file of one row group (FileMetaData).
///
/// The group's chunks are those of the schema's columns, in order. The only error is want of memory; more nodes than the format counts
/// count as that.
pub(crate) fn write_footer(
    alloc: Global,
    schema: &Schema,
    group: &RowGroup,
) -> Result<Vec<u8>, AllocError>
    requires fit { FitsFormat group.now }
    requires columns { AreColumnsOf (fields_in schema.now) group.now.chunks.items }
    ensures spelled { IfOk result (λ v. SpellsFooter v.items (footer_of (fields_in schema.now) group.now)) }
    ensures says { IfOk result (λ v. SpellsFileSaid v.items (file_said (fields_in schema.now) group.now)) }
    ensures size { IfOk result (λ v. length v.items ≤ 70 + footer_size (fields_in schema.now) group.now.chunks.items) }
{
    let footer = write_fields(alloc, &schema.nodes, group)?;
    Ok(footer)
}

/// The fields of a FileMetaData.
pub(crate) fn write_fields(
    alloc: Global,
    nodes: &[Node],
    group: &RowGroup,
) -> Result<Vec<u8>, AllocError>
    requires { FitsFormat group.now }
    ensures spelled { IfOk result (λ v. SpellsFileFields (fields_of nodes.now) group.now v.items) }
    ensures size { IfOk result (λ v. length v.items ≤ 70 + footer_size (fields_of nodes.now) group.now.chunks.items) }
{
    let mut writer = Writer::new(alloc);
    put_number(&mut writer, 1, I32, VERSION)?;
    put_schema(&mut writer, nodes)?;
    put_number(&mut writer, 3, I64, group.rows)?;
    put_groups(&mut writer, group)?;
    put_text(&mut writer, 6, CREATED_BY)?;
    writer.end()?;
    Ok(writer.finish())
}

/// The field of the schema's elements.
fn put_schema(writer: &mut Writer, nodes: &[Node]) -> Result<(), AllocError>
    requires { IsOpen writer.old }
    ensures { OnOk result (PutsSchema (fields_of nodes.now) writer.old writer.new) }
{
    let count = count_elements(nodes)?;
    let root = root(nodes)?;
    writer.field(2, LIST)?;
    writer.list(count, STRUCT)?;
    write_element(writer, &root)?;
    write_nodes(writer, nodes)?;
    Ok(())
}

/// How many elements there are, the root among them, where the format can count them.
fn count_elements(nodes: &[Node]) -> Result<u32, AllocError>
    ensures { IfOk result (λ n. n ≡ length (said_of (written_nodes (fields_of nodes.now))) + 1) }
{
    let Some(below) = count_nodes(nodes) else {
        return Err(AllocError);
    };
    match below.checked_add(1) {
        Some(count) => Ok(count),
        None => Err(AllocError),
    }
}

/// The element of the root, where the format can count the fields at the top.
fn root(nodes: &[Node]) -> Result<Element<'static>, AllocError>
    ensures said { IfOk result (λ e. fields_of_element e ≡ root_said (fields_of nodes.now)) }
    ensures few { IfOk result (λ e. count_of (written_nodes (fields_of nodes.now)) < 2 ^ 31) }
{
    let count = nodes.len();
    if count >= 1 << 31 {
        return Err(AllocError);
    }
    Ok(Element {
        name: "root",
        repetition: None,
        physical: None,
        children: Some(count as u32),
        converted: None,
    })
}
