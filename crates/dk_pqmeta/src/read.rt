//! The footer of a file, from its bytes.

ghost use Rattle.std.specs.Prelude.{map, option_and_then};
ghost use Rattle.dk_pqmodel.specs.Footer.{each_of, schema_element, group_of};
ghost use Rattle.dk_pqmeta.specs.Footers.{AnswersFooter, file_in};
ghost use Rattle.dk_pqmeta.specs.Kept.{element_kept, file_kept, group_kept};
ghost use Rattle.dk_pqmeta.specs.Trees.{footer_from};
ghost use Rattle.dk_pqmeta.specs.View.{MakesOf, element_view, footer_view, group_view};

use crate::element::Element;
use crate::fault::MetaFault;
use crate::file::FileMetaData;
use crate::footer::{Footer, RowGroup};
use crate::frame::footer_part;
use crate::group::Group;
use crate::numbers::natural;
use crate::structs::read_struct;
use crate::tree::{SchemaElement, read_tree};
use dk_pqmodel::PqFault;
use dk_thrift::Reader;
use std::alloc::Global;

/// The footer of a Parquet file, from all of the file's bytes (Apache Parquet, "File format" and "Metadata").
///
/// `NotParquet` comes exactly where the magic or the footer's length doesn't fit, and `Broken` exactly where they do and no footer is
/// spelled there: a field that is needed isn't there, a number is out of its range, the elements of the schema make no tree of at most
/// 100 levels, two fields of one group have one name, or two chunks of one row group have one path. There is no other refusal but
/// `OutOfMemory`. What grows is in proportion to the bytes, whatever counts they claim.
pub fn read_footer(alloc: Global, bytes: &[u8]) -> Result<Footer, PqFault>
    ensures { AnswersFooter bytes.now result }
{
    let Some(part) = footer_part(bytes) else {
        return Err(PqFault::NotParquet);
    };
    match read_part(alloc, part) {
        Ok(footer) => Ok(footer),
        Err(MetaFault::Broken) => Err(PqFault::Broken),
        Err(MetaFault::OutOfMemory) => Err(PqFault::OutOfMemory),
    }
}

/// The footer that all of the bytes spell.
fn read_part(alloc: Global, bytes: &[u8]) -> Result<Footer, MetaFault>
    ensures { MakesOf footer_view result (option_and_then footer_from (file_in bytes.now)) }
{
    let file = read_file(alloc, bytes)?;
    make_footer(alloc, file)
}

/// The fields of the FileMetaData that the bytes are.
fn read_file(alloc: Global, bytes: &[u8]) -> Result<FileMetaData, MetaFault>
    ensures { MakesOf file_kept result (file_in bytes.now) }
{
    let mut reader = Reader::new(bytes);
    let file = read_struct(alloc, &mut reader)?;
    if reader.rest().is_empty() {
        Ok(file)
    } else {
        Err(MetaFault::Broken)
    }
}

fn make_footer(alloc: Global, file: FileMetaData) -> Result<Footer, MetaFault>
    ensures { MakesOf footer_view result (footer_from (file_kept file)) }
{
    let FileMetaData {
        schema,
        rows,
        groups,
    } = file;
    let Some(rows) = natural(rows) else {
        return Err(MetaFault::Broken);
    };
    let Some(schema) = schema else {
        return Err(MetaFault::Broken);
    };
    let Some(groups) = groups else {
        return Err(MetaFault::Broken);
    };
    let fields = read_tree(alloc, schema_elements(alloc, schema)?)?;
    let groups = row_groups(alloc, groups)?;
    Ok(Footer {
        rows,
        fields,
        groups,
    })
}

fn schema_elements(alloc: Global, schema: Vec<Element>) -> Result<Vec<SchemaElement>, MetaFault>
    ensures { MakesOf (λ v. map element_view v.items) result (each_of schema_element (map element_kept schema.items)) }
{
    let mut elements = Vec::new(alloc);
    for element in schema {
        let Some(element) = element.into_schema() else {
            return Err(MetaFault::Broken);
        };
        elements.push(element)?;
    }
    Ok(elements)
}

fn row_groups(alloc: Global, groups: Vec<Group>) -> Result<Vec<RowGroup>, MetaFault>
    ensures { MakesOf (λ v. map group_view v.items) result (each_of group_of (map group_kept groups.items)) }
{
    let mut row_groups = Vec::new(alloc);
    for group in groups {
        row_groups.push(group.into_row_group(alloc)?)?;
    }
    Ok(row_groups)
}
