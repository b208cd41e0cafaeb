//! The pages of a column, and the chunk that says where they stand.

ghost use Rattle.std.specs.Prelude.{◌≡◌, ◌<◌, ◌≤◌, [], true, false, IfOk, is_some, length, map, pos};
ghost use Rattle.dk_levels.specs.Borrowed.{borrowed_triple};
ghost use Rattle.dk_pqmodel.specs.FilePages.{physical_type};
ghost use Rattle.dk_pqmodel.specs.Shape.{chars as shape_chars};
ghost use Rattle.dk_pqwrite.specs.SchemaLeaves.{leaf_view};
ghost use Rattle.dk_pqwrite.specs.Writable.{IsWritableColumn};
ghost use Rattle.dk_pqwrite.specs.WrittenChunk.{WritesColumn, has_dictionary};
ghost use Rattle.dk_pqwrite.specs.WrittenColumn.{leaf_column_at, leaf_of_kind};

use crate::chunk::Chunk;
use crate::column::LeafKind;
use crate::dictionary::dictionary_of;
use crate::leaves::SchemaLeaf;
use crate::page::{add_coded_page, add_dictionary_page, add_plain_page};
use dk_levels::BorrowedTriple;
use std::alloc::{AllocError, Global};

/// Adds the pages of a column, and answers what a footer says of them: a data page with all triples and, for texts where a dictionary is
/// asked for, a page with their distinct texts before it.
pub(crate) fn write_column(
    alloc: Global,
    out: &mut Vec<u8>,
    leaf: SchemaLeaf,
    triples: &[BorrowedTriple<'_>],
    dictionary: bool,
) -> Result<Chunk, AllocError>
    requires begun { 0 < length out.old.items }
    requires writable { IsWritableColumn (leaf_column_at [] leaf.column) (map borrowed_triple triples.now) }
    ensures written { IfOk result (λ chunk. WritesColumn (leaf_view leaf) (map borrowed_triple triples.now) chunk out.old.items out.new.items) }
    ensures coded { IfOk result (λ chunk. is_some chunk.dictionary_page ≡ has_dictionary leaf.column.kind dictionary) }
{
    match leaf.column.kind {
        LeafKind::Chars if dictionary => write_coded(alloc, out, leaf, triples),
        _ => write_plain(alloc, out, leaf, triples),
    }
}

/// Adds a data page whose values are in the encoding PLAIN.
fn write_plain(
    alloc: Global,
    out: &mut Vec<u8>,
    leaf: SchemaLeaf,
    triples: &[BorrowedTriple<'_>],
) -> Result<Chunk, AllocError>
    requires { IsWritableColumn (leaf_column_at [] leaf.column) (map borrowed_triple triples.now) }
    ensures written { IfOk result (λ chunk. WritesColumn (leaf_view leaf) (map borrowed_triple triples.now) chunk out.old.items out.new.items) }
    ensures plain { IfOk result (λ chunk. is_some chunk.dictionary_page ≡ false) }
{
    let first_page = out.len() as u64;
    add_plain_page(alloc, out, leaf.column, triples)?;
    let end = out.len() as u64;
    Ok(Chunk {
        path: leaf.path,
        physical: physical_type(leaf.column.kind),
        values: triples.len() as u64,
        size: end - first_page,
        first_page,
        dictionary_page: None,
    })
}

/// Adds a page with the distinct texts, and a data page whose values are places among them.
fn write_coded(
    alloc: Global,
    out: &mut Vec<u8>,
    leaf: SchemaLeaf,
    triples: &[BorrowedTriple<'_>],
) -> Result<Chunk, AllocError>
    requires begun { 0 < length out.old.items }
    requires kind { leaf_of_kind leaf.column.kind ≡ shape_chars }
    requires writable { IsWritableColumn (leaf_column_at [] leaf.column) (map borrowed_triple triples.now) }
    ensures written { IfOk result (λ chunk. WritesColumn (leaf_view leaf) (map borrowed_triple triples.now) chunk out.old.items out.new.items) }
    ensures coded { IfOk result (λ chunk. is_some chunk.dictionary_page ≡ true) }
{
    let dictionary = dictionary_of(alloc, triples)?;
    let dictionary_page = out.len() as u64;
    add_dictionary_page(alloc, out, dictionary.texts.as_slice())?;
    let first_page = out.len() as u64;
    add_coded_page(alloc, out, leaf.column, &dictionary, triples)?;
    let end = out.len() as u64;
    Ok(Chunk {
        path: leaf.path,
        physical: physical_type(leaf.column.kind),
        values: triples.len() as u64,
        size: end - dictionary_page,
        first_page,
        dictionary_page: Some(dictionary_page),
    })
}

/// The code of the type that values of this kind are stored as (Apache Parquet, "Types").
fn physical_type(kind: LeafKind) -> u8
    ensures code { pos result ≡ physical_type (leaf_of_kind kind) }
    ensures small { result ≤ 6 }
{
    match kind {
        LeafKind::Flag => 0,
        LeafKind::Int32 => 1,
        LeafKind::Int64 => 2,
        LeafKind::Chars => 6,
    }
}
