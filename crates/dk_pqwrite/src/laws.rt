//! Laws of what is written. Each function does nothing; what it promises is the law.

ghost use Rattle.std.specs.Prelude.{◌≡◌, List, None, Some, [], ◌∷◌, map};
ghost use Rattle.dk_pqmodel.specs.Datum.{Cells};
ghost use Rattle.dk_pqmodel.specs.FileMeans.{columns_of};
ghost use Rattle.dk_pqmodel.specs.Fits.{AreRowsOf, AreTriplesOf};
ghost use Rattle.dk_pqmodel.specs.Footer.{Chunk, Element, IsTree, count_of, flat_of, if_distinct};
ghost use Rattle.dk_pqmodel.specs.Projection.{Path, projected_fields, first_misfit, projection, rows_widened};
ghost use Rattle.dk_pqmodel.specs.Schema.{IsSchema};
ghost use Rattle.dk_pqmodel.specs.Shape.{Fields};
ghost use Rattle.dk_pqmodel.specs.Triples.{triples};
ghost use Rattle.dk_pqwrite.specs.OverItself.{bare, own_plans, chunk_path, column_path};
ghost use Rattle.dk_pqwrite.specs.Written.{written_nodes};

/// A schema over the one that is written for it: nothing differs, each field is read at its own path as it is wanted, and rows of the
/// schema have the same triples by the file's schema, and are turned into themselves.
pub fn a_schema_is_read_over_the_written_one()
    ensures fitting { (fs : Fields) → IsSchema fs → first_misfit fs (written_nodes fs) ≡ None }
    ensures plans { (fs : Fields) → IsSchema fs → projection fs (written_nodes fs) ≡ own_plans fs [] }
    ensures cut { (fs : Fields) → IsSchema fs → projected_fields (projection fs (written_nodes fs)) ≡ bare fs }
    ensures triples { (fs : Fields) (rows : Cells) → IsSchema fs → AreRowsOf fs rows → AreTriplesOf (projected_fields (projection fs (written_nodes fs))) rows (triples fs rows) }
    ensures widened { (fs : Fields) (rows : Cells) → IsSchema fs → AreRowsOf fs rows → rows_widened (projection fs (written_nodes fs)) rows ≡ Some rows }
{}

/// The schema that is written is a tree as a footer has it, and no two of its columns have one path.
pub fn a_written_schema_is_a_tree()
    ensures tree { (fs : Fields) (root : Element) → IsSchema fs → root.children ≡ count_of (written_nodes fs) → IsTree (root ∷ flat_of (written_nodes fs)) (written_nodes fs) }
    ensures distinct { (fs : Fields) (chunks : List (Path × Chunk)) → IsSchema fs → map chunk_path chunks ≡ map column_path (columns_of (own_plans fs []) 0 0)
        → if_distinct chunks ≡ Some chunks }
{}
