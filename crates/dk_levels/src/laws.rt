//! Laws of triples. Each function does nothing; what it promises is the law.

ghost use Rattle.dk_levels.specs.Laws.{SchemasAreReadable, ProjectedIsReadable, OneReading, TriplesOfAppended};

/// The fields of a schema can be read.
pub fn schemas_are_readable()
    ensures { SchemasAreReadable }
{}

/// What is read of a file for a schema can be read, where the file has some of it.
pub fn projected_is_readable()
    ensures { ProjectedIsReadable }
{}

/// At most one list of rows has given triples.
pub fn one_reading()
    ensures { OneReading }
{}

/// The triples of rows and of more rows behind them are the triples of both, joined column by
/// column. So rows may be read by pages and by row groups.
pub fn triples_of_appended()
    ensures { TriplesOfAppended }
{}
