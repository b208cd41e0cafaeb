//! Laws of Parquet files. Each function does nothing; what it promises is the law.

ghost use Rattle.dk_pqmodel.specs.FileMeans.{MeansOneList};
ghost use Rattle.dk_pqread.specs.Laws.{PlainValuesAreRead, PlainValuesStand};

/// A file means at most one list of rows of wanted fields.
pub fn a_file_means_one_list()
    ensures { MeansOneList }
{}

/// Plain values are read exactly where they stand (Apache Parquet, "Plain").
pub fn plain_values_are_read_by_their_grammar()
    ensures given { PlainValuesAreRead }
    ensures found { PlainValuesStand }
{}
