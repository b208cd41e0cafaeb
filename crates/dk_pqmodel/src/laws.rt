//! Laws of rows and schemas. Each function does nothing; what it promises is the law.

ghost use Rattle.dk_pqmodel.specs.Laws.{FittingRowsMatch};

/// Rows that fit a schema have its form.
pub fn fitting_rows_match()
    ensures { FittingRowsMatch }
{}
