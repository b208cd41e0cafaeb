//! Paths: the names from the top of a schema to a column.

ghost use Rattle.std.specs.Prelude.{◌≡◌, [], ◌∷◌, ◌++◌, IfOk, string_bytes};
ghost use Rattle.dk_pqmodel.specs.Projection.{dotted};
ghost use Rattle.dk_pqread.specs.PlanView.{path_of};

use std::alloc::{AllocError, Global};

/// The path to what stands under a name.
pub(crate) fn below(alloc: Global, path: &[String], name: &str) -> Result<Vec<String>, AllocError>
    ensures { IfOk result (λ v. path_of v.items ≡ path_of path.now ++ (name.now ∷ [])) }
{
    let mut names = copy_path(alloc, path)?;
    names.push(String::from_str(alloc, name)?)?;
    Ok(names)
}

/// The path to what stands two names further down.
pub(crate) fn below_two(
    alloc: Global,
    path: &[String],
    outer: &str,
    inner: &str,
) -> Result<Vec<String>, AllocError>
    ensures { IfOk result (λ v. path_of v.items ≡ path_of path.now ++ (outer.now ∷ inner.now ∷ [])) }
{
    let mut names = below(alloc, path, outer)?;
    names.push(String::from_str(alloc, inner)?)?;
    Ok(names)
}

/// A path of the same names.
pub(crate) fn copy_path(alloc: Global, path: &[String]) -> Result<Vec<String>, AllocError>
    ensures { IfOk result (λ v. path_of v.items ≡ path_of path.now) }
{
    let mut names = Vec::new(alloc);
    for name in path {
        names.push(name.clone()?)?;
    }
    Ok(names)
}

/// The names of a path, joined by full stops.
pub(crate) fn dotted(alloc: Global, path: &[String]) -> Result<String, AllocError>
    ensures { IfOk result (λ s. string_bytes s ≡ dotted (path_of path.now)) }
{
    let Some((first, rest)) = path.split_first() else {
        return Ok(String::new(alloc));
    };
    let mut column = first.clone()?;
    for name in rest {
        column.push_str(".")?;
        column.push_str(name)?;
    }
    Ok(column)
}
