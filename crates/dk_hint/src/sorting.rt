//! Texts in byte order, one behind another.

ghost use Rattle.std.specs.Prelude.{◌≡◌, [], IfOk, string_bytes, drop};
ghost use Rattle.dk_hint.specs.Canonical.{behind_commas, sorted_onto};
ghost use Rattle.dk_hint.specs.Sorted.{key_texts};

use dk_model::Text;
use std::alloc::{AllocError, Global};
use std::collections::BTreeSet;

/// The texts, each once.
pub fn sorted(alloc: Global, list: Vec<Text>) -> Result<BTreeSet<String>, AllocError>
    ensures { IfOk result (λ set. key_texts set.keys ≡ sorted_onto [] list.items) }
{
    let mut set = BTreeSet::new(alloc);
    'list: for text in list {
        set.insert(text.into_string())?;
    }
    Ok(set)
}

/// The texts, each behind a comma.
pub fn behind_commas(alloc: Global, set: BTreeSet<String>) -> Result<String, AllocError>
    ensures { IfOk result (λ out. string_bytes out ≡ behind_commas (key_texts set.keys)) }
{
    let mut out = String::new(alloc);
    'texts: for text in set {
        out.push_str(",")?;
        out.push_str(text.as_str())?;
    }
    Ok(out)
}

/// All but the first byte.
pub fn past_first(bytes: &[u8]) -> &[u8]
    ensures { result.now ≡ drop 1 bytes.now }
{
    match bytes.split_first() {
        Some((_first, rest)) => rest,
        None => bytes,
    }
}
