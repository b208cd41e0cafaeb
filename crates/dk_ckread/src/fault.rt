//! Why a checkpoint gives no actions, as refusals say it.
ghost use Rattle.std.specs.Prelude.{◌≡◌, IfOk, option_copied};
ghost use Rattle.dk_ckread.specs.Names.{codec_name, encoding_name, known_codec};
ghost use Rattle.dk_ckread.specs.Reading.{refusal_by};

use dk_engine::Refusal;
use dk_model::Text;
use dk_pqmodel::PqFault;
use std::alloc::{AllocError, Global};

/// The name that the format gives to a codec by its number.
#[tactic(auto, unfolding(crate::specs::Names::known_codec))]
fn known_codec(codec: i32) -> Option<&'static str>
    ensures { option_copied result ≡ known_codec codec }
{
    if codec == 1 {
        return Some("SNAPPY");
    }
    if codec == 2 {
        return Some("GZIP");
    }
    if codec == 3 {
        return Some("LZO");
    }
    if codec == 4 {
        return Some("BROTLI");
    }
    if codec == 5 {
        return Some("LZ4");
    }
    if codec == 6 {
        return Some("ZSTD");
    }
    if codec == 7 {
        return Some("LZ4_RAW");
    }
    None
}

/// The name of a codec by its number; `CODEC_` and the number where the format names none.
fn codec_name(alloc: Global, codec: i32) -> Result<Text, AllocError>
    ensures { IfOk result (λ name. name ≡ codec_name codec) }
{
    match known_codec(codec) {
        Some(name) => Text::from_str(alloc, name),
        None => Ok(Text::new(format!(in alloc; "CODEC_{codec}")?)),
    }
}

/// The name of an encoding by its number.
fn encoding_name(alloc: Global, code: i32) -> Result<Text, AllocError>
    ensures { IfOk result (λ name. name ≡ encoding_name code) }
{
    Ok(Text::new(format!(in alloc; "ENCODING_{code}")?))
}

/// The object at the path means nothing.
pub fn damaged(alloc: Global, path: &str) -> Result<Refusal, AllocError>
    ensures { IfOk result (λ refusal. refusal ≡ Refusal.Damaged path.now 0) }
{
    Ok(Refusal::Damaged {
        path: Text::from_str(alloc, path)?,
        place: 0,
    })
}

/// What a refusal says of a file at the path that gives no rows.
pub fn refusal_by(alloc: Global, path: &str, fault: &PqFault) -> Result<Refusal, AllocError>
    ensures { IfOk result (λ refusal. refusal ≡ refusal_by path.now fault.now) }
{
    match fault {
        PqFault::NotParquet => damaged(alloc, path),
        PqFault::Shape { .. } => damaged(alloc, path),
        PqFault::Compressed { codec, .. } => Ok(Refusal::Unsupported {
            name: codec_name(alloc, *codec)?,
        }),
        PqFault::Encoding { code, .. } => Ok(Refusal::Unsupported {
            name: encoding_name(alloc, *code)?,
        }),
        PqFault::Broken => damaged(alloc, path),
        PqFault::OutOfMemory => Ok(Refusal::OutOfMemory),
    }
}
