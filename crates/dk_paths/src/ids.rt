//! UUIDs in names, in their one spelling: lower case with hyphens.

ghost use Rattle.std.specs.Prelude.{◌≡◌, ◌≤◌, length};
ghost use Rattle.dk_paths.specs.Numbers.{ReadsId, id_text};

use uuid::Uuid;

/// The UUID that all of `text` writes; `None` where it is written in any other way.
pub fn read_id(text: &[u8]) -> Option<u128>
    ensures { ReadsId text.now result }
{
    let Ok(read) = Uuid::try_parse_ascii(text) else {
        return None;
    };
    let id = read.as_u128();
    let mut buffer = Uuid::encode_buffer();
    let spelled = spelled_id(id, &mut buffer);
    if spelled.as_bytes() == text {
        Some(id)
    } else {
        None
    }
}

/// Writes a UUID to the start of `buffer`, and returns it.
fn spelled_id(id: u128, buffer: &mut [u8]) -> &str
    requires { 36 ≤ length buffer.old }
    ensures { result.now ≡ id_text id }
{
    Uuid::from_u128(id).hyphenated().encode_lower(buffer)
}
