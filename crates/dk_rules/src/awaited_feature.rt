//! Features that the log's law permits and that aren't written so far.
ghost use Rattle.std.specs.Prelude.{◌≡◌, ◌==◌, [], find, option_map, if◌then◌else◌};
ghost use Rattle.std.specs.Option.{option_copied};
ghost use Rattle.dk_model.specs.State.{steps};
ghost use Rattle.dk_features.specs.InForce.{listed_features};
ghost use Rattle.dk_model.specs.NameSets.{is_one_of};
ghost use Rattle.dk_lawful.specs.SoFar.{awaited};
ghost use Rattle.dk_lawful.specs.Written.{of_commits};

use crate::rules::protocol_after;
use dk_model::{Action, Names, Protocol, TableState, Text};

fn is_awaited(name: &str) -> bool
    ensures { result ≡ is_one_of of_commits name.now }
{
    match name {
        "inCommitTimestamp" | "catalogManaged" => true,
        _ => false,
    }
}

/// The first of these features in a list.
fn first_awaited(names: &[Text]) -> Option<&Text>
    ensures { option_map (λ text. text.now) result ≡ find (is_one_of of_commits) names.now }
{
    'names: for name in names {
        if is_awaited(name.as_str()) {
            return Some(name);
        }
    }
    None
}

/// The names of a list that may be absent.
fn listed(names: &Option<Names>) -> &[Text]
    ensures { result.now ≡ listed_features names.now }
{
    match names {
        None => &[],
        Some(names) => names.as_slice(),
    }
}

/// The first of them that readers are asked for, where the list counts.
fn awaited_of_readers(protocol: &Protocol) -> Option<&Text>
    ensures { option_map (λ text. text.now) result ≡ find (is_one_of of_commits) (if protocol.now.min_reader == 3 then listed_features protocol.now.reader_features else []) }
{
    if protocol.min_reader == 3 {
        return first_awaited(listed(&protocol.reader_features));
    }
    None
}

/// The first of them that writers are asked for, where the list counts.
fn awaited_of_writers(protocol: &Protocol) -> Option<&Text>
    ensures { option_map (λ text. text.now) result ≡ find (is_one_of of_commits) (if protocol.now.min_writer == 7 then listed_features protocol.now.writer_features else []) }
{
    if protocol.min_writer == 7 {
        return first_awaited(listed(&protocol.writer_features));
    }
    None
}

/// The first of them that a protocol asks for.
fn awaited(protocol: Option<&Protocol>) -> Option<&Text>
    ensures { option_map (λ text. text.now) result ≡ awaited (option_copied protocol.entry) }
{
    match protocol {
        None => None,
        Some(protocol) => match awaited_of_readers(protocol) {
            Some(name) => Some(name),
            None => awaited_of_writers(protocol),
        },
    }
}

/// The first feature that a table asks for by its lists, once a commit has these actions, and that tables may have by the rules of
/// the log and aren't written with so far (Delta Lake's PROTOCOL.md, "In-Commit Timestamps", "Catalog-managed tables").
/// Takes no memory.
pub fn awaited_after<'a>(before: &'a TableState, actions: &'a [Action]) -> Option<&'a Text>
    ensures { option_map (λ text. text.now) result ≡ awaited (steps before.now actions.now).protocol }
{
    awaited(protocol_after(before, actions))
}
