//! The actions of a text of lines.

ghost use Rattle.std.specs.Prelude.{◌≡◌, ◌∷◌, ◌<◌, ◌==◌, length, position, option_map, IfSome};
ghost use Rattle.dk_model.specs.CommitText.{is_blank as is_blank_line, json_of, line_means, lines_of, reading_of};
ghost use Rattle.dk_model.specs.LineFaults.{GivesLines};
ghost use Rattle.dk_actjson.specs.Cut.{lines_after};
ghost use Rattle.dk_actjson.specs.Faults.{Gives, GivesBy};
ghost use Rattle.dk_actjson.specs.Seen.{seen};
ghost use Rattle.json.specs.Value.{value_view};

use crate::action::read_action;
use crate::borrowed::parse;
use crate::fault::ActionFault;
use dk_model::{Action, Commit, LineFault};
use json::{Scratch, Value};
use std::alloc::Global;

fn is_blank(line: &[u8]) -> bool
    ensures { result ≡ is_blank_line line.now }
{
    line.iter()
        .all(|b| *b == b' ' || *b == b'\t' || *b == b'\r')
}

fn parse_line<'a>(
    alloc: Global,
    line: &'a [u8],
    scratch: &'a mut Scratch,
) -> Result<Value<'a>, ActionFault>
    ensures { GivesBy (λ v. seen (value_view v)) result (json_of line.now) }
{
    let Ok(text) = simdutf8::basic::from_utf8(line) else {
        return Err(ActionFault::Bad);
    };
    parse(alloc, text, scratch)
}

#[tactic(auto, unfolding(dk_model::specs::CommitText::line_means))]
fn read_line(
    alloc: Global,
    line: &[u8],
    scratch: &mut Scratch,
) -> Result<Option<Action>, ActionFault>
    ensures { Gives result (line_means line.now) }
{
    if is_blank(line) {
        return Ok(None);
    }
    let value = parse_line(alloc, line, scratch)?;
    read_action(alloc, &value)
}

fn newline(bytes: &[u8]) -> Option<usize>
    ensures { result ≡ position (λ b. b == 10) bytes.now }
{
    memchr::memchr(b'\n', bytes)
}

/// The first line, and what stands behind its newline.
fn first_line(bytes: &[u8]) -> (&[u8], Option<&[u8]>)
    ensures cut { lines_of bytes.now ≡ result.0.now ∷ lines_after (option_map (λ r. r.now) result.1) }
    ensures shorter { IfSome result.1 (λ r. length r.now < length bytes.now) }
{
    match newline(bytes) {
        Some(at) => (&bytes[..at], Some(&bytes[at + 1..])),
        None => (bytes, None),
    }
}

/// The actions of a text of lines (Delta Lake's PROTOCOL.md, "Delta Log Entries"), or the first line that means nothing, by its
/// number from 1. Blank lines and objects with no known key are passed over. Takes memory in proportion to the text.
pub fn read_commit(alloc: Global, bytes: &[u8]) -> Result<Commit, LineFault>
    ensures { GivesLines result (reading_of bytes.now) }
{
    let mut scratch = Scratch::new(alloc);
    let mut actions = Vec::new(alloc);
    let mut number = 0u64;
    let mut rest = Some(bytes);
    'lines: while let Some(bytes) = rest {
        let (line, after) = first_line(bytes);
        number += 1;
        match read_line(alloc, line, &mut scratch) {
            Ok(None) => {}
            Ok(Some(action)) => {
                if actions.push(action).is_err() {
                    return Err(LineFault::OutOfMemory);
                }
            }
            Err(ActionFault::Bad) => return Err(LineFault::Bad { line: number }),
            Err(ActionFault::OutOfMemory) => return Err(LineFault::OutOfMemory),
        }
        rest = after;
    }
    // Most commits are small, and a list grows to four actions at once.
    actions.shrink_to_fit();
    Ok(Commit::new(actions))
}
