//! The words of the command line.
ghost use Rattle.std.specs.Prelude.{◌≡◌, option_copied, string_bytes};
ghost use Rattle.std.specs.Str.{all_ascii_digits, bytes_eq};
ghost use Rattle.dk_store.specs.Listing.{behind};
ghost use Rattle.dk_cli.specs.Run.{asked, writes_log};
ghost use Rattle.dk_cli.specs.Words.{command_of, commit_asked, is_short, reads_asked, reads_named, show_asked, option_value, version_to_show, version_spelled, words_of};

use dk_conflicts::Reads;
use dk_lawful::Choice;
use dk_paths::MAX_VERSION;
use dk_snapshot::usual_choice;

/// What the words of the command line ask for.
#[derive(Drop)]
pub enum Command {
    /// `show`: the text of this version, or of the latest one, as it is read under the choice.
    Show { at: Option<u64>, choice: Choice },
    /// `commit`: the actions of the input become the next version, by a transaction that has read so much of the table.
    Commit { reads: Reads },
}

/// The most digits of a version.
const MAX_DIGITS: usize = 19;

fn is_word(word: &String, text: &str) -> bool
    ensures { result ≡ bytes_eq (string_bytes word.now) text.now }
{
    word.as_str() == text
}

fn are_digits(word: &[u8]) -> bool
    ensures { result ≡ all_ascii_digits word.now }
{
    for byte in word {
        if !byte.is_ascii_digit() {
            return false;
        }
    }
    true
}

/// Whether a word has from one byte to as many as a version may have digits.
fn is_short(word: &[u8]) -> bool
    ensures { result ≡ is_short word.now }
{
    !word.is_empty() && word.len() <= MAX_DIGITS
}

/// A version: 1 to 19 decimal digits, from 0 to 9,223,372,036,854,775,807. Takes no memory.
fn version_spelled(word: &str) -> Option<u64>
    ensures { result ≡ version_spelled word.now }
{
    if !is_short(word.as_bytes()) || !are_digits(word.as_bytes()) {
        return None;
    }
    match word.parse::<u64>() {
        Ok(version) if version <= MAX_VERSION => Some(version),
        Ok(_) => None,
        Err(_) => None,
    }
}

/// What stands behind a front, if that stands there.
fn behind<'a>(front: &str, text: &'a str) -> Option<&'a str>
    ensures { option_copied result ≡ behind front.now text.now }
{
    text.strip_prefix(front)
}

/// The value of the one option that the words give: in a word of its own behind the name, or behind the name and `=`. Takes no
/// memory.
fn option_value<'a>(name: &str, joined: &str, words: &'a [String]) -> Option<&'a str>
    ensures { option_copied result ≡ option_value name.now joined.now (words_of words.now) }
{
    match words {
        [word] => behind(joined, word.as_str()),
        [word, value] if is_word(word, name) => Some(value.as_str()),
        _ => None,
    }
}

/// The version that the options ask `show` for. Takes no memory.
fn version_to_show(options: &[String]) -> Option<Option<u64>>
    ensures { result ≡ version_to_show (words_of options.now) }
{
    if options.is_empty() {
        return Some(None);
    }
    let version = version_spelled(option_value("--at", "--at=", options)?)?;
    Some(Some(version))
}

/// `show` with these options. Takes no memory.
fn show_asked(options: &[String]) -> Option<Command>
    ensures { result ≡ show_asked (words_of options.now) }
{
    let at = version_to_show(options)?;
    Some(Command::Show {
        at,
        choice: usual_choice(),
    })
}

/// What a transaction has read, by the word for it. Takes no memory.
fn reads_named(word: &str) -> Option<Reads>
    ensures { result ≡ reads_named word.now }
{
    match word {
        "nothing" => Some(Reads::Nothing),
        "table" => Some(Reads::Table),
        _ => None,
    }
}

/// What the options say that the transaction of `commit` has read. Takes no memory.
fn reads_asked(options: &[String]) -> Option<Reads>
    ensures { result ≡ reads_asked (words_of options.now) }
{
    if options.is_empty() {
        return Some(Reads::Nothing);
    }
    reads_named(option_value("--reads", "--reads=", options)?)
}

/// `commit` with these options. Takes no memory.
fn commit_asked(options: &[String]) -> Option<Command>
    ensures { result ≡ commit_asked (words_of options.now) }
{
    let reads = reads_asked(options)?;
    Some(Command::Commit { reads })
}

/// The command that the words ask for, where they are those of one. Takes no memory.
pub(crate) fn command_of(words: &[String]) -> Option<Command>
    ensures { result ≡ command_of (words_of words.now) }
{
    match words {
        [word, options @ ..] if is_word(word, "show") => show_asked(options),
        [word, options @ ..] if is_word(word, "commit") => commit_asked(options),
        _ => None,
    }
}

/// Whether the words ask for a command that changes the log. All other commands only read it, and words that ask for none
/// leave it. Takes no memory.
pub fn asks_to_write(words: &[String]) -> bool
    ensures { result ≡ writes_log (asked words.now) }
{
    match command_of(words) {
        Some(Command::Commit { reads: _ }) => true,
        Some(Command::Show { at: _, choice: _ }) | None => false,
    }
}
