//! The program around the top call.

use crate::early::Early;
use crate::folder::Folder;
use dk_cli::{asks_to_write, fault_line, run};
use dk_dir::{StdSink, StdSource};
use dk_engine::{Engine, Limits};
use dk_handlers::{PlainParquet, SerdeJson};
use std::alloc::AllocGlobal;
use std::env;
use std::io::Eprint;
use std::random::RandomSource;
use std::rt::{Clock, Env};
use std::time::{SystemTime, UNIX_EPOCH};

/// The words of the command line behind the program's name.
fn words_of<R: Env + AllocGlobal>(rt: &R) -> Result<Vec<String>, Early> {
    let mut words = Vec::new(rt.alloc());
    for word in env::args(rt)?.skip(1) {
        words.push(word)?;
    }
    Ok(words)
}

/// Milliseconds since 1970-01-01T00:00:00Z, if the clock gives them.
fn now_of<R: Clock>(rt: &R) -> Option<i64> {
    let now = SystemTime::now(rt).ok()?;
    let since = now.duration_since(UNIX_EPOCH).ok()?;
    i64::try_from(since.as_millis()).ok()
}

/// Sixteen random bytes as a number, if the system gives them.
fn base_of<R: RandomSource>(rt: &R) -> Option<u128> {
    let mut bytes = [0; 16];
    rt.fill_bytes(&mut bytes).ok()?;
    Some(u128::from_be_bytes(bytes))
}

/// Writes a line to standard error. That it can't be written changes no status.
fn report<R: Eprint>(rt: &R, answer: &str) {
    let _ = rt.eprintln(format_args!("deltak: {answer}"));
}

/// The table's folder: a command that only reads asks for it beside other readers.
fn folder_for(rt: HostRuntime, path: String, words: &[String]) -> Folder {
    if asks_to_write(words) {
        Folder::writing(rt, path)
    } else {
        Folder::reading(rt, path)
    }
}

/// Carries out the words over the folder, and says on standard error what isn't Done.
fn carry_out(
    rt: &HostRuntime,
    folder: String,
    words: &[String],
    now: i64,
    base: u128,
) -> Result<u8, Early> {
    let alloc = rt.alloc();
    let store = folder_for(rt.clone()?, folder, words);
    let mut engine = Engine {
        store: Box::new(alloc, store)?,
        json: Box::new(alloc, SerdeJson::new())?,
        parquet: Box::new(alloc, PlainParquet::new())?,
        spares: Vec::new(alloc),
        limits: Limits::usual(),
    };
    let mut input = StdSource::new(rt);
    let mut out = StdSink::new(rt.clone()?);
    let status = run(alloc, words, &mut engine, &mut input, &mut out, now, base);
    if let Some(line) = fault_line(alloc, &status)? {
        report(rt, line.as_str());
    }
    Ok(status.code())
}

/// The first word is the folder, the others are the command.
fn try_words(rt: &HostRuntime) -> Result<u8, Early> {
    let mut words = words_of(rt)?;
    if words.is_empty() {
        return Err(Early::Usage);
    }
    let folder = words.remove(0);
    let Some(now) = now_of(rt) else {
        return Err(Early::Clock);
    };
    let Some(base) = base_of(rt) else {
        return Err(Early::Random);
    };
    carry_out(rt, folder, &words, now, base)
}

/// Does all that the words of the command line ask for, and answers the exit status.
pub fn exit_status(rt: &HostRuntime) -> u8 {
    match try_words(rt) {
        Ok(code) => code,
        Err(early) => {
            report(rt, early.answer());
            early.code()
        }
    }
}
