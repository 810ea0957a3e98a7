// A command over files in memory.

use rast_cli::{Exit, rast, rast_static};
use rast_io::{MemFiles, MemSink};
use std::alloc::{AllocError, Global};

// The most bytes that one write takes, and the room for all that is written.
const PIECE: usize = 10;

const ROOM: usize = 2_000_000;

/// A file that commands read.
#[derive(Drop)]
pub(crate) struct TextFile {
    pub name: String,
    pub bytes: Vec<u8>,
}

/// The calls that fail in a command, counted from 1.
#[derive(Clone, Copy)]
pub(crate) struct Faults {
    pub read: Option<u32>,
    pub write: Option<u32>,
}

/// What came of a command.
#[derive(Drop)]
pub(crate) struct Ended {
    pub status: u8,
    pub events: usize,
    pub written: Vec<u8>,
}

// Puts the words of a part that stands between no quotes behind others.
fn put_plain(alloc: Global, words: &mut Vec<String>, part: &str) -> Result<(), AllocError> {
    for word in part.split_whitespace() {
        put_word(alloc, words, word)?;
    }
    Ok(())
}

fn put_word(alloc: Global, words: &mut Vec<String>, word: &str) -> Result<(), AllocError> {
    let word = String::from_str(alloc, word)?;
    words.push(word)?;
    Ok(())
}

/// Puts the words of a line behind others. They stand between blanks, and what stands between two
/// `'` is one word.
pub(crate) fn put_words(
    alloc: Global,
    words: &mut Vec<String>,
    line: &str,
) -> Result<(), AllocError> {
    let mut quoted = false;
    for part in line.split('\'') {
        if quoted {
            put_word(alloc, words, part)?;
        } else {
            put_plain(alloc, words, part)?;
        }
        quoted = !quoted;
    }
    Ok(())
}

// Puts a copy of a file among those in memory.
fn put_file(files: &mut MemFiles, text: &TextFile) -> Result<(), AllocError> {
    let name = text.name.clone()?;
    match text.bytes.clone() {
        Ok(bytes) => files.put(name, bytes),
        Err(_) => {
            drop(name);
            Err(AllocError)
        }
    }
}

// Puts the files, the room and the faults into empty ones.
fn prepare(
    files: &mut MemFiles,
    out: &mut MemSink,
    texts: &[TextFile],
    faults: Faults,
) -> Result<(), AllocError> {
    for text in texts {
        put_file(files, text)?;
    }
    out.reserve(ROOM)?;
    if let Some(call) = faults.read {
        files.fail_at(call)?;
    }
    if let Some(call) = faults.write {
        out.fail_at(call)?;
    }
    Ok(())
}

// The call that the first word names.
fn call(alloc: Global, words: &[String], files: &mut MemFiles, out: &mut MemSink) -> Exit {
    if let Some(word) = words.first()
        && word.as_str() == "rast_static"
    {
        return rast_static(alloc, words, files, out);
    }
    rast(alloc, words, files, out)
}

// Runs a command over these files and this sink.
fn run_over(
    alloc: Global,
    words: &[String],
    files: &mut MemFiles,
    out: &mut MemSink,
) -> Result<Ended, AllocError> {
    let exit = call(alloc, words, files, out);
    let (status, events) = (exit.status, exit.history.len());
    drop(exit);
    let written = out.bytes().to_vec(alloc)?;
    Ok(Ended {
        status,
        events,
        written,
    })
}

/// Runs a command over these files.
pub(crate) fn run(
    alloc: Global,
    texts: &[TextFile],
    words: &[String],
    faults: Faults,
) -> Result<Ended, AllocError> {
    let mut files = MemFiles::new(alloc);
    let mut out = MemSink::new(alloc, PIECE);
    let ended = match prepare(&mut files, &mut out, texts, faults) {
        Ok(()) => run_over(alloc, words, &mut files, &mut out),
        Err(_) => Err(AllocError),
    };
    drop(files);
    drop(out);
    ended
}
