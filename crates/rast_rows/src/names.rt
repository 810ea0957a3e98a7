// The names of the case files.
use std::{env, fs, io};

/// The words after the program's name.
pub(crate) fn words_of(rt: &HostRuntime) -> io::Result<Vec<String>> {
    let mut words: Vec<String> = env::args(rt)?.collect(rt.alloc())?;
    if !words.is_empty() {
        let program = words.remove(0);
        drop(program);
    }
    Ok(words)
}

// Puts a name behind others.
fn put_name(rt: &HostRuntime, name: &str, files: &mut Vec<String>) -> io::Result<()> {
    let name = String::from_str(rt.alloc(), name)?;
    files.push(name)?;
    Ok(())
}

// Puts the files of a folder behind others; of any other name, that name alone.
fn put_files(rt: &HostRuntime, name: &str, files: &mut Vec<String>) -> io::Result<()> {
    let Ok(entries) = fs::read_dir(rt, name) else {
        return put_name(rt, name, files);
    };
    for entry in entries {
        match entry {
            Ok(entry) => put_name(rt, entry.path().to_string_lossy(), files)?,
            Err(why) => return Err(why),
        }
    }
    Ok(())
}

/// The files in a folder, in the order of their names; of any other name, that name alone.
pub(crate) fn files_of(rt: &HostRuntime, name: &str) -> io::Result<Vec<String>> {
    let mut files = Vec::new(rt.alloc());
    match put_files(rt, name, &mut files) {
        Ok(()) => {
            files.sort()?;
            Ok(files)
        }
        Err(why) => {
            drop(files);
            Err(why)
        }
    }
}
