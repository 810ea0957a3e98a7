//! Runs the commands of case files, and prints each that doesn't do what is written there.
//!
//! `data/README.md` says how a case file is written. The program's words name case files, or
//! folders of them (those of `args` are the folders of `data/`). Each command is the public call
//! `rast_cli::rast` or `rast_cli::rast_static` over files and a sink in memory. On standard output
//! stands each command that differs, and last how many do; on standard error, how many were tried.
#![tactic(auto)]

mod case;
mod command;
mod line;
mod names;
mod report;

use case::{run_case, say_unread};
use names::{files_of, words_of};
use report::Report;
use std::{fs, io};

// Runs the commands of one file.
fn run_file(rt: &HostRuntime, name: &str, report: &mut Report) -> io::Result<()> {
    match fs::read_to_string(rt, name) {
        Ok(text) => {
            let ran = run_case(rt.alloc(), name, text.as_str(), report);
            drop(text);
            ran?;
        }
        Err(why) => {
            drop(why);
            say_unread(rt.alloc(), name, report)?;
        }
    }
    rt.print(report.text())?;
    report.clear();
    Ok(())
}

// Runs the commands of files.
fn run_files(rt: &HostRuntime, names: &[String], report: &mut Report) -> io::Result<()> {
    for name in names {
        run_file(rt, name.as_str(), report)?;
    }
    Ok(())
}

// Runs the commands of all files that the words name.
fn run_words(rt: &HostRuntime, words: &[String], report: &mut Report) -> io::Result<()> {
    for word in words {
        let names = files_of(rt, word.as_str())?;
        let ran = run_files(rt, &names, report);
        drop(names);
        ran?;
    }
    Ok(())
}

// Runs the commands of all files that the program's words name.
fn run_all(rt: &HostRuntime, report: &mut Report) -> io::Result<()> {
    let words = words_of(rt)?;
    let ran = run_words(rt, &words, report);
    drop(words);
    ran
}

fn main(rt: HostRuntime) -> io::Result<()> {
    let mut report = Report::new(rt.alloc());
    let ran = run_all(&rt, &mut report);
    let (passed, failed) = (report.passed(), report.failed());
    drop(report);
    ran?;
    eprintln!(rt; "{passed} passed, {failed} failed")?;
    println!(rt; "{failed} failed")
}
