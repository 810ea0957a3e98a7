// A case file: files, and commands over them with what each must print.
ghost use Rattle.std.specs.Prelude.{◌≡◌, ◌⊎◌, IsTrue, string_bytes};

use crate::command::{Ended, Faults, TextFile, put_words, run};
use crate::line::{Line, line_of};
use crate::report::Report;
use std::alloc::{AllocError, Global};

// What a line of text goes on with.
#[derive(Clone, Copy, PartialEq, Eq)]
enum Part {
    // A comment, which nobody reads.
    Comment,
    // The last file.
    File,
    // What the command is to print.
    Output,
}

// What was read of a case file.
#[derive(Drop)]
struct Case {
    part: Part,
    files: Vec<TextFile>,
    // The command whose output is read or was read last: its line, its words, and its output.
    at: u32,
    words: Vec<String>,
    output: String,
    // What the lines say of the next command.
    faults: Faults,
    events: Option<u32>,
    // Whether there was a command with its status.
    tried: bool,
}

const NO_FAULTS: Faults = Faults {
    read: None,
    write: None,
};

// Takes the last line end away.
fn join(text: &mut Vec<u8>) {
    if text.last() == Some(&b'\n') {
        let _end = text.pop();
    }
}

impl Case {
    fn new(alloc: Global) -> Self {
        Case {
            part: Part::Comment,
            files: Vec::new(alloc),
            at: 0,
            words: Vec::new(alloc),
            output: String::new(alloc),
            faults: NO_FAULTS,
            events: None,
            tried: false,
        }
    }

    // Goes on with the file or the output.
    fn add(&mut self, text: &str) -> Result<(), AllocError> {
        match self.part {
            Part::Comment => Ok(()),
            Part::Output => self.output.push_str(text),
            Part::File => match self.files.last_mut() {
                Some(file) => file.bytes.extend_from_slice(text.as_bytes()),
                None => Ok(()),
            },
        }
    }

    fn repeat(&mut self, times: u32, text: &str) -> Result<(), AllocError> {
        for _ in 0..times {
            self.add(text)?;
        }
        Ok(())
    }

    fn join(&mut self) {
        match self.part {
            Part::Comment => (),
            Part::Output => {
                if self.output.ends_with('\n') {
                    let _end = self.output.pop();
                }
            }
            Part::File => {
                if let Some(file) = self.files.last_mut() {
                    join(&mut file.bytes);
                }
            }
        }
    }

    fn begin_file(&mut self, alloc: Global, name: &str) -> Result<(), AllocError> {
        let name = String::from_str(alloc, name)?;
        let bytes = Vec::new(alloc);
        self.files.push(TextFile { name, bytes })?;
        self.part = Part::File;
        Ok(())
    }

    fn begin_command(&mut self, alloc: Global, at: u32, line: &str) -> Result<(), AllocError> {
        self.at = at;
        self.words.clear();
        self.output.clear();
        self.part = Part::Output;
        put_words(alloc, &mut self.words, line)
    }

    // How many events are to be handed back: as many as are, where nothing is written of them.
    fn events_wanted(&self, ended: &Ended) -> usize {
        match self.events {
            Some(events) => events as usize,
            None => ended.events,
        }
    }

    // Whether a command did what is written.
    fn is_right(&self, status: u8, ended: &Ended) -> bool
        ensures { IsTrue result → (ended.now.status ≡ status) × (ended.now.written.items ≡ string_bytes self.now.output) }
    {
        let events = self.events_wanted(ended);
        ended.events == events
            && ended.status == status
            && ended.written.as_slice() == self.output.as_bytes()
    }

    // What is printed of a command that did something else.
    fn difference(
        &self,
        alloc: Global,
        name: &str,
        status: u8,
        ended: &Ended,
    ) -> Result<String, AllocError> {
        let came = String::from_utf8_lossy(alloc, &ended.written)?;
        let said = format!(in alloc;
            "{name}: line {}\nwanted status {status}, {} events, and\n{}\
             came status {}, {} events, and\n{came}",
            self.at,
            self.events_wanted(ended),
            self.output,
            ended.status,
            ended.events
        );
        drop(came);
        said
    }

    // Compares what came of the command with what is written.
    fn compare(
        &self,
        alloc: Global,
        name: &str,
        status: u8,
        ended: &Ended,
        report: &mut Report,
    ) -> Result<(), AllocError>
        ensures { (report.new.passed ≡ report.old.passed) ⊎ ((ended.now.status ≡ status) × (ended.now.written.items ≡ string_bytes self.now.output)) }
    {
        if self.is_right(status, ended) {
            report.pass();
            return Ok(());
        }
        let said = self.difference(alloc, name, status, ended)?;
        let failed = report.fail(said.as_str());
        drop(said);
        failed
    }

    // Runs the command whose output was read.
    fn end_command(
        &mut self,
        alloc: Global,
        name: &str,
        status: u8,
        report: &mut Report,
    ) -> Result<(), AllocError> {
        let ended = run(alloc, &self.files, &self.words, self.faults)?;
        let compared = self.compare(alloc, name, status, &ended, report);
        drop(ended);
        self.part = Part::Comment;
        self.faults = NO_FAULTS;
        self.events = None;
        self.tried = true;
        compared
    }

    // Reads a line.
    fn read_line(
        &mut self,
        alloc: Global,
        place: Place<'_>,
        line: &str,
        report: &mut Report,
    ) -> Result<(), AllocError> {
        let in_output = self.part == Part::Output;
        match line_of(line) {
            Line::File(_) | Line::Command(_) if in_output => {
                fault(alloc, place, "the command before has no status", report)
            }
            Line::Status(_) if !in_output => fault(
                alloc,
                place,
                "no command has this status",
                report,
            ),
            Line::Odd => fault(alloc, place, "no line begins so", report),
            Line::File(name) => self.begin_file(alloc, name),
            Line::Command(words) => self.begin_command(alloc, place.line, words),
            Line::Status(status) => self.end_command(alloc, place.name, status, report),
            Line::Repeat(times, text) => self.repeat(times, text),
            Line::Text => self.add(line),
            other => {
                self.note(other);
                Ok(())
            }
        }
    }

    // Reads a line that takes no memory.
    fn note(&mut self, line: Line<'_>) {
        match line {
            Line::Join => self.join(),
            Line::Read(call) => self.faults.read = Some(call),
            Line::Write(call) => self.faults.write = Some(call),
            Line::Events(count) => self.events = Some(count),
            _ => (),
        }
    }

    // Reads all lines.
    fn read_lines(
        &mut self,
        alloc: Global,
        name: &str,
        text: &str,
        report: &mut Report,
    ) -> Result<(), AllocError> {
        let mut place = Place { name, line: 0 };
        for line in text.split_inclusive('\n') {
            place.line = place.line.saturating_add(1);
            self.read_line(alloc, place, line, report)?;
        }
        if self.part == Part::Output {
            return fault(alloc, place, "the last command has no status", report);
        }
        if !self.tried {
            return fault(alloc, place, "no command", report);
        }
        Ok(())
    }
}

// A line of a file.
#[derive(Clone, Copy)]
struct Place<'a> {
    name: &'a str,
    line: u32,
}

// Says that a line is wrong.
fn fault(
    alloc: Global,
    place: Place<'_>,
    why: &str,
    report: &mut Report,
) -> Result<(), AllocError> {
    let said = format!(in alloc; "{}: line {}: {why}\n", place.name, place.line)?;
    let failed = report.fail(said.as_str());
    drop(said);
    failed
}

/// Says that a file can't be read.
pub(crate) fn say_unread(alloc: Global, name: &str, report: &mut Report) -> Result<(), AllocError> {
    let said = format!(in alloc; "{name}: the file can't be read\n")?;
    let failed = report.fail(said.as_str());
    drop(said);
    failed
}

/// Runs the commands of a case file, and says in the report what came of them.
pub(crate) fn run_case(
    alloc: Global,
    name: &str,
    text: &str,
    report: &mut Report,
) -> Result<(), AllocError> {
    let mut case = Case::new(alloc);
    let ran = case.read_lines(alloc, name, text, report);
    drop(case);
    ran
}
