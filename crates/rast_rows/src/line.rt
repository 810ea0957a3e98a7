// A line of a case file.

/// What a line says.
#[derive(Clone, Copy)]
pub(crate) enum Line<'a> {
    /// `@file NAME`: a file begins, whose text follows.
    File(&'a str),
    /// `$ WORDS`: a command, whose output follows.
    Command(&'a str),
    /// `@status N`: the output ends here, and so ends the command.
    Status(u8),
    /// `@repeat N 'TEXT'`: the file or output goes on with this text so many times, with no line
    /// end.
    Repeat(u32, &'a str),
    /// `@join`: the line end before this line is none of the file or output.
    Join,
    /// `@read N`: in the next command the call of this number on the files fails.
    Read(u32),
    /// `@write N`: in the next command the write of this number fails.
    Write(u32),
    /// `@events N`: the next command hands back so many events.
    Events(u32),
    /// Any other line that begins with `@`.
    Odd,
    /// A line of text.
    Text,
}

// The line of `@repeat`, from what stands behind this word.
fn repeated(rest: &str) -> Line<'_> {
    let Some((number, quoted)) = rest.split_once(' ') else {
        return Line::Odd;
    };
    let Some(open) = quoted.strip_prefix('\'') else {
        return Line::Odd;
    };
    let Some(text) = open.strip_suffix('\'') else {
        return Line::Odd;
    };
    match number.parse::<u32>() {
        Ok(times) => Line::Repeat(times, text),
        Err(_) => Line::Odd,
    }
}

// The line of a word and a number.
fn numbered<'a>(word: &str, number: u32) -> Line<'a> {
    match word {
        "read" => Line::Read(number),
        "write" => Line::Write(number),
        "events" => Line::Events(number),
        "status" => match u8::try_from(number) {
            Ok(status) => Line::Status(status),
            Err(_) => Line::Odd,
        },
        _ => Line::Odd,
    }
}

// The line of a word behind an `@`, and of what stands behind this word.
fn directed<'a>(word: &str, rest: &'a str) -> Line<'a> {
    match word {
        "file" => Line::File(rest),
        "repeat" => repeated(rest),
        _ => match rest.parse::<u32>() {
            Ok(number) => numbered(word, number),
            Err(_) => Line::Odd,
        },
    }
}

/// What a line says, which may have its line end with it.
pub(crate) fn line_of(line: &str) -> Line<'_> {
    let bare = line.strip_suffix('\n').unwrap_or(line);
    if bare == "$" {
        return Line::Command("");
    }
    if let Some(words) = bare.strip_prefix("$ ") {
        return Line::Command(words);
    }
    let Some(directive) = bare.strip_prefix('@') else {
        return Line::Text;
    };
    match directive.split_once(' ') {
        Some((word, rest)) => directed(word, rest),
        None if directive == "join" => Line::Join,
        None => Line::Odd,
    }
}
