// The file that a text is.
ghost use Rattle.std.specs.Prelude.{◌≡◌, ◌≤◌, List, length, IfOk, IfErr};
ghost use Rattle.rast_ast.specs.declared.file.File.{File};
ghost use Rattle.rast_lex.specs.declared.token.Token.{Token};
ghost use Rattle.rast_lex.specs.Tokens.{AreTokens};
ghost use Rattle.rast_load.specs.Reading.{IsFile, IsRefused, of_lexing, of_parsing};

use crate::fault::TextFault;
use rast_ast::File;
use rast_io::LIMIT;
use rast_lex::{LexErr, Token, tokens};
use rast_parse::{ParseErr, parse};
use std::alloc::Global;

/// Why a text isn't read.
#[derive(Clone, Copy, Debug, PartialEq, Eq)]
pub enum TextErr {
    /// The text is no file.
    NoFile(TextFault),
    /// Want of memory.
    Memory,
}

/// A text's tokens, and the file that they are.
#[derive(Drop)]
pub(crate) struct ReadText {
    pub tokens: Vec<Token>,
    pub file: File,
}

fn lexical(fault: LexErr) -> TextErr
    ensures { result ≡ of_lexing fault }
{
    match fault {
        LexErr::BadByte { at } => TextErr::NoFile(TextFault::BadByte { at }),
        LexErr::BadNumber { at } => TextErr::NoFile(TextFault::BadNumber { at }),
        LexErr::LongName { at } => TextErr::NoFile(TextFault::LongName { at }),
        LexErr::Memory => TextErr::Memory,
    }
}

fn syntactic(fault: ParseErr) -> TextErr
    ensures { result ≡ of_parsing fault }
{
    match fault {
        ParseErr::Syntax { at } => TextErr::NoFile(TextFault::Syntax { at }),
        ParseErr::TooDeep { at } => TextErr::NoFile(TextFault::TooDeep { at }),
        ParseErr::Memory => TextErr::Memory,
    }
}

// The file that a text is, with the text's tokens.
pub(crate) fn read_tokens(alloc: Global, text: &[u8]) -> Result<ReadText, TextErr>
    requires { length text.now ≤ LIMIT }
    ensures tokens { IfOk result (λ r. AreTokens text.now r.tokens.items) }
    ensures file { IfOk result (λ r. IsFile text.now r.file) }
    ensures only { IfOk result (λ r. (other : File) → IsFile text.now other → r.file ≡ other) }
    ensures refused { IfErr result (IsRefused text.now) }
{
    let tokens = match tokens(alloc, text) {
        Ok(tokens) => tokens,
        Err(fault) => return Err(lexical(fault)),
    };
    match parse(alloc, text, &tokens) {
        Ok(file) => Ok(ReadText { tokens, file }),
        Err(fault) => Err(syntactic(fault)),
    }
}

/// The file that a text of at most 1,048,576 bytes is.
///
/// # Errors
/// The first fault, exactly where the text is no file of which at most 64 nonterminals that may stand in themselves are
/// open at a token; or want of memory.
pub fn read(alloc: Global, text: &[u8]) -> Result<File, TextErr>
    requires { length text.now ≤ LIMIT }
    ensures file { IfOk result (IsFile text.now) }
    ensures refused { IfErr result (IsRefused text.now) }
{
    match read_tokens(alloc, text) {
        Ok(read) => Ok(read.file),
        Err(why) => Err(why),
    }
}
