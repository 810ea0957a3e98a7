// The answers for the tokens of a text.
ghost use Rattle.std.specs.Prelude.{◌≡◌, ◌-◌, ◌≤◌, ◌^◌, length, drop};
ghost use Rattle.rast_ast.specs.Formulas.{form_marks, form_fits};
ghost use Rattle.rast_ast.specs.Files.{file_marks, file_fits};
ghost use Rattle.rast_lex.specs.Meaning.{words};
ghost use Rattle.rast_lex.specs.Tokens.{AreTokens};
ghost use Rattle.rast_parse.specs.Answer.{Ends, FailsAs, Places};
ghost use Rattle.rast_parse.specs.Cursors.{seen};
ghost use Rattle.rast_parse.specs.FileReading.{file_read};
ghost use Rattle.rast_parse.specs.FormulaReading.{form_read};
ghost use Rattle.rast_forms.specs.Reading.{whole_read};
ghost use Rattle.rast_parse.specs.Parses.{Answers, IsOnly, place_of};

use crate::cursor::{Cursor, Fault};
use rast_ast::{File, Form};
use rast_lex::Token;
use std::alloc::Global;

/// Why a text is no file, or no formula. `at` is the place of a byte, counted from 0.
#[derive(Clone, Copy, Debug, PartialEq, Eq)]
pub enum ParseErr {
    /// The tokens before the one at `at` begin a file, or a formula, and those with it begin none. `at` is the length of the
    /// text where the tokens end too early.
    Syntax { at: u32 },
    /// At the token at `at` the 65th nonterminal is open, of those that may stand in themselves: types, formulas, members of
    /// conjunctions, terms and process terms.
    TooDeep { at: u32 },
    /// Want of memory.
    Memory,
}

/// The file that a text is. `tokens` are the text's, as `tokens` of `rast_lex` gives them. Any tree of the grammar is read whose types, formulas, terms and
/// process terms are at most 64 deep at each token, and no other text.
///
/// # Errors
/// The first token with which the text begins no file, the first at which one nonterminal too many is open, or want of memory.
pub fn parse(alloc: Global, text: &[u8], tokens: &[Token]) -> Result<File, ParseErr>
    requires short { length text.now ≤ 2 ^ 20 }
    requires tokens { AreTokens text.now tokens.now }
    ensures exact { Answers file_marks file_fits 64 text.now tokens.now result }
    ensures only { IsOnly file_marks file_fits 64 (words text.now tokens.now) result }
{
    file_within(alloc, text, tokens, 64)
}

// The file that a text is, in which at most `depth` nonterminals are open at a token.
fn file_within(alloc: Global, text: &[u8], tokens: &[Token], depth: usize) -> Result<File, ParseErr>
    requires short { length text.now ≤ 2 ^ 20 }
    requires tokens { AreTokens text.now tokens.now }
    ensures exact { Answers file_marks file_fits depth text.now tokens.now result }
    ensures only { IsOnly file_marks file_fits depth (words text.now tokens.now) result }
{
    let start = Cursor { text, tokens };
    match start.whole_file(alloc, depth) {
        Ok(file) => Ok(file),
        Err(fault) => Err(placed(text, tokens, fault)),
    }
}

/// The formula that a text is. `tokens` are the text's.
pub fn parse_form(alloc: Global, text: &[u8], tokens: &[Token]) -> Result<Form, ParseErr>
    requires short { length text.now ≤ 2 ^ 20 }
    requires tokens { AreTokens text.now tokens.now }
    ensures exact { Answers form_marks form_fits 64 text.now tokens.now result }
    ensures only { IsOnly form_marks form_fits 64 (words text.now tokens.now) result }
{
    form_within(alloc, text, tokens, 64)
}

// The formula that a text is, in which at most `depth` nonterminals are open at a token.
fn form_within(alloc: Global, text: &[u8], tokens: &[Token], depth: usize) -> Result<Form, ParseErr>
    requires short { length text.now ≤ 2 ^ 20 }
    requires tokens { AreTokens text.now tokens.now }
    ensures exact { Answers form_marks form_fits depth text.now tokens.now result }
    ensures only { IsOnly form_marks form_fits depth (words text.now tokens.now) result }
{
    let start = Cursor { text, tokens };
    match start.whole_form(alloc, depth) {
        Ok(form) => Ok(form),
        Err(fault) => Err(placed(text, tokens, fault)),
    }
}

impl<'a> Cursor<'a> {
    // A file to the last token.
    fn whole_file(self, alloc: Global, depth: usize) -> Result<File, Fault>
        ensures { Ends result (whole_read (file_read depth) (seen self.entry)) }
    {
        match self.file(alloc, depth) {
            Ok((file, rest)) => {
                if rest.left() > 0 {
                    drop(file);
                    return Err(rest.wrong());
                }
                Ok(file)
            }
            Err(fault) => Err(fault),
        }
    }

    // A formula to the last token.
    fn whole_form(self, alloc: Global, depth: usize) -> Result<Form, Fault>
        ensures { Ends result (whole_read (form_read depth) (seen self.entry)) }
    {
        match self.form(alloc, depth) {
            Ok((form, rest)) => {
                if rest.left() == 0 {
                    Ok(form)
                } else {
                    drop(form);
                    Err(rest.wrong())
                }
            }
            Err(fault) => Err(fault),
        }
    }
}

// A fault, by the place of its token.
fn placed(text: &[u8], tokens: &[Token], fault: Fault) -> ParseErr
    requires { length text.now ≤ 2 ^ 20 }
    ensures { Places text.now tokens.now fault result }
{
    match fault {
        Fault::Syntax(left) => ParseErr::Syntax {
            at: place(text, tokens, left),
        },
        Fault::TooDeep(left) => ParseErr::TooDeep {
            at: place(text, tokens, left),
        },
        Fault::Memory => ParseErr::Memory,
    }
}

// The place of the token with which so many are left, or the end of the text.
fn place(text: &[u8], tokens: &[Token], left: usize) -> u32
    requires { length text.now ≤ 2 ^ 20 }
    ensures { result ≡ place_of text.now (drop (length tokens.now - left) tokens.now) }
{
    match tokens.get(tokens.len().saturating_sub(left)) {
        Some(token) => token.at,
        None => text.len() as u32,
    }
}
