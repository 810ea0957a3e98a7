// What comes of a text.
ghost use Rattle.std.specs.Prelude.{◌≡◌, ◌≤◌, true, length, IfOk};
ghost use Rattle.rast_ast.specs.Formulas.{form_fits};
ghost use Rattle.rast_lex.specs.Tokens.{AreTokens};
ghost use Rattle.rast_decide.specs.Lines.{refusal_line};
ghost use Rattle.rast_decide.specs.Decides.{Decides, DecidesText, DecidesForm};

use crate::decision::Decision;
use crate::line::{judgement, refusal};
use rast_ast::Form;
use rast_cooper::decide;
use rast_formula::{ScopeErr, number};
use rast_io::LIMIT;
use rast_lex::{LexErr, Token, tokens};
use rast_parse::{ParseErr, parse_form};
use std::alloc::{AllocError, Global};

/// What comes of a text, with the line that is printed.
#[derive(Debug, Drop)]
pub struct Decided {
    /// What comes of it.
    pub decision: Decision,
    /// The line, with its end.
    pub line: Vec<u8>,
}

// A text that isn't decided has its line.
fn refused(alloc: Global, decision: Decision) -> Result<Decided, AllocError>
    ensures decision { IfOk result (λ d. d.decision ≡ decision) }
    ensures line { IfOk result (λ d. d.line.items ≡ refusal_line decision) }
{
    Ok(Decided {
        decision,
        line: refusal(alloc, decision)?,
    })
}

/// Whether the formula that the text is holds.
///
/// The text is read as in a file, and its variables are numbered in the order in which they first occur. `Fails` comes with
/// the first solution of the search, and a limit of the search where it is passed. The only error is want of memory.
pub fn decide_text(alloc: Global, text: &[u8]) -> Result<Decided, AllocError>
    ensures { IfOk result (λ d. Decides LIMIT text.now d.decision d.line.items) }
{
    if text.len() > LIMIT {
        return refused(alloc, Decision::TooLong);
    }
    match tokens(alloc, text) {
        Ok(tokens) => decide_tokens(alloc, text, &tokens),
        Err(LexErr::BadByte { at }) => refused(alloc, Decision::BadByte { at }),
        Err(LexErr::BadNumber { at }) => refused(alloc, Decision::BadNumber { at }),
        Err(LexErr::LongName { at }) => refused(alloc, Decision::LongName { at }),
        Err(LexErr::Memory) => Err(AllocError),
    }
}

// The same for a text with its tokens.
fn decide_tokens(alloc: Global, text: &[u8], tokens: &[Token]) -> Result<Decided, AllocError>
    requires short { length text.now ≤ LIMIT }
    requires tokens { AreTokens text.now tokens.now }
    ensures { IfOk result (λ d. DecidesText text.now d.decision d.line.items) }
{
    match parse_form(alloc, text, tokens) {
        Ok(form) => decide_form(alloc, &form),
        Err(ParseErr::Syntax { at }) => refused(alloc, Decision::Syntax { at }),
        Err(ParseErr::TooDeep { at }) => refused(alloc, Decision::TooDeep { at }),
        Err(ParseErr::Memory) => Err(AllocError),
    }
}

// The same for a formula.
fn decide_form(alloc: Global, form: &Form) -> Result<Decided, AllocError>
    requires { form_fits form.now ≡ true }
    ensures { IfOk result (λ d. DecidesForm form.now d.decision d.line.items) }
{
    let numbered = match number(alloc, form) {
        Ok(numbered) => numbered,
        Err(ScopeErr::Memory) => return Err(AllocError),
        Err(_) => return refused(alloc, Decision::Limit),
    };
    let verdict = decide(
        alloc,
        numbered.variables.len() as u8,
        &[],
        &numbered.formula,
    )?;
    Ok(Decided {
        decision: Decision::Judged(verdict),
        line: judgement(alloc, numbered.variables.as_slice(), verdict)?,
    })
}
