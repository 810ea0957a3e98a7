// The tokens of a text.
ghost use Rattle.std.specs.Prelude.{◌≡◌, ◌≤◌, ◌^◌, ◌++◌, List, [], length, OnOk, IfErr};
ghost use Rattle.rast_lex.specs.declared.token.Token.{Token};
ghost use Rattle.rast_lex.specs.declared.token.LexErr.{LexErr};
ghost use Rattle.rast_lex.specs.declared.token.Token.{Token};
ghost use Rattle.rast_lex.specs.declared.token.LexErr.{LexErr};
ghost use Rattle.rast_lex.specs.Pieces.{Piece, ArePieces, texts};
ghost use Rattle.rast_lex.specs.Seen.{words, piece_words};
ghost use Rattle.rast_lex.specs.Tokens.{AreTokens, GivesFault, GivesTokens, IsFirstFault, Lexes, token_at};

use crate::byte::skip;
use crate::front::{Front, front_of};
use rast_ast::Kind;
use std::alloc::{AllocFailed, Global};

/// A token: its kind, the place of its first byte, and how many bytes it has.
#[derive(Clone, Copy, Debug, PartialEq, Eq)]
pub struct Token {
    pub kind: Kind,
    pub at: u32,
    pub len: u32,
}

/// Why a text has no tokens. `at` is the place of a byte, counted from 0.
#[derive(Clone, Copy, Debug, PartialEq, Eq)]
pub enum LexErr {
    /// A byte that begins no token, or a byte above 127 in a comment.
    BadByte { at: u32 },
    /// Digits with a leading zero, or of a value of 2^32 or more.
    BadNumber { at: u32 },
    /// A name of more than 64 bytes.
    LongName { at: u32 },
    /// Want of memory.
    Memory,
}

impl<T: Drop> From<AllocFailed<T>> for LexErr {
    ghost use Rattle.std.specs.Prelude.{◌≡◌};
    ghost use Rattle.rast_lex.specs.declared.token.LexErr.TheVariants.{Memory};

    ghost from_gives = { λ _ e. e ≡ Memory };

    fn from(_: AllocFailed<T>) -> LexErr {
        LexErr::Memory
    }
}

/// The tokens of a text of at most 1,048,576 bytes in order, or its first fault.
pub fn tokens(alloc: Global, text: &[u8]) -> Result<Vec<Token>, LexErr>
    requires { length text.now ≤ 2 ^ 20 }
    ensures exact { Lexes (λ v. v.items) text.now result }
    ensures only { (tokens : List Token) → AreTokens text.now tokens → GivesTokens (λ v. v.items) tokens result }
    ensures only_fault { (fault : LexErr) → IsFirstFault text.now fault → GivesFault fault result }
{
    cut(alloc, text)
}

fn cut(alloc: Global, text: &[u8]) -> Result<Vec<Token>, LexErr>
    requires { length text.now ≤ 2 ^ 20 }
    ensures { Lexes (λ v. v.items) text.now result }
{
    let mut out = Vec::new(alloc);
    let mut rest = text;
    let mut at: usize = 0;
    loop {
        match front_of(rest) {
            Front::End => return Ok(out),
            Front::Piece(kind, len) => {
                push_token(&mut out, kind, at as u32, len as u32)?;
                at += len;
                rest = skip(rest, len);
            }
            Front::BadByte => return Err(LexErr::BadByte { at: at as u32 }),
            Front::BadComment(n) => return Err(LexErr::BadByte {
                at: (at + n) as u32,
            }),
            Front::BadNumber => return Err(LexErr::BadNumber { at: at as u32 }),
            Front::LongName => return Err(LexErr::LongName { at: at as u32 }),
        }
    }
}

// Appends the token of a piece, if its kind is one.
fn push_token(out: &mut Vec<Token>, kind: Option<Kind>, at: u32, len: u32) -> Result<(), LexErr>
    ensures ok { OnOk result (out.new.items ≡ out.old.items ++ token_at at len kind) }
    ensures err { IfErr result (λ e. e ≡ LexErr.Memory) }
{
    if let Some(kind) = kind {
        out.push(Token { kind, at, len })?;
    }
    Ok(())
}

/// Pieces are a text whose tokens are, as the grammar sees them, those of the pieces.
pub fn pieces_law()
    ensures { (ps : List Piece) → ArePieces ps [] → (ts : List Token) × AreTokens (texts ps) ts × (words (texts ps) ts ≡ piece_words ps) }
{}
