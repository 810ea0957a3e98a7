// A place among the tokens of a text.
ghost use Rattle.std.specs.Prelude.{◌≡◌, ◌+◌, ◌-◌, ◌≤◌, IsTrue, take, length, drop, map, List, ℕ, ◌∷◌, []};
ghost use Rattle.rast_forms.specs.Words.{starts};
ghost use Rattle.rast_ast.specs.Kinds.{code};
ghost use Rattle.rast_lex.specs.Numbers.{is_number, value_of};
ghost use Rattle.rast_parse.specs.Seen.{are_good};
ghost use Rattle.rast_parse.specs.declared.cursor.Fault.TheVariants as fault;
ghost use Rattle.rast_parse.specs.LinearReading.{fixed_read, name_read, number_read, is};

use rast_ast::{Kind, Name};
use rast_lex::{Token, value_of};
use std::alloc::{AllocError, AllocFailed, Global};

/// Why reading ends.
#[derive(Clone, Copy, Debug, PartialEq, Eq)]
pub(crate) enum Fault {
    /// How many tokens are left, from the one that is wrong.
    Syntax(usize),
    /// How many are left, from the one where a nonterminal too many begins.
    TooDeep(usize),
    Memory,
}

impl From<AllocError> for Fault {
    ghost use Rattle.std.specs.Prelude.{◌≡◌};
    ghost use Rattle.rast_parse.specs.declared.cursor.Fault.TheVariants.{Memory};

    ghost from_gives = { λ _ e. e ≡ Memory };

    fn from(_: AllocError) -> Fault {
        Fault::Memory
    }
}

impl<T: Drop> From<AllocFailed<T>> for Fault {
    ghost use Rattle.std.specs.Prelude.{◌≡◌};
    ghost use Rattle.rast_parse.specs.declared.cursor.Fault.TheVariants.{Memory};

    ghost from_gives = { λ _ e. e ≡ Memory };

    fn from(_: AllocFailed<T>) -> Fault {
        Fault::Memory
    }
}

/// The text, and the tokens that are still to be read.
#[derive(Clone, Copy)]
pub(crate) struct Cursor<'a> {
    pub text: &'a [u8],
    pub tokens: &'a [Token],
    ghost good: { IsTrue (are_good text.now tokens.now) },
}

impl<'a> Cursor<'a> {
    ghost use Rattle.rast_parse.specs.Cursors.{seen};
    ghost use Rattle.rast_parse.specs.Answer.{Finds, Gives, Passes, limit_fault};

    // Whether the first token is of this kind.
    pub fn at(self, kind: Kind) -> bool
        ensures { result ≡ starts (is kind) (seen self.entry) }
    {
        match self.tokens.split_first() {
            Some((token, _)) => token.kind == kind,
            None => false,
        }
    }

    // Whether the first token is of one of these kinds.
    pub fn at_any(self, kinds: &[Kind]) -> bool
        ensures { result ≡ starts (map code kinds.now) (seen self.entry) }
    {
        for kind in kinds {
            if self.at(*kind) {
                return true;
            }
        }
        false
    }

    // How many tokens are left.
    pub fn left(self) -> usize
        ensures { result ≡ length (seen self.entry) }
    {
        self.tokens.len()
    }

    // The first token is wrong.
    pub fn wrong(self) -> Fault
        ensures { result ≡ fault.Syntax (length (seen self.entry)) }
    {
        Fault::Syntax(self.left())
    }

    // A nonterminal too many begins at the first token, where that is one of those that it begins with.
    pub fn limit(self, kinds: &[Kind]) -> Fault
        ensures { result ≡ limit_fault (starts (map code kinds.now) (seen self.entry)) (length (seen self.entry)) }
    {
        if self.at_any(kinds) {
            Fault::TooDeep(self.left())
        } else {
            self.wrong()
        }
    }

    // Passes a keyword or symbol.
    pub fn expect(self, kind: Kind) -> Result<Cursor<'a>, Fault>
        requires { 2 ≤ code kind }
        ensures { Passes result (fixed_read kind (seen self.entry)) }
    {
        match self.tokens.split_first() {
            Some((token, rest)) => {
                if token.kind == kind {
                    Ok(Cursor {
                        text: self.text,
                        tokens: rest,
                    })
                } else {
                    Err(self.wrong())
                }
            }
            None => Err(self.wrong()),
        }
    }

    // The place after the first token, if there is one.
    pub fn after(self) -> Cursor<'a>
        ensures { seen result ≡ drop 1 (seen self.entry) }
    {
        match self.tokens.split_first() {
            Some((_, rest)) => Cursor {
                text: self.text,
                tokens: rest,
            },
            None => self,
        }
    }

    // A name.
    pub fn name(self, alloc: Global) -> Result<(Name, Cursor<'a>), Fault>
        ensures { Gives result (name_read (seen self.entry)) }
    {
        match self.tokens.split_first() {
            Some((token, rest)) => {
                if token.kind == Kind::Name {
                    match Name::new(alloc, part(self.text, token.at, token.len)) {
                        Ok(name) => Ok((
                            name,
                            Cursor {
                                text: self.text,
                                tokens: rest,
                            },
                        )),
                        Err(_) => Err(Fault::Memory),
                    }
                } else {
                    Err(self.wrong())
                }
            }
            None => Err(self.wrong()),
        }
    }

    // A number, if one comes.
    pub fn first_number(self) -> Option<(u32, Cursor<'a>)>
        ensures { Finds result (seen self.entry) (number_read (seen self.entry)) }
    {
        match self.tokens.split_first() {
            Some((token, rest)) => {
                if token.kind == Kind::Number {
                    let number = number_of(part(self.text, token.at, token.len));
                    Some((
                        number,
                        Cursor {
                            text: self.text,
                            tokens: rest,
                        },
                    ))
                } else {
                    None
                }
            }
            None => None,
        }
    }

    // A number.
    pub fn number(self) -> Result<(u32, Cursor<'a>), Fault>
        ensures { Gives result (number_read (seen self.entry)) }
    {
        match self.first_number() {
            Some(found) => Ok(found),
            None => Err(self.wrong()),
        }
    }
}

// The bytes of a token.
fn part(text: &[u8], at: u32, len: u32) -> &[u8]
    requires { at + len ≤ length text.now }
    ensures { result.now ≡ take len (drop at text.now) }
{
    let at = at as usize;
    &text[at..at + len as usize]
}

// The value of the digits of a number.
fn number_of(digits: &[u8]) -> u32
    requires { IsTrue (is_number digits.now) }
    ensures { result ≡ value_of digits.now }
{
    match value_of(digits) {
        Some(value) => value,
        None => unreachable!(),
    }
}
