// The first token of a form that isn't built.
ghost use Rattle.std.specs.Prelude.{◌≡◌};
ghost use Rattle.rast_load.specs.Unbuilt.{is_explicit, unbuilt};

use rast_lex::{Kind, Token};

fn is_explicit(kind: Kind) -> bool
    ensures { result ≡ is_explicit kind }
{
    match kind {
        Kind::Explicit => true,
        _ => false,
    }
}

/// The place of the first token of a form that isn't built, counted in bytes from 0: the first token of a file that doesn't begin
/// with `explicit`. A file without tokens has none. It takes no memory.
///
/// `tokens` are those of a text that is a file.
pub fn unbuilt(tokens: &[Token]) -> Option<u32>
    ensures { result ≡ unbuilt tokens.now }
{
    match tokens {
        [token, ..] => {
            if is_explicit(token.kind) {
                None
            } else {
                Some(token.at)
            }
        }
        [] => None,
    }
}
