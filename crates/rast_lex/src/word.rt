// Keywords.
ghost use Rattle.std.specs.Prelude.{◌≡◌, find};
ghost use Rattle.std.specs.Str.{bytes_eq};
ghost use Rattle.rast_ast.specs.Kinds.{text_of};
ghost use Rattle.rast_lex.specs.Words.{kind_of_word};

use rast_ast::Kind;

const KEYWORDS: [Kind; 27] = [
    Kind::All,
    Kind::Assert,
    Kind::Assume,
    Kind::By,
    Kind::Case,
    Kind::Close,
    Kind::Decl,
    Kind::Delay,
    Kind::Eq,
    Kind::Ex,
    Kind::Exec,
    Kind::Explicit,
    Kind::False,
    Kind::Get,
    Kind::If,
    Kind::Impossible,
    Kind::Now,
    Kind::Pay,
    Kind::Proc,
    Kind::Recv,
    Kind::Refl,
    Kind::Send,
    Kind::True,
    Kind::Type,
    Kind::Wait,
    Kind::When,
    Kind::Work,
];

/// What a word is: the keyword with this text, or else a name.
pub fn kind_of_word(word: &[u8]) -> Kind
    ensures { result ≡ kind_of_word word.now }
{
    keyword(&KEYWORDS, word).unwrap_or(Kind::Name)
}

// The first of these keywords with this text.
fn keyword(keywords: &[Kind], word: &[u8]) -> Option<Kind>
    ensures { result ≡ find (λ k. bytes_eq word.now (text_of k)) keywords.now }
{
    keywords.iter().copied().find(|kind| word == kind.text())
}
