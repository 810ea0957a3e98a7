// Kinds of tokens.
ghost use Rattle.std.specs.Prelude.{◌≡◌};
ghost use Rattle.rast_ast.specs.Kinds.{text_of};

/// What a token is: a name, a number, one of the keywords, or one of the symbols.
#[derive(Clone, Copy, Debug, PartialEq, Eq)]
pub enum Kind {
    /// A letter, and then letters, digits and `_`, that is no keyword.
    Name,
    /// Decimal digits.
    Number,
    /// `all`
    All,
    /// `assert`
    Assert,
    /// `assume`
    Assume,
    /// `by`
    By,
    /// `case`
    Case,
    /// `close`
    Close,
    /// `decl`
    Decl,
    /// `delay`
    Delay,
    /// `eq`
    Eq,
    /// `ex`
    Ex,
    /// `exec`
    Exec,
    /// `explicit`
    Explicit,
    /// `false`
    False,
    /// `get`
    Get,
    /// `if`
    If,
    /// `impossible`
    Impossible,
    /// `now`
    Now,
    /// `pay`
    Pay,
    /// `proc`
    Proc,
    /// `recv`
    Recv,
    /// `refl`
    Refl,
    /// `send`
    Send,
    /// `true`
    True,
    /// `type`
    Type,
    /// `wait`
    Wait,
    /// `when`
    When,
    /// `work`
    Work,
    /// `<->`
    Forward,
    /// `<-`
    LeftArrow,
    /// `<=`
    AtMost,
    /// `<>`
    NotEqual,
    /// `<`
    Less,
    /// `=>`
    RightArrow,
    /// `=`
    Equal,
    /// `>=`
    AtLeast,
    /// `>`
    Greater,
    /// `/\`
    And,
    /// `\/`
    Or,
    /// `-o`
    Lolli,
    /// `-`
    Minus,
    /// `+`
    Plus,
    /// `&`
    Ampersand,
    /// `*`
    Star,
    /// `?`
    Question,
    /// `!`
    Exclamation,
    /// `.`
    Dot,
    /// `,`
    Comma,
    /// `:`
    Colon,
    /// `;`
    Semicolon,
    /// `|`
    Bar,
    /// `~`
    Tilde,
    /// `{`
    OpenBrace,
    /// `}`
    CloseBrace,
    /// `(`
    OpenParen,
    /// `)`
    CloseParen,
    /// `[`
    OpenBracket,
    /// `]`
    CloseBracket,
}

impl Kind {
    /// The bytes of a keyword or a symbol; of a name and a number, whose bytes differ, none.
    pub fn text(self) -> &'static [u8]
        ensures { result.now ≡ text_of self }
    {
        match self {
            Kind::Name | Kind::Number => b"",
            Kind::All => b"all",
            Kind::Assert => b"assert",
            Kind::Assume => b"assume",
            Kind::By => b"by",
            Kind::Case => b"case",
            Kind::Close => b"close",
            Kind::Decl => b"decl",
            Kind::Delay => b"delay",
            Kind::Eq => b"eq",
            Kind::Ex => b"ex",
            Kind::Exec => b"exec",
            Kind::Explicit => b"explicit",
            Kind::False => b"false",
            Kind::Get => b"get",
            Kind::If => b"if",
            Kind::Impossible => b"impossible",
            Kind::Now => b"now",
            Kind::Pay => b"pay",
            Kind::Proc => b"proc",
            Kind::Recv => b"recv",
            Kind::Refl => b"refl",
            Kind::Send => b"send",
            Kind::True => b"true",
            Kind::Type => b"type",
            Kind::Wait => b"wait",
            Kind::When => b"when",
            Kind::Work => b"work",
            Kind::Forward => b"<->",
            Kind::LeftArrow => b"<-",
            Kind::AtMost => b"<=",
            Kind::NotEqual => b"<>",
            Kind::Less => b"<",
            Kind::RightArrow => b"=>",
            Kind::Equal => b"=",
            Kind::AtLeast => b">=",
            Kind::Greater => b">",
            Kind::And => b"/\\",
            Kind::Or => b"\\/",
            Kind::Lolli => b"-o",
            Kind::Minus => b"-",
            Kind::Plus => b"+",
            Kind::Ampersand => b"&",
            Kind::Star => b"*",
            Kind::Question => b"?",
            Kind::Exclamation => b"!",
            Kind::Dot => b".",
            Kind::Comma => b",",
            Kind::Colon => b":",
            Kind::Semicolon => b";",
            Kind::Bar => b"|",
            Kind::Tilde => b"~",
            Kind::OpenBrace => b"{",
            Kind::CloseBrace => b"}",
            Kind::OpenParen => b"(",
            Kind::CloseParen => b")",
            Kind::OpenBracket => b"[",
            Kind::CloseBracket => b"]",
        }
    }
}
