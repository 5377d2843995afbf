//! The marks of the language.
ghost use Rattle.std.specs.Prelude.{◌≡◌};
ghost use Rattle.text_core.specs.Marks.{mark_of};

/// A mark of the language.
#[derive(Clone, Copy, Debug, PartialEq, Eq)]
pub enum Mark {
    DotDot,
    Dot,
    Slash,
    Plus,
    Minus,
    Star,
    Open,
    Close,
    Comma,
    Is,
    Equal,
    NotEqual,
    Less,
    LessEq,
    More,
    MoreEq,
    OpenBrace,
    CloseBrace,
}

impl Mark {
    /// Returns the mark with this spelling.
    pub fn of(bytes: &[u8]) -> Option<Mark>
        ensures { result ≡ mark_of bytes.now }
    {
        Some(match bytes {
            b".." => Mark::DotDot,
            b"." => Mark::Dot,
            b"/" => Mark::Slash,
            b"+" => Mark::Plus,
            b"-" => Mark::Minus,
            b"*" => Mark::Star,
            b"(" => Mark::Open,
            b")" => Mark::Close,
            b"," => Mark::Comma,
            b"=" => Mark::Is,
            b"==" => Mark::Equal,
            b"!=" => Mark::NotEqual,
            b"<" => Mark::Less,
            b"<=" => Mark::LessEq,
            b">" => Mark::More,
            b">=" => Mark::MoreEq,
            b"{" => Mark::OpenBrace,
            b"}" => Mark::CloseBrace,
            _ => return None,
        })
    }
}
