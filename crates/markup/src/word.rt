//! The fixed words of tokens, read a letter at a time.
ghost use Rattle.std.specs.Prelude.{◌≡◌, ◌<◌, OnSome};
ghost use Rattle.markup.specs.inner.Words.{word_text, letter_of};

/// A word that a token has, as the grammar spells it.
#[derive(Clone, Copy)]
pub(crate) enum Word {
    /// `CDATA[`, behind `<![`.
    Cdata,
    /// `DOCTYPE`, behind `<!`.
    Doctype,
    Ampersand,
    Less,
    Greater,
    Apostrophe,
    Quote,
    Version,
    Encoding,
    Standalone,
    One,
    Utf8,
    Yes,
    No,
}

impl Word {
    /// The word's letters.
    fn text(self) -> &'static [u8]
        ensures { result.now ≡ word_text self }
    {
        match self {
            Word::Cdata => b"CDATA[",
            Word::Doctype => b"DOCTYPE",
            Word::Ampersand => b"amp",
            Word::Less => b"lt",
            Word::Greater => b"gt",
            Word::Apostrophe => b"apos",
            Word::Quote => b"quot",
            Word::Version => b"version",
            Word::Encoding => b"encoding",
            Word::Standalone => b"standalone",
            Word::One => b"1.0",
            Word::Utf8 => b"utf-8",
            Word::Yes => b"yes",
            Word::No => b"no",
        }
    }

    /// The letter at that place; none behind the last.
    pub(crate) fn letter(self, at: u8) -> Option<char>
        ensures value { result ≡ letter_of self at }
        ensures bound { OnSome result (at < 16) }
    {
        self.text()
            .get(usize::from(at))
            .map(|letter| char::from(*letter))
    }
}
