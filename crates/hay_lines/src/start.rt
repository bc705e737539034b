//! How lines begin, and what comes of them.
ghost use Rattle.std.specs.Prelude.{◌≡◌};
ghost use Rattle.std.specs.List.{fold};
ghost use Rattle.hay_lines.specs.Lines.{start_behind, long_fed, long_last};

/// What came of a line.
#[derive(Clone, Copy, Debug, PartialEq, Eq)]
pub enum LineRead {
    Line,
    /// The line is too long, and says something.
    TooLong,
    /// The line is too long, and is blank or a comment.
    Skipped,
    /// No line is left.
    End,
}

/// How a line begins.
#[derive(Clone, Copy, Debug, PartialEq, Eq)]
pub enum LineStart {
    /// All of it is spaces and tabs.
    Blank,
    /// All of it is spaces and tabs, but for a carriage return at its end.
    BlankReturn,
    /// Behind spaces and tabs comes a number sign.
    Comment,
    Words,
}

impl LineStart {
    /// How the line begins when it has this byte more.
    fn with(self, byte: u8) -> LineStart
        ensures { result ≡ start_behind self byte }
    {
        match self {
            LineStart::Blank => match byte {
                b' ' | b'\t' => LineStart::Blank,
                b'\r' => LineStart::BlankReturn,
                b'#' => LineStart::Comment,
                _ => LineStart::Words,
            },
            LineStart::BlankReturn => LineStart::Words,
            LineStart::Comment => LineStart::Comment,
            LineStart::Words => LineStart::Words,
        }
    }

    /// How the line begins when it has these bytes more.
    pub fn behind(self, span: &[u8]) -> LineStart
        ensures { result ≡ fold start_behind self span.now }
    {
        let mut start = self;
        for byte in span {
            match start {
                LineStart::Blank | LineStart::BlankReturn => start = start.with(*byte),
                LineStart::Comment | LineStart::Words => return start,
            }
        }
        start
    }

    /// What came of a line that is too long, where a line feed ends it.
    pub fn fed(self) -> LineRead
        ensures { result ≡ long_fed self }
    {
        match self {
            LineStart::Words => LineRead::TooLong,
            LineStart::Blank | LineStart::BlankReturn | LineStart::Comment => LineRead::Skipped,
        }
    }

    /// What came of a line that is too long, where the script ends behind it.
    pub fn last(self) -> LineRead
        ensures { result ≡ long_last self }
    {
        match self {
            LineStart::Blank | LineStart::Comment => LineRead::Skipped,
            LineStart::BlankReturn | LineStart::Words => LineRead::TooLong,
        }
    }
}
