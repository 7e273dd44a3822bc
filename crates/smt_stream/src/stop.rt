// Why a stream stops.

/// Why a stream over bytes stops before its end.
#[derive(Debug, Clone, Copy, PartialEq, Eq, Drop)]
pub enum Stop {
    /// The bytes are no script.
    NotScript,
    /// A command has too many bytes, or all bytes together are too many.
    TooLong,
    /// Too many brackets are open.
    TooDeep,
}

impl Stop {
    ghost use Rattle.std.specs.Prelude.{◌≡◌};
    ghost use Rattle.law_verdicts.specs.Streams.{stop_line};
    ghost use Rattle.smt_stream.specs.Scanning.{plain_stop};

    /// The line that is put, with its line feed.
    pub fn line(self) -> &'static str
        ensures { result.now ≡ stop_line (plain_stop self) }
    {
        match self {
            Stop::NotScript => "(error \"not a script\")\n",
            Stop::TooLong => "(error \"too long\")\n",
            Stop::TooDeep => "(error \"too deep\")\n",
        }
    }
}
