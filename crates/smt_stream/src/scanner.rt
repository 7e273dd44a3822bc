// Where commands end in bytes that come one by one.
ghost use Rattle.std.specs.Prelude.{◌≡◌, false};
ghost use Rattle.law_texts.specs.Lexicon as lexicon;
ghost use Rattle.law_verdicts.specs.Scan as scan;
ghost use Rattle.law_verdicts.specs.Scan.{Scan, at_depth, scanned};
ghost use Rattle.law_verdicts.specs.Streams as streams;
ghost use Rattle.smt_stream.specs.Scanning.{plain_place, plain_scan};

/// No command has more brackets open at a place.
pub const MOST_OPEN: usize = 1024;

/// Where a scan stands.
#[derive(Debug, Clone, Copy, PartialEq, Eq)]
pub enum Place {
    /// Neither in a string nor in a comment.
    Between,
    /// In a string.
    InString,
    /// In a comment.
    InComment,
}

/// A scan of bytes that looks at brackets, strings and comments alone.
#[derive(Debug, Clone, Copy, PartialEq, Eq)]
pub struct Scanner {
    /// How many brackets are open.
    pub depth: usize,
    /// Where it stands.
    pub place: Place,
}

/// Whether a byte is white space.
fn is_space(byte: u8) -> bool
    ensures { result ≡ lexicon.is_space byte }
{
    matches!(byte, b' ' | b'\t' | b'\n' | b'\r' | b'\x0c')
}

/// Whether a byte may begin a command, or stand between two.
fn is_space_or_opens(byte: u8) -> bool
    ensures { result ≡ streams.is_blank_or_opens byte }
{
    is_space(byte) || matches!(byte, b';' | b'(')
}

/// Whether a byte ends a line.
fn is_line_end(byte: u8) -> bool
    ensures { result ≡ lexicon.is_line_end byte }
{
    matches!(byte, b'\n' | b'\r')
}

/// Whether a byte is a printable character of ASCII.
fn is_printable(byte: u8) -> bool
    ensures { result ≡ lexicon.is_printable byte }
{
    matches!(byte, b' '..=b'~')
}

impl Scanner {
    /// Before the first byte.
    pub fn new() -> Scanner
        ensures { plain_scan result ≡ at_depth 0 scan.Between }
    {
        Scanner {
            depth: 0,
            place: Place::Between,
        }
    }

    /// Whether it stands neither in a string nor in a comment.
    fn is_between(self) -> bool
        ensures { result ≡ scan.is_between (plain_place self.place) }
    {
        match self.place {
            Place::Between => true,
            Place::InString | Place::InComment => false,
        }
    }

    /// Whether the next byte stands outside brackets and begins no command.
    pub fn is_stray(self, byte: u8) -> bool
        ensures { result ≡ streams.is_stray (plain_scan self) byte }
    {
        self.depth == 0 && self.is_between() && !is_space_or_opens(byte)
    }

    /// Whether the next byte opens one bracket too many.
    pub fn is_too_deep(self, byte: u8) -> bool
        ensures { result ≡ streams.is_too_deep (plain_scan self) byte }
    {
        byte == b'(' && self.is_between() && self.depth >= MOST_OPEN
    }

    /// Whether the next byte is one of a command.
    pub fn is_kept(self, byte: u8) -> bool
        ensures { result ≡ streams.is_kept (plain_scan self) byte }
    {
        self.depth > 0 || (self.is_between() && byte == b'(')
    }

    /// Whether the next byte is one that no script has at this place.
    pub fn is_odd(self, byte: u8) -> bool
        ensures { result ≡ streams.is_odd (plain_scan self) byte }
    {
        match self.place {
            Place::Between => byte == b'\x0c',
            Place::InString => !is_printable(byte),
            Place::InComment => false,
        }
    }

    /// Whether the next byte is the last bracket of a command.
    pub fn ends_command(self, byte: u8) -> bool
        ensures { result ≡ scan.ends_command (plain_scan self) byte }
    {
        byte == b')' && self.is_between() && self.depth == 1
    }

    /// Where it stands behind a byte that is neither in a string nor in a comment.
    fn taken_between(self, byte: u8) -> Scanner
        requires { streams.is_too_deep (record { depth = self.depth; place = scan.Between }) byte
            ≡ false }
        ensures { plain_scan result ≡ scan.scanned_at self.depth scan.Between byte }
    {
        match byte {
            b'"' => Scanner {
                depth: self.depth,
                place: Place::InString,
            },
            b';' => Scanner {
                depth: self.depth,
                place: Place::InComment,
            },
            b'(' => Scanner {
                depth: self.depth + 1,
                place: Place::Between,
            },
            b')' => Scanner {
                depth: self.depth.saturating_sub(1),
                place: Place::Between,
            },
            _ => Scanner {
                depth: self.depth,
                place: Place::Between,
            },
        }
    }

    /// Where it stands behind a byte that opens not one bracket too many.
    pub fn taken(self, byte: u8) -> Scanner
        requires { streams.is_too_deep (plain_scan self) byte ≡ false }
        ensures { plain_scan result ≡ scanned (plain_scan self) byte }
    {
        match self.place {
            Place::Between => self.taken_between(byte),
            Place::InString if byte == b'"' => Scanner {
                depth: self.depth,
                place: Place::Between,
            },
            Place::InComment if is_line_end(byte) => Scanner {
                depth: self.depth,
                place: Place::Between,
            },
            Place::InString | Place::InComment => self,
        }
    }
}
