// Line ends of texts.
ghost use Rattle.std.specs.Prelude.{◌≡◌, position};
ghost use Rattle.law_texts.specs.Characters.{is_line_end};

/// Where the first line end of a text stands, LF or CR: at either a comment ends (SMT-LIB 2.7, chapter 3, Lexicon).
pub fn line_end(text: &[u8]) -> Option<usize>
    ensures { result ≡ position is_line_end text.now }
{
    text.iter().position(|b| *b == b'\n' || *b == b'\r')
}
