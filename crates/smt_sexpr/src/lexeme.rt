//! Runs of bytes at the front of a text (SMT-LIB 2.7, chapter 3, Lexicon).
#![tactic(auto)]

ghost use Rattle.std.specs.Prelude.{◌≡◌, length, not, ◌==◌};
ghost use Rattle.std.specs.List.{take_while};
ghost use Rattle.law_texts.specs.Front.{begins_without};
ghost use Rattle.law_texts.specs.Reads.{skip_space};
ghost use Rattle.law_texts.specs.Lexicon.{is_line_end, is_space, is_symbol_byte};
ghost use Rattle.smt_sexpr.specs.Pieces.{stands_as_itself};

pub fn is_white_space(byte: u8) -> bool
    ensures { result ≡ is_space byte }
{
    matches!(byte, b' ' | b'\t' | b'\n' | b'\r' | b'\x0c')
}

// Letters, of which most symbols are made, stand behind all bytes that end one.
pub fn goes_on_symbol(byte: u8) -> bool
    ensures { result ≡ is_symbol_byte byte }
{
    byte > b';' || !is_white_space(byte) && !matches!(byte, b'(' | b')' | b';' | b'"' | b'#')
}

fn ends_line(byte: u8) -> bool
    ensures { result ≡ is_line_end byte }
{
    matches!(byte, b'\n' | b'\r')
}

fn space_len(src: &[u8]) -> usize
    ensures { result ≡ length (take_while is_space src.now) }
{
    src.iter().take_while(|byte| is_white_space(**byte)).count()
}

// How many bytes stand before the end of a line.
pub fn comment_len(src: &[u8]) -> usize
    ensures { result ≡ length (take_while (λ b. not (is_line_end b)) src.now) }
{
    src.iter().take_while(|byte| !ends_line(**byte)).count()
}

pub fn symbol_len(src: &[u8]) -> usize
    ensures { result ≡ length (take_while is_symbol_byte src.now) }
{
    src.iter().take_while(|byte| goes_on_symbol(**byte)).count()
}

// How many bytes stand before the next quote.
pub fn run_len(src: &[u8]) -> usize
    ensures { result ≡ length (take_while (λ b. not (b == 34)) src.now) }
{
    src.iter().take_while(|byte| **byte != b'"').count()
}

fn is_plain(byte: u8) -> bool
    ensures { result ≡ stands_as_itself byte }
{
    byte < 128 && byte != b'"' && byte != b'\\'
}

// How many characters that stand as themselves in a string stand at the front.
pub fn plain_len(src: &[u8]) -> usize
    ensures { result ≡ length (take_while stands_as_itself src.now) }
{
    src.iter().take_while(|byte| is_plain(**byte)).count()
}

fn begins_space(src: &[u8]) -> bool
    ensures { result ≡ not (begins_without is_space src.now) }
{
    match src.split_first() {
        Some((byte, _)) => is_white_space(*byte),
        None => false,
    }
}

// The text from the first byte on that isn't white space. Most texts begin with none, which their first byte tells.
pub fn without_space(src: &[u8]) -> &[u8]
    ensures { result.now ≡ skip_space src.now }
{
    if begins_space(src) {
        src.split_at(space_len(src)).1
    } else {
        src
    }
}
