// Names that a script may have, and those that it can't declare.
ghost use Rattle.std.specs.Prelude.{◌≡◌, ◌++◌, ◌==◌, ◌||◌, codes, map};
ghost use Rattle.std.specs.List.{list_all};
ghost use Rattle.law_texts.specs.Lexicon.{is_plain_byte, is_plain_symbol, is_symbol};
ghost use Rattle.law_texts.specs.Lexicon.{is_symbol_byte};
ghost use Rattle.law_scripts.specs.Script.{built_in_names, is_in, is_reserved, is_simple_symbol};
ghost use Rattle.law_scripts.specs.Script.{reserved_words};
ghost use Rattle.law_scripts.specs.Written.{is_name};

/// The names of the theories, which no script declares.
const BUILT_IN_NAMES: &[&str] = &[
    "true",
    "false",
    "set.insert",
    "set.empty",
    "zero_extend",
    "str.in_re",
    "str.to_re",
    "re.++",
    "re.*",
    "re.allchar",
    "not",
    "and",
    "or",
    "=",
    "ite",
    "bvneg",
    "bvadd",
    "bvlshr",
    "bvmul",
    "bvsdiv",
    "bvshl",
    "bvsmod",
    "bvsrem",
    "bvsub",
    "bvudiv",
    "bvurem",
    "bvsle",
    "bvslt",
    "bvule",
    "bvult",
    "bvsaddo",
    "bvsmulo",
    "bvssubo",
    "set.member",
    "set.subset",
    "set.inter",
];

/// The reserved words of SMT-LIB 2.7 (chapter "The SMT-LIB Language", "Lexicon").
const RESERVED_WORDS: &[&str] = &[
    "_",
    "as",
    "!",
    "BINARY",
    "DECIMAL",
    "HEXADECIMAL",
    "NUMERAL",
    "STRING",
    "exists",
    "forall",
    "lambda",
    "let",
    "match",
    "par",
    "assert",
    "check-sat",
    "check-sat-assuming",
    "declare-const",
    "declare-datatype",
    "declare-datatypes",
    "declare-fun",
    "declare-sort",
    "declare-sort-parameter",
    "define-const",
    "define-fun",
    "define-fun-rec",
    "define-funs-rec",
    "define-sort",
    "echo",
    "exit",
    "get-assertions",
    "get-assignment",
    "get-info",
    "get-model",
    "get-option",
    "get-proof",
    "get-unsat-assumptions",
    "get-unsat-core",
    "get-value",
    "pop",
    "push",
    "reset",
    "reset-assertions",
    "set-info",
    "set-logic",
    "set-option",
];

/// Whether a name is one of these words.
fn is_among(name: &[u8], words: &[&str]) -> bool
    ensures { result ≡ is_in name.now (map (λ word. word.now) words.now) }
{
    words.iter().any(|word| name == word.as_bytes())
}

/// Whether a name is one of the theories.
pub fn is_built_in(name: &str) -> bool
    ensures { result ≡ is_in name.now built_in_names }
{
    is_among(name.as_bytes(), BUILT_IN_NAMES)
}

/// Whether a name is a reserved word.
fn is_reserved_word(name: &[u8]) -> bool
    ensures { result ≡ is_in name.now reserved_words }
{
    is_among(name, RESERVED_WORDS)
}

/// Whether no script may declare a name, in any kind.
pub fn is_reserved(name: &str) -> bool
    ensures { result ≡ is_reserved name.now }
{
    is_reserved_word(name.as_bytes()) || matches!(name.as_bytes().first(), Some(b':' | b'.' | b'@'))
}

/// Whether a byte may stand in a symbol.
fn is_symbol_byte(byte: u8) -> bool
    ensures { result ≡ is_symbol_byte byte }
{
    !matches!(
        byte,
        b' ' | b'\t' | b'\n' | b'\r' | b'\x0c' | b'(' | b')' | b';' | b'"' | b'#'
    )
}

/// Whether a byte may stand in a simple symbol.
fn is_plain_byte(byte: u8) -> bool
    ensures { result ≡ is_plain_byte byte }
{
    byte.is_ascii_alphanumeric()
        || matches!(
            byte,
            b'~' | b'!'
                | b'@'
                | b'$'
                | b'%'
                | b'^'
                | b'&'
                | b'*'
                | b'_'
                | b'-'
                | b'+'
                | b'='
                | b'<'
                | b'>'
                | b'.'
                | b'?'
                | b'/'
        )
}

/// Whether each byte may stand in a symbol.
fn are_symbol_bytes(bytes: &[u8]) -> bool
    ensures { result ≡ list_all is_symbol_byte bytes.now }
{
    bytes.iter().all(|byte| is_symbol_byte(*byte))
}

/// Whether each byte may stand in a simple symbol.
fn are_plain_bytes(bytes: &[u8]) -> bool
    ensures { result ≡ list_all is_plain_byte bytes.now }
{
    bytes.iter().all(|byte| is_plain_byte(*byte))
}

/// Whether the text is a symbol.
fn is_symbol(name: &[u8]) -> bool
    ensures { result ≡ is_symbol name.now }
{
    match name.split_first() {
        Some((first, _)) => !first.is_ascii_digit() && are_symbol_bytes(name),
        None => false,
    }
}

/// Whether a byte may stand first in a simple symbol or a keyword.
fn is_first_byte(byte: u8) -> bool
    ensures { result ≡ (is_plain_byte byte || (byte == 58)) }
{
    is_plain_byte(byte) || byte == b':'
}

/// Whether each byte is a plain one; a colon may stand first.
fn is_plain_symbol(name: &[u8]) -> bool
    ensures { result ≡ is_plain_symbol name.now }
{
    match name.split_first() {
        Some((first, rest)) => is_first_byte(*first) && are_plain_bytes(rest),
        None => false,
    }
}

/// Whether a script may have the name.
pub fn is_name(name: &str) -> bool
    ensures { result ≡ is_name name.now }
{
    is_symbol(name.as_bytes()) && is_plain_symbol(name.as_bytes())
}

/// Whether a script may have the name behind a colon.
pub fn is_option_name(name: &[u8]) -> bool
    ensures { result ≡ is_name (codes ":" ++ name.now) }
{
    are_symbol_bytes(name) && are_plain_bytes(name)
}

/// Whether the name is a symbol that is neither a reserved word nor a keyword.
pub fn is_simple_symbol(name: &[u8]) -> bool
    ensures { result ≡ is_simple_symbol name.now }
{
    is_symbol(name) && !(is_reserved_word(name) || matches!(name.first(), Some(b':')))
}
