//! Texts: shared texts, the readers of digits and signs, texts between quotes, and line ends.
//!
//! What the calls answer is said by files of `law_texts`: `Characters`, `Digits`, `Quoting`, `LineTexts` and `SharedTexts`.
#![tactic(auto)]

pub mod digits;
mod id;
mod lines;
mod quote;
mod text;

pub use id::quote_id;
pub use lines::line_end;
pub use quote::{SMT_LIB_MAX_CODE_POINT, quote_string};
pub use text::{Text, push_spaced, share_text};
