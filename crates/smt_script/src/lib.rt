//! Sinks and sources of bytes, and the lines of an SMT-LIB script.
//!
//! A [`Sink`] takes bytes. [`SmtLibScript`] puts lines of a script to any sink, one line a call, as SMT-LIB 2.7 spells commands
//! (chapter 3, Scripts) and comments (chapter 3, Lexicon). A [`Source`] gives bytes piece by piece, and [`read_input`] reads a
//! source to its end.
//!
//! Read `specs/Sink.antt` first: what a put leaves, and when it may fail, is one word for every sink and every line, `Puts`.
//! What a read gives, and when it may fail, is one word for every source, `ReadsNext` of `specs/Source.antt`. The bytes of each
//! line stand in `LineTexts` of `law_texts`, and those by which a script speaks to a solver in `specs/CommandTexts.antt`.
#![tactic(auto)]

mod bytes;
mod count;
mod input;
mod memory;
mod script;
mod sink;
mod source;
mod told;
mod writer;

pub use bytes::Bytes;
pub use count::CountSink;
pub use input::{InputError, read_input};
pub use memory::{ListSink, MemorySink};
pub use script::SmtLibScript;
pub use sink::{Sink, SinkError};
pub use smt_text::Text;
pub use source::{MemorySource, ReadSource, Source, SourceError, SourceFault};
pub use writer::{BufferedSink, WriteSink};
