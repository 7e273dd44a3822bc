// An encoder apart from its sink, so that other lines can be put between its calls.
ghost use Rattle.std.specs.Prelude.{ℕ, List, ◌≡◌};
ghost use Rattle.law_lines.specs.Lines.{Encoding};
ghost use Rattle.law_theorem.specs.Fits.{Stages};

use crate::encoder::Encoder;
use crate::writer::Writer;

impl<'a, S> Encoder<'a, S> {
    ghost use Rattle.smt_encode.specs.Encoded.{enums_in, is_spent, nodes_in, sink_of, texts_in};
    ghost use Rattle.smt_encode.specs.Encoded.{FitsEncoder, HasEncoding};

    /// The encoder without its sink, which goes on over the same or another one by `attach`, and the sink with what it got.
    /// Takes no memory, and puts nothing.
    ///
    /// # Examples
    ///
    /// ```
    /// use kembura::{Encoder, EnumTable, ListSink, SmtLibScript, Term};
    ///
    /// let enums = EnumTable::new(alloc);
    /// let mut encoder = Encoder::new(alloc, &enums, ListSink::new(alloc));
    /// encoder.encode(&[Term::from(true)])?;
    /// let (detached, mut script) = encoder.detach();
    /// script.check_sat()?;
    /// let mut encoder = detached.attach(script);
    /// encoder.encode(&[Term::from(false)])?;
    /// assert!(rt; encoder.into_script().bytes().ends_with(b"(check-sat)\n(assert false)\n"));
    /// ```
    pub fn detach(self) -> (Encoder<'a, ()>, S)
        ensures stands { (x : Encoding) → HasEncoding self.entry x → HasEncoding result.0 x }
        ensures fits { (text : List ℕ) (x : Stages) → FitsEncoder self.entry text x →
            FitsEncoder result.0 text x }
        ensures nodes { nodes_in result.0 ≡ nodes_in self.entry }
        ensures texts { texts_in result.0 ≡ texts_in self.entry }
        ensures enums { enums_in result.0 ≡ enums_in self.entry }
        ensures spent { is_spent result.0 ≡ is_spent self.entry }
        ensures sink { result.1 ≡ sink_of self.entry }
    {
        let Encoder {
            writer,
            begun,
            failed,
        } = self;
        let Writer {
            alloc,
            names,
            script,
        } = writer;
        let writer = Writer {
            alloc,
            names,
            script: (),
        };
        (
            Encoder {
                writer,
                begun,
                failed,
            },
            script,
        )
    }
}

impl<'a> Encoder<'a, ()> {
    ghost use Rattle.smt_encode.specs.Encoded.{enums_in, is_spent, nodes_in, sink_of, texts_in};
    ghost use Rattle.smt_encode.specs.Encoded.{FitsEncoder, HasEncoding};

    /// The encoder over this sink, with the names, levels and state that it has. What it writes goes on behind what its sinks
    /// got before, so that these bytes joined are the text that it fits. Takes no memory, and puts nothing.
    pub fn attach<S>(self, script: S) -> Encoder<'a, S>
        ensures stands { (x : Encoding) → HasEncoding self.entry x → HasEncoding result x }
        ensures fits { (text : List ℕ) (x : Stages) → FitsEncoder self.entry text x →
            FitsEncoder result text x }
        ensures nodes { nodes_in result ≡ nodes_in self.entry }
        ensures texts { texts_in result ≡ texts_in self.entry }
        ensures enums { enums_in result ≡ enums_in self.entry }
        ensures spent { is_spent result ≡ is_spent self.entry }
        ensures sink { sink_of result ≡ script }
    {
        let Encoder {
            writer,
            begun,
            failed,
        } = self;
        let Writer {
            alloc,
            names,
            script: (),
        } = writer;
        Encoder {
            writer: Writer {
                alloc,
                names,
                script,
            },
            begun,
            failed,
        }
    }
}
