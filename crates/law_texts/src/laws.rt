//! Laws of readings and of quoted texts, proved with no code.
ghost use Rattle.law_texts.specs.QuotedTexts.{QuotedTextsAreRead};
ghost use Rattle.law_texts.specs.Reading.{OneReading};

/// A text has one reading.
pub fn one_reading()
    ensures { OneReading }
{}

/// What quoting gives is read as the one string that was quoted.
pub fn quoted_texts_are_read()
    ensures { QuotedTextsAreRead }
{}
