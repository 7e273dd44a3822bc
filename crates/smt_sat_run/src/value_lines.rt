// A text of lines of words.
ghost use Rattle.std.specs.Prelude.{◌≤◌, length};

/// A text of lines of words, the last of which is not ended.
#[derive(Drop)]
pub(crate) struct ValueLines {
    pub(crate) text: Vec<u8>,
    pub(crate) start: usize,
    ghost within: { start ≤ length text.items },
}
