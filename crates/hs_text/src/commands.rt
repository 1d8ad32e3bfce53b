//! The commands of a script.

/// A command of a script, by its word.
#[derive(Clone, Copy)]
pub enum Verb {
    /// `open`
    Open,
    /// `write`
    Write,
    /// `reset`
    Reset,
    /// `close`
    Close,
    /// `save`
    Save,
    /// `expand`
    Expand,
}

/// A command of a script, with the name of its stream.
#[derive(Clone, Copy, PartialEq, Eq)]
pub enum Command<'a> {
    /// Opens a stream of that name, which is empty.
    Open(&'a [u8]),
    /// Writes so many bytes, which stand behind the line.
    Write(&'a [u8], u64),
    /// Closes the stream and opens it anew.
    Reset(&'a [u8]),
    /// Closes the stream.
    Close(&'a [u8]),
    /// Puts the state of the stream into the file of the second name.
    Save(&'a [u8], &'a [u8]),
    /// Opens a stream of the first name with the state in the file of the second one.
    Expand(&'a [u8], &'a [u8]),
}
