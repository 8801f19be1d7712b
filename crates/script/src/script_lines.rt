//! The lines of a script, one by one, at their places.

ghost use Rattle.std.specs.Prelude.{◌≡◌, ◌≤◌, ◌↔◌, length, take, IsTrue};
ghost use Rattle.script.specs.Fields.{fields_of, left};
ghost use Rattle.script.specs.Lines.{line_bytes};

use crate::lexer::Lexer;
use crate::lines::line_end;

/// A line of a script, without its line feed: the script up to the line's end, and where the line begins in it.
#[derive(Clone, Copy, Debug, PartialEq, Eq)]
pub struct ScriptLine<'s> {
    script: &'s [u8],
    start: usize,
}

impl<'s> ScriptLine<'s> {
    /// The line of the script from `start` up to `end`.
    fn new(script: &'s [u8], start: usize, end: usize) -> ScriptLine<'s>
        requires { end ≤ length script.now }
        ensures front { result.script.now ≡ take end script.now }
        ensures place { result.start ≡ start }
    {
        let script = &script[..end];
        ScriptLine { script, start }
    }

    /// Whether the line has no bytes.
    pub fn is_empty(&self) -> bool
        ensures { IsTrue result ↔ (length (line_bytes self.now) ≡ 0) }
    {
        self.start >= self.script.len()
    }

    /// The fields of the line. Their places are those in the script.
    pub fn fields(&self) -> Lexer<'s>
        ensures script { result.script.now ≡ self.now.script.now }
        ensures place { self.now.start ≤ length self.now.script.now → result.next ≡ self.now.start }
        ensures fields { left result ≡ fields_of (line_bytes self.now) }
    {
        Lexer::new(self.script, self.start, self.script.len())
    }
}

/// Gives the lines of a script, first to last: `next` is where the next one begins. A `split` would give one more, an empty one,
/// behind a last line feed, and would not tell where a line begins.
#[derive(Drop)]
pub struct ScriptLines<'s> {
    script: &'s [u8],
    next: usize,
}

impl<'s> ScriptLines<'s> {
    /// The lines of this script.
    pub fn new(script: &'s [u8]) -> ScriptLines<'s>
        ensures script { result.script.now ≡ script.now }
        ensures start { result.next ≡ 0 }
    {
        ScriptLines { script, next: 0 }
    }
}

impl<'s> Iterator for ScriptLines<'s> {
    ghost use Rattle.std.specs.Iterator.{item_count};
    ghost use Rattle.script.specs.Lines.{GivesNextLine, lines_left};

    type Item = ScriptLine<'s>;

    ghost next_gives = { GivesNextLine };

    ghost remaining = { item_count lines_left };

    /// The next line, or none after the last.
    fn next(&mut self) -> Option<ScriptLine<'s>> {
        if self.next >= self.script.len() {
            return None;
        }
        let end = line_end(self.script, self.next);
        let line = ScriptLine::new(self.script, self.next, end);
        self.next = end + 1;
        Some(line)
    }
}
