//! A report: lines of pieces, parted by tabs, in bytes that the caller lends.

ghost use Rattle.std.specs.Prelude.{◌≤◌, length};

use itoa::Buffer;

/// One piece of a report line.
#[derive(Clone, Copy, Debug, PartialEq, Eq)]
pub enum Piece {
    Accepted,
    Nothing,
    Refused,
    End,
    Number(i64),
}

impl From<u32> for Piece {
    ghost use Rattle.std.specs.Prelude.{◌≡◌, pos};
    ghost use Rattle.report.specs.declared.report.Piece.TheVariants.{Number};

    ghost from_gives = { λ count piece. piece ≡ Number (pos count) };

    fn from(count: u32) -> Piece {
        Piece::Number(i64::from(count))
    }
}

/// There is no room for what was to be written.
#[derive(Clone, Copy, Debug, PartialEq, Eq)]
pub struct Full;

/// A report over the caller's bytes: its text is the first `written` of them.
#[derive(Drop)]
pub struct Report<'m> {
    bytes: &'m mut [u8],
    written: usize,
    ghost within: { written ≤ length bytes.now },
}

impl<'m> Report<'m> {
    ghost use Rattle.std.specs.Prelude.{◌≡◌};
    ghost use Rattle.report.specs.Report.{KeepsRoom, held, lender, line_text, Lined, text_of, used};
    ghost use Rattle.report.specs.Writing.{Writes};

    /// An empty report over `bytes`.
    pub fn new(bytes: &'m mut [u8]) -> Report<'m>
        ensures lent { lender result ≡ bytes.entry.ghost_name }
        ensures holds { held result ≡ bytes.old }
        ensures empty { used result ≡ 0 }
    {
        Report { bytes, written: 0 }
    }

    /// How many bytes are written.
    pub fn len(&self) -> usize
        ensures { result ≡ used self.now }
    {
        self.written
    }

    /// Writes one line, whole or not at all.
    pub fn line(&mut self, pieces: &[Piece]) -> Result<(), Full>
        ensures same { KeepsRoom self.old self.new }
        ensures lined { Lined self.old pieces.now result self.new }
    {
        let open = OpenLine {
            began: self.written,
            report: self,
        };
        open.report.put_line(pieces)?;
        open.finish();
        Ok(())
    }

    /// Writes the pieces, a tab before each but the first, and the line feed.
    fn put_line(&mut self, pieces: &[Piece]) -> Result<(), Full>
        ensures { Writes self.old (line_text pieces.now) result self.new }
    {
        let [first, rest @ ..] = pieces else {
            return self.put(b"\n");
        };
        self.put_piece(*first)?;
        for piece in rest {
            self.put(b"\t")?;
            self.put_piece(*piece)?;
        }
        self.put(b"\n")
    }

    /// Writes the text of one piece. `write!` has no clause on what a failed write leaves.
    fn put_piece(&mut self, piece: Piece) -> Result<(), Full>
        ensures { Writes self.old (text_of piece) result self.new }
    {
        match piece {
            Piece::Accepted => self.put(b"ok"),
            Piece::Nothing => self.put(b"none"),
            Piece::Refused => self.put(b"no"),
            Piece::End => self.put(b"end"),
            Piece::Number(number) => self.put(Buffer::new().format(number).as_bytes()),
        }
    }

    /// Writes `text` behind what is written, if there is room for it.
    fn put(&mut self, text: &[u8]) -> Result<(), Full>
        ensures { Writes self.old text.now result self.new }
    {
        if text.len() > self.bytes.len() - self.written {
            return Err(Full);
        }
        let end = self.written + text.len();
        self.bytes[self.written..end].copy_from_slice(text);
        self.written = end;
        Ok(())
    }
}

/// A line that is being written. Where it is dropped before it is finished, the report ends again where the line began.
struct OpenLine<'r, 'm> {
    report: &'r mut Report<'m>,
    began: usize,
}

impl OpenLine<'_, '_> {
    ghost use Rattle.std.specs.Prelude.{◌≡◌};

    /// Keeps the line as it is now.
    fn finish(self)
        ensures { self.exit.0.now ≡ self.entry.report.now }
    {
        let OpenLine {
            report: _,
            began: _,
        } = self;
    }
}

impl Drop for OpenLine<'_, '_> {
    ghost use Rattle.std.specs.Prelude.{◌≡◌};
    ghost use Rattle.report.specs.Report.{capacity, held, lender, used};

    fn drop(self)
        requires { self.began ≤ capacity self.report.now }
        ensures lent { lender self.exit.0.now ≡ lender self.entry.report.now }
        ensures holds { held self.exit.0.now ≡ held self.entry.report.now }
        ensures ended { used self.exit.0.now ≡ self.entry.began }
    {
        self.report.written = self.began;
        let OpenLine {
            report: _,
            began: _,
        } = self;
    }
}
