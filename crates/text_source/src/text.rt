// A source whose rows are the lines of a text. Good lines make batches as long as possible; a bad line is a fault of its own.
ghost use Rattle.std.specs.Prelude.{◌≡◌, ◌+◌, ◌*◌, ◌≤◌, [], length, drop};
ghost use Rattle.std.proofs.Common.{lit≤};
ghost use Rattle.texts.specs.Items.{items as lineItems};
ghost use Rattle.text_source.specs.Grouped.{grouped};
ghost use Rattle.text_source.specs.Fills.{Filled, ReadAt};
ghost use Rattle.text_source.specs.Fitting.{text_fits};

use cells::Full;
use lines::{Answer, LineRefusal, pass_line, read_row};
use memory::ColumnCount;
use sources::{Fault, Source, SourceAnswer, SourceRefusal};

// The largest batch of a source over text.
const LARGEST: usize = 64;

#[derive(Drop)]
pub struct TextSource<'a> {
    text: &'a [u8],
    cursor: usize,
    columns: ColumnCount,
}

impl<'a> TextSource<'a> {
    // The rows of a whole text.
    pub fn new(columns: ColumnCount, text: &'a [u8]) -> TextSource<'a>
        ensures { (result.text.now ≡ text.now) × (result.cursor ≡ 0) × (result.columns ≡ columns) }
    {
        TextSource {
            text,
            cursor: 0,
            columns,
        }
    }

    // Reads good lines into the front of the page, and answers how many; where the first line is bad, why.
    fn read_front(&mut self, page: &mut [Full]) -> Result<usize, LineRefusal>
        requires { 64 * self.old.columns.count ≤ length page.old }
        ensures filled { Filled self.old.columns.count self.old.text.now self.old.cursor self.new.cursor page.new result }
        ensures same { (self.new.text.now ≡ self.old.text.now) × (self.new.columns ≡ self.old.columns) }
        ensures long { length page.new ≡ length page.old }
    {
        let columns = self.columns.get();
        for rows in 0..LARGEST {
            match self.read_at(page, rows * columns) {
                Ok(Answer::Row) => {}
                Ok(Answer::End) => return Ok(rows),
                Err(refusal) if rows == 0 => return Err(refusal),
                Err(_) => return Ok(rows),
            }
        }
        Ok(LARGEST)
    }

    // Reads a line into a place of the page.
    // Chunks of the page were no way: once they are written through, a proof knows of the page its length alone.
    fn read_at(&mut self, page: &mut [Full], at: usize) -> Result<Answer, LineRefusal>
        requires { at + self.old.columns.count ≤ length page.old }
        ensures read { ReadAt self.old.columns.count at self.old.text.now self.old.cursor page.old result page.new self.new.cursor }
        ensures same { (self.new.text.now ≡ self.old.text.now) × (self.new.columns ≡ self.old.columns) }
    {
        let columns = self.columns.get();
        let text = self.text;
        read_row(text, &mut self.cursor, &mut page[at..at + columns])
    }
}

impl<'a> Source for TextSource<'a> {
    type Cell = Full;

    const S: usize = LARGEST;

    ghost most = { 64 };

    ghost width = { λ s. s.columns.count };

    ghost items = { λ s. grouped [] (lineItems s.columns.count (drop s.cursor s.text.now)) };

    ghost small = { lit≤ tt };

    ghost some = { λ s. s.columns.some };

    ghost narrow = { λ s. s.columns.few };

    ghost fits = { λ s. text_fits s.columns.count (drop s.cursor s.text.now) };

    fn largest() -> usize
        ensures { result ≡ 64 }
    {
        LARGEST
    }

    fn columns(&self) -> usize {
        self.columns.get()
    }

    // A bad line in front is passed by; behind good lines it stays for the next time.
    fn ask(&mut self, page: &mut [Full]) -> Result<SourceAnswer, SourceRefusal> {
        if page.len() < LARGEST * self.columns() {
            return Err(SourceRefusal::PageTooShort);
        }
        match self.read_front(page) {
            Ok(0) => Ok(SourceAnswer::End),
            Ok(rows) => Ok(SourceAnswer::Batch(rows)),
            Err(refusal) => {
                let text = self.text;
                pass_line(text, &mut self.cursor);
                Ok(SourceAnswer::Fault(Fault {
                    cause: refusal.number(),
                    depth: 0,
                }))
            }
        }
    }
}
