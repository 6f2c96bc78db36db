// What a source is.
ghost use Rattle.std.specs.Prelude.{◌≡◌, ℕ, ◌*◌, ◌≤◌, List, All};
ghost use Rattle.memory.specs.Items.{Item};
ghost use Rattle.sources.specs.Asked.{Asked};
ghost use Rattle.sources.specs.Fits.{Fits};

use crate::{SourceAnswer, SourceRefusal};
use cells::Cell;

// A source means its list of items. All that it has to bring lies within its largest batch and its columns.
pub trait Source {
    type Cell: Cell;

    // The largest batch, in rows.
    const S: usize;

    ghost most: { ℕ };

    ghost width: { Self → ℕ };

    ghost items: { Self → List (Item Self.Cell) };

    ghost small: { most ≤ 1024 };

    ghost some: { (s : Self) → 1 ≤ width s };

    ghost narrow: { (s : Self) → width s ≤ 16 };

    ghost fits: { (s : Self) → All (Fits most (width s)) (items s) };

    // S where the kind of source is not known. A ghost S beside the constant was tried: an impl that names a lifetime cannot have one yet.
    fn largest() -> usize
        ensures { result ≡ most };

    fn columns(&self) -> usize
        ensures { result ≡ width self.now };

    // Takes the first item. Free are the cells of the page behind a batch, and the whole page at any other answer.
    fn ask(&mut self, page: &mut [Self::Cell]) -> Result<SourceAnswer, SourceRefusal>
        ensures answer { Asked items (most * width self.old) self.old self.new page.old page.new result }
        ensures width { width self.new ≡ width self.old };
}
