// What several tests use: pages, and a source's answers compared with a list.
use cells::Cell;
use sources::{Source, SourceAnswer};
use std::alloc::{AllocError, Global};

// So many missing cells, of any kind.
pub(crate) fn page<C: Cell>(heap: Global, cells: usize) -> Result<Vec<C>, AllocError> {
    Ok(vec![in heap; C::missing_cell(); cells]?)
}

// Whether a source gives just these answers, and then the end, twice.
pub(crate) fn answers<S: Source>(
    source: &mut S,
    page: &mut [S::Cell],
    expected: &[SourceAnswer],
) -> bool {
    expected
        .iter()
        .chain(&[SourceAnswer::End; 2])
        .all(|&answer| source.ask(page) == Ok(answer))
}

// Whether a source refuses a page as too short.
pub(crate) fn is_refused<S: Source>(source: &mut S, page: &mut [S::Cell]) -> bool {
    source
        .ask(page)
        .is_err_and(|refusal| refusal.number() == 13)
}
