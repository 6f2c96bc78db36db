// What holds of all texts and rows, as contracts of calls that do nothing.
ghost use Rattle.lines.specs.Laws.{OneMeaning, ReadsBack};

// A text stands for one cell at most and a line for one row, and a reader has one answer.
pub fn one_meaning()
    ensures { OneMeaning }
{}

// Printing a row and reading it undo one another.
pub fn printed_reads_back()
    ensures { ReadsBack }
{}
