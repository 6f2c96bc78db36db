// Holds a cursor that is set back unless what was read is accepted.
ghost use Rattle.std.specs.Prelude.{◌≡◌, unwrap_or};

pub(crate) struct Guard<'a> {
    pub cursor: &'a mut usize,
    // Where the cursor is set back to; nowhere, once the row is accepted.
    pub start: Option<usize>,
}

impl Drop for Guard<'_> {
    fn drop(self)
        ensures { self.exit.0.now ≡ unwrap_or self.entry.start self.entry.cursor.now }
    {
        let Guard { cursor, start } = self;
        if let Some(start) = start {
            *cursor = start;
        }
    }
}
