// Output columns: a side and a column number of it.
ghost use Rattle.std.specs.Prelude.{◌≡◌, map};
ghost use Rattle.join_types.specs.Types.{other_side, swapped};

// The side None is that of a mark.
#[derive(Clone, Copy, PartialEq, Eq)]
pub enum JoinSide {
    Left,
    Right,
    None,
}

#[derive(Clone, Copy, PartialEq, Eq)]
pub struct ColumnIndex {
    pub index: usize,
    pub side: JoinSide,
}

impl JoinSide {
    // Left for right and right for left; a mark stays.
    pub fn other(self) -> JoinSide
        ensures { result ≡ other_side self }
    {
        match self {
            JoinSide::Left => JoinSide::Right,
            JoinSide::Right => JoinSide::Left,
            JoinSide::None => JoinSide::None,
        }
    }
}

impl ColumnIndex {
    // The same column of the other side.
    pub fn exchanged(self) -> ColumnIndex
        ensures { result ≡ swapped self }
    {
        ColumnIndex {
            index: self.index,
            side: self.side.other(),
        }
    }
}

// Exchanges the sides of an output list.
pub fn exchange_sides(columns: &mut [ColumnIndex])
    ensures { columns.new ≡ map swapped columns.old }
{
    for column in columns.iter_mut() {
        *column = column.exchanged();
    }
}
