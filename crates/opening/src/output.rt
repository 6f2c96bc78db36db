// The output list of a join: it can be made only by a check, so that every one is legal.
ghost use Rattle.std.specs.Prelude.{◌≡◌, ◌≤◌, true, map, IfOk};
ghost use Rattle.std.specs.Result.{result_err};
ghost use Rattle.join_types.specs.Types.{swapped};
ghost use Rattle.opening.specs.Lists.{columns_of, list_refusal, is_legal, list_of, exchanged_list};

use crate::request::ColumnRequest;
use crate::{ColumnList, OpenRefusal};
use join_types::{ColumnIndex, JoinType};

#[derive(Clone, Copy)]
pub struct OutputList {
    list: ColumnList,
    ghost few: { list.count ≤ 32 },
    ghost legal: { is_legal list ≡ true },
}

impl OutputList {
    // The list of these columns, for a type and so many left and right columns.
    pub fn check(
        join_type: JoinType,
        left_columns: usize,
        right_columns: usize,
        columns: &[ColumnIndex],
    ) -> Result<OutputList, OpenRefusal>
        ensures refused { result_err result ≡ list_refusal join_type left_columns right_columns columns.now }
        ensures checked { IfOk result (λ o. (o.list ≡ list_of join_type left_columns right_columns columns.now) × (columns_of o.list ≡ columns.now)) }
    {
        let request = ColumnRequest {
            join_type,
            left_columns,
            right_columns,
            columns,
        };
        request.check()?;
        Ok(OutputList {
            list: ColumnList::new(&request),
        })
    }

    // The columns in their order.
    pub fn columns(&self) -> &[ColumnIndex]
        ensures { result.now ≡ columns_of self.now.list }
    {
        self.list.as_slice()
    }

    // The list as plain data.
    pub fn list(&self) -> ColumnList
        ensures { result ≡ self.now.list }
    {
        self.list
    }

    // The list of the join with its sides exchanged: it is legal too.
    pub fn exchanged(self) -> OutputList
        ensures list { result.list ≡ exchanged_list self.list }
        ensures columns { columns_of result.list ≡ map swapped (columns_of self.list) }
    {
        OutputList {
            list: self.list.exchanged(),
        }
    }
}
