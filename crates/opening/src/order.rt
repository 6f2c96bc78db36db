// A checked order: what a join is opened with. It holds the sealed table, so it cannot be used with another one.
ghost use Rattle.std.specs.Prelude.{◌≡◌, ◌≤◌, IfOk, Some, None, MatchResult};
ghost use Rattle.std.specs.Result.{result_err};
ghost use Rattle.opening.specs.Lists.{list_of};
ghost use Rattle.opening.specs.Orders.{number_refusal, order_refusal, plan_of, Planned};

use crate::{OpenRefusal, OutputList, Plan};
use join_types::{ColumnIndex, JoinType};
use memory::ColumnCount;
use tables::Sealed;

// The right column count stands in the list, which by the project's rules is plain data without invariants: its limits are facts here.
#[derive(Drop)]
pub struct Order {
    table: Sealed,
    output: OutputList,
    probes: usize,
    batch_size: usize,
    ghost some_probes: { 1 ≤ probes },
    ghost few_probes: { probes ≤ 16 },
    ghost some_batch: { 1 ≤ batch_size },
    ghost few_batch: { batch_size ≤ 1024 },
    ghost left: { output.list.left_columns ≡ table.columns.count },
    ghost some_right: { 1 ≤ output.list.right_columns },
    ghost few_right: { output.list.right_columns ≤ 16 },
}

// A refused order gives the sealed table back.
#[derive(Drop)]
pub struct RefusedOrder {
    pub table: Sealed,
    pub refusal: OpenRefusal,
}

// Refuses numbers of probes, of rows to a batch, or of right columns that are out of range.
fn check_numbers(probes: usize, batch_size: usize, right_columns: usize) -> Result<(), OpenRefusal>
    ensures { result_err result ≡ number_refusal probes batch_size right_columns }
{
    if !(1..=16).contains(&probes) {
        return Err(OpenRefusal::Probes);
    }
    if !(1..=1024).contains(&batch_size) {
        return Err(OpenRefusal::BatchSize);
    }
    if ColumnCount::new(right_columns).is_none() {
        return Err(OpenRefusal::RightColumns);
    }
    Ok(())
}

impl Order {
    // Checks what a join is to be opened with; refused, the sealed table comes back as it was.
    pub fn check(
        table: Sealed,
        join_type: JoinType,
        probes: usize,
        batch_size: usize,
        right_columns: usize,
        columns: &[ColumnIndex],
    ) -> Result<Order, RefusedOrder>
        ensures refused { MatchResult result (λ _. order_refusal join_type probes batch_size table.columns.count right_columns columns.now ≡ None) (λ e. (order_refusal join_type probes batch_size table.columns.count right_columns columns.now ≡ Some e.refusal) × (e.table ≡ table)) }
        ensures checked { IfOk result (λ o. (o.table ≡ table) × (o.output.list ≡ list_of join_type table.columns.count right_columns columns.now) × (o.probes ≡ probes) × (o.batch_size ≡ batch_size)) }
    {
        let output = check_numbers(probes, batch_size, right_columns).and_then(
            |()| OutputList::check(join_type, table.columns(), right_columns, columns),
        );
        match output {
            Ok(output) => Ok(Order {
                table,
                output,
                probes,
                batch_size,
            }),
            Err(refusal) => Err(RefusedOrder { table, refusal }),
        }
    }

    // The sealed table, and the plan of the join.
    pub fn into_parts(self) -> (Sealed, Plan)
        ensures table { result.0 ≡ self.table }
        ensures plan { result.1 ≡ plan_of self.output.list self.probes self.batch_size self.table.rows }
        ensures left { result.1.list.left_columns ≡ self.table.columns.count }
        ensures planned { Planned result.1 }
    {
        let Order {
            table,
            output,
            probes,
            batch_size,
        } = self;
        let plan = Plan {
            list: output.list(),
            probes,
            batch_size,
            left_rows: table.rows(),
        };
        (table, plan)
    }
}
