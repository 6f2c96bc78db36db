// What holds of output lists and orders, as the contracts of calls that do nothing.
ghost use Rattle.opening.specs.Laws.{OutputListsStand};
ghost use Rattle.opening.specs.Worked.{WorkedOrders};

// What holds of all output lists: exchanging sides keeps a list legal, and twice it gives the list back.
pub fn output_lists_stand()
    ensures { OutputListsStand }
{}

// Orders at their limits.
pub fn worked_orders()
    ensures { WorkedOrders }
{}
