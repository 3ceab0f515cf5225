// What holds of all logs.

ghost use Rattle.log_tasks.specs.Laws.{FileOrderIsNothing, FilesMayChangePlaces};

/// Logs whose strands do the same have one graph, in whatever order their files and pieces stand.
pub fn file_order_is_nothing()
    ensures { FileOrderIsNothing }
{}

/// Two files that have no strand in common may change places: no strand does anything else then.
pub fn files_may_change_places()
    ensures { FilesMayChangePlaces }
{}
