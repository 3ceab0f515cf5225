// Laws of the texts of graphs.

ghost use Rattle.dot_text.specs.Laws.{GraphsBalance};

/// In the text of every graph quotes and brackets balance.
pub fn graphs_balance()
    ensures { GraphsBalance }
{}
