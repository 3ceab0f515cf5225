// Laws of balanced texts.

ghost use Rattle.quoted_text.specs.Balanced.{QuotedBalance, PlainBalance, JoinedBalance};
ghost use Rattle.quoted_text.specs.Guarded.{GuardedHasNoTag};

/// Every word in quotes balances, whatever its bytes.
pub fn quoted_balance()
    ensures { QuotedBalance }
{}

/// A text without quotes and brackets balances.
pub fn plain_balance()
    ensures { PlainBalance }
{}

/// Balanced texts still balance when concatenated, and in brackets.
pub fn joined_balance()
    ensures { JoinedBalance }
{}

/// A guarded word in quotes has no `<`, whatever its bytes.
pub fn guarded_has_no_tag()
    ensures { GuardedHasNoTag }
{}
