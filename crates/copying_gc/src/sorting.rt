// Sorts lists.

ghost use Rattle.std.specs.Prelude.{◌≡◌, vec_capacity, vec_len};
ghost use Rattle.std.specs.List.Sorted.{IsPermutation, IsSorted};

/// Sorts a list. With memory for a copy it uses the runs that are sorted already; without, it sorts in place.
pub(crate) fn sort<T: Ord>(list: &mut Vec<T>)
    ensures permutation { IsPermutation list.old.items list.new.items }
    ensures len { vec_len list.new ≡ vec_len list.old }
    ensures capacity { vec_capacity list.new ≡ vec_capacity list.old }
    ensures sorted { IsSorted T.cmp list.new.items }
{
    if list.sort().is_err() {
        list.sort_unstable();
    }
}
