// The relocation list of a collection, and the new address of an address.

ghost use Rattle.std.specs.Prelude.{◌≡◌, ◌^◌, ◌<◌};
ghost use Rattle.remembered_set.specs.Moved.{new_of, address_key, AreAscending};

use object_layout::Addr;

// An address as one number, in the order of addresses.
fn address_key(address: Addr) -> u64
    ensures number { result ≡ address_key address }
    ensures chunk { address.chunk < 2 ^ 32 }
    ensures offset { address.offset < 2 ^ 32 }
{
    ((address.chunk as u64) << 32) + address.offset as u64
}

// The new address of the object that was moved from an old one.
pub(crate) fn new_of(moved: &[(Addr, Addr)], old: Addr) -> Option<Addr>
    requires { AreAscending moved.now }
    ensures { result ≡ new_of moved.now old }
{
    let wanted = address_key(old);
    let mut low = 0;
    let mut high = moved.len();
    while low < high {
        let middle = low + (high - low) / 2;
        let (from, to) = moved[middle];
        let number = address_key(from);
        if number == wanted {
            return Some(to);
        }
        if number < wanted {
            low = middle + 1;
        } else {
            high = middle;
        }
    }
    None
}
