// Laws of links and of climbs.

ghost use Rattle.jump_pointers.specs.Laws.{ClimbsAreShort, LinksGoOn};

/// Adding a place keeps the links well formed.
pub fn links_go_on()
    ensures { LinksGoOn }
{}

/// A climb follows at most 3 ⌊log₂(depth + 1)⌋ links.
pub fn climbs_are_short()
    ensures { ClimbsAreShort }
{}
