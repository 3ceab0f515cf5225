//! Laws of the hasher.

ghost use Rattle.strand_hasher.specs.Groups.{NearStrandsShareGroups};

/// Pairs of numbers that differ in the last two bits alone come into one group of a table of at most 2^24 groups.
pub fn near_strands_share_groups()
    ensures { NearStrandsShareGroups }
{}
