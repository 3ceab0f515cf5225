// The records of fields during a scan.

ghost use Rattle.std.specs.Prelude.{◌≡◌, None, false, OnOk, IfOk, option_copied, option_map, if◌then◌else◌};
ghost use Rattle.std.specs.BTreeMap as tree;
ghost use Rattle.std.specs.BTreeMap.{values};
ghost use Rattle.race_report.specs.Labels.{allows, label_precedes};
ghost use Rattle.race_report.specs.Ways.{has_alike};
ghost use Rattle.race_report.specs.Watch.{clash, clashes, first_clash, bound_with, with_first, with_access, bound_for, race_between, watch_with, nothing_yet, Key, key_of, key_cmp, watched_with, races_in};

use crate::bounds::allows;
use crate::data::{Bound, Field, FieldAccess, Open, Race, Seen, Watch};
use crate::firsts::Firsts;
use run_journal::{Listed, Strand};
use std::alloc::{AllocError, Global};
use std::collections::BTreeMap;

/// Whether the strand of one label happens before that of another.
fn label_precedes(first: &[Strand], second: &[Strand]) -> bool
    ensures { result ≡ label_precedes first.now second.now }
{
    allows(first, false, second)
}

/// Whether one of two accesses is a write, and not both are by `cas`.
fn clash(first: FieldAccess, second: FieldAccess) -> bool
    ensures { result ≡ clash first second }
{
    if first.swaps && second.swaps {
        return false;
    }
    first.writes || second.writes
}

/// Whether an access and a later one of the same field race, by their labels.
fn clashes(first: &Seen, second: &Seen) -> bool
    ensures { result ≡ clashes first.now second.now }
{
    if !clash(first.access, second.access) {
        return false;
    }
    !label_precedes(first.label.as_slice(), second.label.as_slice())
}

/// The first of these accesses that races with another one.
fn first_clash<'a>(earlier: &'a [Seen], second: &Seen) -> Option<&'a Seen>
    ensures { option_copied result ≡ first_clash earlier.entry.now second.now }
{
    for first in earlier {
        if clashes(first, second) {
            return Some(first);
        }
    }
    None
}

/// The race of two accesses.
fn race_between(first: FieldAccess, second: FieldAccess) -> Race
    ensures { result ≡ race_between first second }
{
    Race {
        task: second.field.name.task,
        count: second.field.name.count,
        is_ref: !second.field.is_number,
        index: second.field.index,
        first: (first.strand.task, first.line),
        second: (second.strand.task, second.line),
    }
}

impl Bound {
    /// Takes in a label, if it is one that the bound covers.
    fn include_if(&mut self, alloc: Global, is: bool, label: &[Strand]) -> Result<(), AllocError>
        ensures { OnOk result (self.new ≡ bound_with is self.old label.now) }
    {
        if is {
            self.include(alloc, label)
        } else {
            Ok(())
        }
    }
}

impl Open {
    /// The record without accesses.
    pub(crate) fn new(alloc: Global) -> Open
        ensures { Watch.Open result ≡ nothing_yet }
    {
        Open {
            earlier: Firsts::new(alloc),
            all: Bound {
                label: Listed::new(alloc),
                strict: false,
            },
            writes: Bound {
                label: Listed::new(alloc),
                strict: false,
            },
            plain: Bound {
                label: Listed::new(alloc),
                strict: false,
            },
            plain_writes: Bound {
                label: Listed::new(alloc),
                strict: false,
            },
        }
    }

    /// Adds an access that races with none.
    fn add(&mut self, alloc: Global, seen: Seen) -> Result<(), AllocError>
        ensures { OnOk result (self.new ≡ with_access self.old seen) }
    {
        if self.earlier.has_alike(seen.access) {
            return Ok(());
        }
        self.add_first(alloc, seen)
    }

    /// Adds the first access of its strand and kind.
    fn add_first(&mut self, alloc: Global, seen: Seen) -> Result<(), AllocError>
        requires { has_alike self.old.earlier seen.access ≡ false }
        ensures { OnOk result (self.new ≡ with_first self.old seen) }
    {
        let label = seen.label.as_slice();
        self.all.include_if(alloc, true, label)?;
        self.writes.include_if(alloc, seen.access.writes, label)?;
        self.plain.include_if(alloc, !seen.access.swaps, label)?;
        self.plain_writes
            .include_if(alloc, seen.access.writes && !seen.access.swaps, label)?;
        self.earlier.push(seen)?;
        Ok(())
    }

    /// The bound of all accesses that this one may race with.
    fn bound_for(&self, access: FieldAccess) -> &Bound
        ensures { result.now ≡ bound_for self.now access }
    {
        if access.writes {
            if access.swaps { &self.plain } else { &self.all }
        } else if access.swaps {
            &self.plain_writes
        } else {
            &self.writes
        }
    }
}

/// The race of an access with the first earlier one that it races with.
fn race_with(known: &Open, seen: &Seen) -> Option<Race>
    ensures { result ≡ (if allows (bound_for known.now seen.now.access) seen.now.label then None else option_map (λ first. race_between first.access seen.now.access) (first_clash known.now.earlier seen.now)) }
{
    let bound = known.bound_for(seen.access);
    if allows(bound.label.as_slice(), bound.strict, seen.label.as_slice()) {
        return None;
    }
    match first_clash(known.earlier.as_slice(), seen) {
        Some(first) => Some(race_between(first.access, seen.access)),
        None => None,
    }
}

/// Adds an access to a record without a race.
fn open_with(alloc: Global, mut known: Open, seen: Seen) -> Result<Watch, AllocError>
    ensures { IfOk result (λ w. w ≡ watch_with (Watch.Open known) seen) }
{
    match race_with(&known, &seen) {
        Some(race) => Ok(Watch::Found(race)),
        None => {
            known.add(alloc, seen)?;
            Ok(Watch::Open(known))
        }
    }
}

/// Adds an access to a field's record.
pub(crate) fn watch_with(alloc: Global, watch: Watch, seen: Seen) -> Result<Watch, AllocError>
    ensures { IfOk result (λ w. w ≡ watch_with watch seen) }
{
    match watch {
        Watch::Found(race) => Ok(Watch::Found(race)),
        Watch::Open(open) => open_with(alloc, open, seen),
    }
}

/// The key of a field.
fn key_of(field: Field) -> ((u32, u32), (u32, u32))
    ensures { result ≡ key_of field }
{
    let kind = if field.is_number { 1 } else { 0 };
    ((field.name.task, field.name.count), (kind, field.index))
}

/// Records one more access.
pub(crate) fn keep(
    alloc: Global,
    kept: &mut BTreeMap<((u32, u32), (u32, u32)), Watch>,
    seen: Seen,
) -> Result<(), AllocError>
    ensures { OnOk result ((q : Key) → tree.get key_cmp kept.new q ≡ watched_with q (tree.get key_cmp kept.old q) seen) }
{
    let key = key_of(seen.access.field);
    let watch = match kept.remove(&key) {
        Some(watch) => watch,
        None => Watch::Open(Open::new(alloc)),
    };
    let watch = watch_with(alloc, watch, seen)?;
    kept.insert(key, watch)?;
    Ok(())
}

/// The races found, in the order of their fields.
pub(crate) fn races_in(
    alloc: Global,
    kept: &BTreeMap<((u32, u32), (u32, u32)), Watch>,
) -> Result<Vec<Race>, AllocError>
    ensures { IfOk result (λ races. races.items ≡ races_in (values kept.now)) }
{
    let mut races = Vec::new(alloc);
    for watch in kept.values() {
        if let Watch::Found(race) = watch {
            races.push(*race)?;
        }
    }
    Ok(races)
}
