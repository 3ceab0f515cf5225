// The first cause on a line.

ghost use Rattle.std.specs.Prelude.{◌≡◌, ◌≤◌, ◌<◌, ◌+◌, ◌&&◌, length, not, Some, IfNone};
ghost use Rattle.image_check.specs.Read.{IsSized};
ghost use Rattle.image_check.specs.ImageTasks.{owner_at};
ghost use Rattle.image_check.specs.ImageFault.{is_misplaced, breaks_form, lacks_parent, overlaps, is_crowded, is_astray, relation_to, is_apart, is_below, is_noted, is_no_field, references_cause, object_cause, object_cause_in, remembered_cause, cause_by, cause_on, HasParentOrAddress};
ghost use Rattle.image_check.specs.Line.{most_fields};

use crate::cause::ImageCause;
use crate::line::{ImageChunk, ImageLine, ImageObject, ImageRemembered};
use crate::owners::{chunk_of_address, owner_of};
use crate::read::{ImageExtent, ImagePosition, Read, extent_in, may_come, position_in};
use crate::tasks::Relation;
use crate::whole::Whole;
use chunk_sizes::CHUNK_WORDS;

// Whether a line has the wrong form or the wrong order.
fn is_out_of_order(last: Option<ImagePosition>, said: &ImageLine) -> bool
    ensures { result ≡ is_misplaced last said.now }
{
    match position_in(said) {
        None => matches!(said, ImageLine::Wrong),
        Some(position) => !may_come(last, position),
    }
}

// Whether the end line is missing, or a line has the wrong form or order.
fn is_unformed(read: &Read, is_last: bool, said: &ImageLine) -> bool
    ensures { result ≡ breaks_form read.now is_last said.now }
{
    if is_out_of_order(read.last, said) {
        return true;
    }
    if !is_last {
        return false;
    }
    let place = match position_in(said) {
        None => read.last,
        Some(position) => Some(position),
    };
    match place {
        None => true,
        Some(position) => position.kind != 5,
    }
}

fn is_parentless(read: &Read, parent: Option<u64>) -> bool
    ensures { result ≡ lacks_parent read.now parent }
{
    match parent {
        None => false,
        Some(parent) => !read.tasks.has(parent),
    }
}

// Whether an object that ends here overlaps the previous one.
fn is_overlapping(latest: Option<ImageExtent>, object: &ImageObject) -> bool
    requires there { 0 < object.now.address }
    ensures { result ≡ overlaps latest object.now }
{
    match latest {
        None => false,
        Some(latest) => latest.chunk == (object.address - 1) / CHUNK_WORDS
            && (object.address - 1) % CHUNK_WORDS < latest.past,
    }
}

// Whether an object leaves its chunk or overlaps the previous one.
fn is_ill_placed(read: &Read, chunk: ImageChunk, object: &ImageObject) -> bool
    requires sized { length object.now.references + object.now.numbers ≤ most_fields }
    requires there { 0 < object.now.address }
    ensures { result ≡ is_crowded read.now chunk object.now }
{
    chunk.words < extent_in(object).past || is_overlapping(read.latest, object)
}

// Whether a reference to something of this owner leads nowhere.
fn is_stray(whole: &Whole, read: &Read, reference: u64, owner: Option<u64>) -> bool
    requires { owner ≡ owner_at read.now.chunks reference }
    ensures { result ≡ is_astray whole.now read.now reference }
{
    if reference == 0 || whole.objects.has(reference) {
        return false;
    }
    match owner {
        None => true,
        Some(owner) => !read.tasks.runs(owner),
    }
}

// How an owner is related to a task.
fn relation_to(read: &Read, task: u64, owner: Option<u64>) -> Option<Relation>
    ensures { result ≡ relation_to read.now.tasks task owner }
{
    match owner {
        None => None,
        Some(owner) => Some(read.tasks.relation(task, owner)),
    }
}

fn is_apart(relation: Option<Relation>) -> bool
    ensures { result ≡ is_apart relation }
{
    matches!(relation, Some(Relation::Apart))
}

// Whether a field leads to a descendant that doesn't remember it.
fn is_unremembered(
    whole: &Whole,
    relation: Option<Relation>,
    owner: Option<u64>,
    address: u64,
    place: u64,
) -> bool
    ensures { result ≡ (is_below relation && not (is_noted whole.now address place owner)) }
{
    match (relation, owner) {
        (Some(Relation::Below), Some(owner)) => !whole.fields.has(owner, address, place),
        (Some(Relation::Below), None) => true,
        _ => false,
    }
}

// The first cause of an object's references.
fn cause_of_references(
    whole: &Whole,
    read: &Read,
    task: u64,
    object: &ImageObject,
) -> Option<ImageCause>
    ensures { result ≡ references_cause whole.now read.now task object.now }
{
    let mut rest = object.references.as_slice();
    let mut place: u64 = 0;
    let mut crosses = false;
    let mut forgets = false;
    while let [reference, more @ ..] = rest {
        let owner = owner_of(&read.chunks, *reference);
        if is_stray(whole, read, *reference, owner) {
            return Some(ImageCause::Ref);
        }
        let relation = relation_to(read, task, owner);
        crosses = crosses || is_apart(relation);
        forgets = forgets || is_unremembered(whole, relation, owner, object.address, place);
        rest = more;
        place += 1;
    }
    if crosses {
        Some(ImageCause::Cross)
    } else if forgets {
        Some(ImageCause::Down)
    } else {
        None
    }
}

// The first cause of an object that lies in a chunk.
fn cause_in_chunk(
    whole: &Whole,
    read: &Read,
    object: &ImageObject,
    chunk: ImageChunk,
) -> Option<ImageCause>
    requires sized { length object.now.references + object.now.numbers ≤ most_fields }
    requires there { 0 < object.now.address }
    ensures { result ≡ object_cause_in whole.now read.now object.now (Some chunk) }
{
    if is_ill_placed(read, chunk, object) {
        return Some(ImageCause::Place);
    }
    if read.tasks.runs(chunk.owner) {
        return Some(ImageCause::Running);
    }
    cause_of_references(whole, read, chunk.owner, object)
}

fn cause_of_object(whole: &Whole, read: &Read, object: &ImageObject) -> Option<ImageCause>
    requires sized { length object.now.references + object.now.numbers ≤ most_fields }
    ensures { result ≡ object_cause whole.now read.now object.now }
{
    if read.births.has(object.birth.task, object.birth.count) {
        return Some(ImageCause::Twice);
    }
    if object.address == 0 {
        return Some(ImageCause::NoChunk);
    }
    match chunk_of_address(&read.chunks, object.address) {
        None => Some(ImageCause::NoChunk),
        Some(chunk) => cause_in_chunk(whole, read, object, chunk),
    }
}

// Whether an object has a reference at this place, and its owner is a proper ancestor of the task.
fn is_field_above(whole: &Whole, read: &Read, field: ImageRemembered) -> bool
    ensures { result ≡ not (is_no_field whole.now read.now field) }
{
    let Some(count) = whole.objects.find(field.address) else {
        return false;
    };
    if field.place >= *count {
        return false;
    }
    match owner_of(&read.chunks, field.address) {
        None => false,
        Some(owner) => read.tasks.is_ancestor(owner, field.task),
    }
}

fn cause_of_field(whole: &Whole, read: &Read, field: ImageRemembered) -> Option<ImageCause>
    ensures { result ≡ remembered_cause whole.now read.now field }
{
    if !read.tasks.has(field.task) {
        Some(ImageCause::NoTask)
    } else if is_field_above(whole, read, field) {
        None
    } else {
        Some(ImageCause::Field)
    }
}

// The first cause on a line of the right form.
fn cause_of(whole: &Whole, read: &Read, said: &ImageLine) -> Option<ImageCause>
    requires sized { IsSized said.now }
    ensures { result ≡ cause_by whole.now read.now said.now }
{
    match said {
        ImageLine::Nothing | ImageLine::Wrong | ImageLine::Title => None,
        ImageLine::OfTask(task) => if is_parentless(read, task.parent) {
            Some(ImageCause::NoTask)
        } else {
            None
        },
        ImageLine::OfChunk(chunk) => if read.tasks.has(chunk.owner) {
            None
        } else {
            Some(ImageCause::NoTask)
        },
        ImageLine::OfObject(object) => cause_of_object(whole, read, object),
        ImageLine::OfRemembered(field) => cause_of_field(whole, read, *field),
        ImageLine::OfEnd(count) => if *count == read.objects.len() as u64 {
            None
        } else {
            Some(ImageCause::Count)
        },
    }
}

/// The first cause on a line, given what was read before.
pub(crate) fn first_cause(
    whole: &Whole,
    read: &Read,
    is_last: bool,
    said: &ImageLine,
) -> Option<ImageCause>
    requires sized { IsSized said.now }
    ensures cause { result ≡ cause_on whole.now read.now is_last said.now }
    ensures follows { IfNone result (HasParentOrAddress read.now said.now) }
{
    if is_unformed(read, is_last, said) {
        return Some(ImageCause::Line);
    }
    cause_of(whole, read, said)
}
