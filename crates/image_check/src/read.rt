// What the lines of an image have said so far.

ghost use Rattle.std.specs.Prelude.{◌≡◌, ◌≤◌, ◌+◌, ◌<◌, OnOk, length};
ghost use Rattle.image_check.specs.Place.{chunk_number};
ghost use Rattle.image_check.specs.Read.{position_of, rises, or_next, comes_next, extent_of, nothing_read, after_line, IsSized};
ghost use Rattle.image_check.specs.Line.{most_fields};

use crate::line::{ImageChunk, ImageLine, ImageObject};
use crate::sets::Births;
use crate::table::ImageTable;
use crate::tasks::ImageTasks;
use chunk_sizes::CHUNK_WORDS;
use std::alloc::{AllocError, Global};

/// The position of a line: its kind, then its numbers.
#[derive(Clone, Copy)]
pub struct ImagePosition {
    pub kind: u64,
    pub first: u64,
    pub second: u64,
    pub third: u64,
}

/// Where an object ends in its chunk.
#[derive(Clone, Copy)]
pub struct ImageExtent {
    pub chunk: u64,
    pub past: u64,
}

/// What was read.
#[derive(Drop)]
pub struct Read {
    /// The position of the last line.
    pub last: Option<ImagePosition>,
    pub tasks: ImageTasks,
    pub chunks: ImageTable<ImageChunk>,
    /// The number of references of each object, by address.
    pub objects: ImageTable<u64>,
    pub births: Births,
    /// Where the last object ends.
    pub latest: Option<ImageExtent>,
}

/// The position of a line.
pub(crate) fn position_in(said: &ImageLine) -> Option<ImagePosition>
    ensures { result ≡ position_of said.now }
{
    let (kind, first, second, third) = match said {
        ImageLine::Nothing | ImageLine::Wrong => return None,
        ImageLine::Title => (0, 0, 0, 0),
        ImageLine::OfTask(task) => (1, task.number, 0, 0),
        ImageLine::OfChunk(chunk) => (2, chunk.number, 0, 0),
        ImageLine::OfObject(object) => (3, object.address, 0, 0),
        ImageLine::OfRemembered(field) => (4, field.task, field.address, field.place),
        ImageLine::OfEnd(_) => (5, 0, 0, 0),
    };
    Some(ImagePosition {
        kind,
        first,
        second,
        third,
    })
}

/// Whether a line may follow the last one; the first must be the title.
pub(crate) fn may_come(last: Option<ImagePosition>, next: ImagePosition) -> bool
    ensures { result ≡ comes_next last next }
{
    match last {
        None => next.kind == 0,
        Some(last) => is_behind(last, next),
    }
}

fn is_less_or(x: u64, y: u64, next: bool) -> bool
    ensures { result ≡ or_next x y next }
{
    x < y || (x == y && next)
}

fn is_behind(last: ImagePosition, next: ImagePosition) -> bool
    ensures { result ≡ rises last next }
{
    let third = last.third < next.third;
    let second = is_less_or(last.second, next.second, third);
    let first = is_less_or(last.first, next.first, second);
    is_less_or(last.kind, next.kind, first)
}

/// The chunk of a nonzero address.
pub(crate) fn chunk_of(address: u64) -> u64
    requires { 0 < address }
    ensures { result ≡ chunk_number address }
{
    (address - 1) / CHUNK_WORDS
}

/// An object's chunk, and where the object ends in it.
pub(crate) fn extent_in(object: &ImageObject) -> ImageExtent
    requires sized { length object.now.references + object.now.numbers ≤ most_fields }
    requires there { 0 < object.now.address }
    ensures { result ≡ extent_of object.now }
{
    let offset = (object.address - 1) % CHUNK_WORDS;
    ImageExtent {
        chunk: chunk_of(object.address),
        past: offset + 2 + object.references.len() as u64 + object.numbers,
    }
}

impl Read {
    ghost use Rattle.std.specs.Prelude.{◌≡◌, ◌<◌, ◌≤◌, ◌+◌, OnOk, length};
    ghost use Rattle.image_check.specs.Read.{nothing_read, after_line, IsSized};
    ghost use Rattle.image_check.specs.ImageFault.{HasParentOrAddress};

    /// Before the first line.
    pub(crate) fn new(alloc: Global) -> Read
        ensures { result ≡ nothing_read }
    {
        Read {
            last: None,
            tasks: ImageTasks::new(alloc),
            chunks: ImageTable::new(alloc),
            objects: ImageTable::new(alloc),
            births: Births::new(alloc),
            latest: None,
        }
    }

    // Adds an object line.
    fn add_object(&mut self, object: &ImageObject) -> Result<(), AllocError>
        requires sized { length object.now.references + object.now.numbers ≤ most_fields }
        requires there { 0 < object.now.address }
        ensures { OnOk result (self.new ≡ record (after_line self.old (ImageLine.OfObject object.now)) { last = self.old.last }) }
    {
        self.objects
            .put(object.address, object.references.len() as u64)?;
        self.births.put(object.birth.task, object.birth.count)?;
        self.latest = Some(extent_in(object));
        Ok(())
    }

    /// Adds a line without a fault.
    pub(crate) fn add(&mut self, said: &ImageLine) -> Result<(), AllocError>
        requires sized { IsSized said.now }
        requires follows { HasParentOrAddress self.old said.now }
        ensures { OnOk result (self.new ≡ after_line self.old said.now) }
    {
        match said {
            ImageLine::Nothing | ImageLine::Wrong => return Ok(()),
            ImageLine::OfTask(task) => self.tasks.put(*task)?,
            ImageLine::OfChunk(chunk) => self.chunks.put(chunk.number, *chunk)?,
            ImageLine::OfObject(object) => self.add_object(object)?,
            ImageLine::Title | ImageLine::OfRemembered(_) | ImageLine::OfEnd(_) => {}
        }
        self.last = position_in(said);
        Ok(())
    }
}
