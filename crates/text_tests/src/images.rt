// The text of an image, and whether the verifier accepts it.

use heap_image::{ImageData, Picked, picture_text};
use image_check::{ImageBirth, ImageChunk, ImageRemembered, ImageState, ImageTask, verify};
use plain_vec::Listed;
use std::alloc::{AllocError, Global};

// An object in a table: its address, its birth, whether it is mutable, its references and its numbers.
type Row = (u64, (u64, u64), bool, &'static [u64], &'static [i64]);

// A picture as a table, and its text.
struct Drawn {
    tasks: &'static [ImageTask],
    chunks: &'static [ImageChunk],
    objects: &'static [Row],
    fields: &'static [ImageRemembered],
    text: &'static [u8],
}

// A list of these items.
fn list_of<T: Copy>(alloc: Global, items: &[T]) -> Result<Listed<T>, AllocError> {
    Ok(Listed::from_vec(items.to_vec(alloc)?))
}

fn picked(alloc: Global, row: Row) -> Result<Picked, AllocError> {
    let (address, (task, count), mutable, references, numbers) = row;
    let references = list_of(alloc, references)?;
    let numbers = list_of(alloc, numbers)?;
    Ok(Picked {
        address,
        birth: ImageBirth { task, count },
        mutable,
        references,
        numbers,
    })
}

// Adds an object; returns whether that succeeded.
fn add_object(alloc: Global, objects: &mut Listed<Picked>, row: Row) -> bool {
    match picked(alloc, row) {
        Ok(object) => objects.push(object).is_ok(),
        Err(_) => false,
    }
}

fn objects_of(alloc: Global, rows: &[Row]) -> Result<Listed<Picked>, AllocError> {
    let mut objects = Listed::new(alloc);
    for row in rows {
        if !add_object(alloc, &mut objects, *row) {
            return Err(AllocError);
        }
    }
    Ok(objects)
}

fn picture_of(alloc: Global, drawn: &Drawn) -> Result<ImageData, AllocError> {
    let tasks = list_of(alloc, drawn.tasks)?;
    let chunks = list_of(alloc, drawn.chunks)?;
    let fields = list_of(alloc, drawn.fields)?;
    let objects = objects_of(alloc, drawn.objects)?;
    Ok(ImageData {
        tasks,
        chunks,
        objects,
        fields,
    })
}

// Whether a text is the expected one, and the number of objects that the verifier finds in it.
fn verified(alloc: Global, text: &[u8], drawn: &Drawn) -> (bool, Option<u64>) {
    (text == drawn.text, verify(alloc, text).ok())
}

// The same for the text of a picture; None if out of memory.
fn written(alloc: Global, picture: &ImageData, drawn: &Drawn) -> Option<(bool, Option<u64>)> {
    match picture_text(alloc, picture) {
        Ok(text) => Some(verified(alloc, text.as_slice(), drawn)),
        Err(_) => None,
    }
}

// The same, given the picture.
fn drawn_and_written(alloc: Global, drawn: &Drawn) -> Option<(bool, Option<u64>)> {
    match picture_of(alloc, drawn) {
        Ok(picture) => written(alloc, &picture, drawn),
        Err(_) => None,
    }
}

// Two objects of a task that has ended.
const ENDED: Drawn = Drawn {
    tasks: &[ImageTask {
        number: 0,
        parent: None,
        state: ImageState::Ended,
    }],
    chunks: &[ImageChunk {
        number: 0,
        owner: 0,
        words: 1024,
    }],
    objects: &[(1, (0, 0), true, &[4], &[]), (4, (0, 1), true, &[], &[5])],
    fields: &[],
    text: b"image 1\ntask 0 - ended\nchunk 0 0 1024\nobject 1 0 0 mut 1 0 4\nobject 4 0 1 mut 0 1 5\nend: image 2\n",
};

#[test]
fn an_ended_heap_is_written(rt: HostRuntime) {
    assert!(rt; drawn_and_written(rt.alloc(), &ENDED) == Some((true, Some(2))));
}

// A task with a child that runs, and a child that has ended.
const TASKS: &[ImageTask] = &[
    ImageTask {
        number: 0,
        parent: None,
        state: ImageState::Waiting,
    },
    ImageTask {
        number: 1,
        parent: Some(0),
        state: ImageState::Running,
    },
    ImageTask {
        number: 2,
        parent: Some(0),
        state: ImageState::Ended,
    },
];

const CHUNKS: &[ImageChunk] = &[
    ImageChunk {
        number: 0,
        owner: 0,
        words: 1024,
    },
    ImageChunk {
        number: 3,
        owner: 1,
        words: 1024,
    },
    ImageChunk {
        number: 4,
        owner: 2,
        words: 2048,
    },
];

// A field that leads into a running heap, and an object of a child that leads up.
const WAITING: Drawn = Drawn {
    tasks: TASKS,
    chunks: CHUNKS,
    objects: &[
        (1, (0, 0), true, &[0, 3073], &[i64::MIN]),
        (4097, (2, 7), false, &[1, 4097], &[]),
    ],
    fields: &[ImageRemembered {
        task: 1,
        address: 1,
        place: 1,
    }],
    text: b"image 1\ntask 0 - waiting\ntask 1 0 running\ntask 2 0 ended\nchunk 0 0 1024\nchunk 3 1 1024\nchunk 4 2 2048\nobject 1 0 0 mut 2 1 0 3073 -9223372036854775808\nobject 4097 2 7 imm 2 0 1 4097\nremembered 1 1 1\nend: image 2\n",
};

#[test]
fn a_remembered_field_is_written(rt: HostRuntime) {
    assert!(rt; drawn_and_written(rt.alloc(), &WAITING) == Some((true, Some(2))));
}
