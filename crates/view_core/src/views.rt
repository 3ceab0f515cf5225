// What is shown of an input: each picture that can be asked for.

ghost use Rattle.std.specs.Prelude.{IfOk, Some};
ghost use Rattle.refusal_replies.specs.below.whole_call.{Says};
ghost use Rattle.view_core.specs.Views.{ShowsView, ShowsPicture, usage};

use crate::faults::show_faults;
use crate::heaps::show_heaps;
use crate::page::show_page;
use crate::runs::show_run;
use refusal_replies::{AnswerStatus, Reply};
use std::alloc::{AllocError, Global};
use view_arguments::{InputFile, Picture, ViewCall};

// How the program is called.
fn show_usage(alloc: Global) -> Result<Reply, AllocError>
    ensures { IfOk result (Says AnswerStatus.Done usage) }
{
    let text = format!(in alloc;
        "usage: hhview heaps [FILE] [--path T] [--limit N]\n       hhview page [FILE] [OPTIONS] [--title WORDS]\n       hhview timeline [FILE] [OPTIONS]\n       hhview tasks [FILE] [OPTIONS]\n       hhview schedules [FILE] [OPTIONS]\n       hhview races [FILE] [OPTIONS]\n       hhview log [FILE] [OPTIONS]\n       hhview faults [FILE] [--json]\nOPTIONS are those of hheap replay: --workers N, --fuel N, --chunks N, --leaf N, --inner N\n"
    )?;
    Ok(Reply::of_text(AnswerStatus::Done, text))
}

// Shows a picture of an input.
fn show_picture(
    alloc: Global,
    file: &Option<InputFile>,
    picture: &Picture,
    input: &[u8],
) -> Result<Reply, AllocError>
    ensures { IfOk result (ShowsPicture file.now picture.now input.now) }
{
    match picture {
        Picture::Heaps { path, limit } => show_heaps(alloc, *path, *limit, input),
        Picture::Run { view, settings } => show_run(alloc, *view, *settings, input),
        Picture::Page { title, settings } => show_page(alloc, title, file, *settings, input),
        Picture::Faults { json } => show_faults(alloc, *json, input),
    }
}

/// Shows what is asked for of an input.
pub(crate) fn show(alloc: Global, view: &ViewCall, input: &[u8]) -> Result<Reply, AllocError>
    ensures { IfOk result (ShowsView (Some view.now) input.now) }
{
    match view {
        ViewCall::Usage => show_usage(alloc),
        ViewCall::Of { file, picture } => show_picture(alloc, file, picture, input),
    }
}
