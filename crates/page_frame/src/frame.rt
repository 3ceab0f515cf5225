// What stands before the settings and the entries of a run, and after them.

ghost use Rattle.std.specs.Prelude.{◌≡◌, ◌++◌, OnOk};
ghost use Rattle.page_frame.specs.Frame.{frame_head, tail};

use crate::program::add_beginning;
use page_text::{add_after, add_before};
use std::alloc::AllocError;

/// Adds what stands before the settings of a run: the page's own text, its title, and the lines of the program, whose
/// text with a trace after it is the input.
#[tactic(auto, unfolding(crate::specs::Frame::frame_head))]
pub fn add_head(text: &mut Vec<u8>, title: &[u8], input: &[u8]) -> Result<(), AllocError>
    ensures { OnOk result (text.new.items ≡ text.old.items ++ frame_head title.now input.now) }
{
    add_before(text)?;
    add_beginning(text, title, input)
}

/// Adds what stands after the data of a run.
#[tactic(auto, unfolding(crate::specs::Frame::tail))]
pub fn add_tail(text: &mut Vec<u8>) -> Result<(), AllocError>
    ensures { OnOk result (text.new.items ≡ text.old.items ++ tail) }
{
    add_after(text)
}
