// Quoted strings that may occur in a page's script element.

ghost use Rattle.std.specs.Prelude.{◌≡◌, ◌++◌, OnOk};
ghost use Rattle.std.specs.List.{flat_map};
ghost use Rattle.quoted_text.specs.Guarded.{guarded_byte, guarded};

use crate::quote::add_escaped;
use std::alloc::AllocError;

fn add_guarded_byte(text: &mut Vec<u8>, byte: u8) -> Result<(), AllocError>
    ensures { OnOk result (text.new.items ≡ text.old.items ++ guarded_byte byte) }
{
    if byte == b'<' {
        return text.extend_from_slice(b"\\u003c");
    }
    add_escaped(text, byte)
}

fn add_guarded_bytes(text: &mut Vec<u8>, word: &[u8]) -> Result<(), AllocError>
    ensures { OnOk result (text.new.items ≡ text.old.items ++ flat_map guarded_byte word.now) }
{
    for byte in word {
        add_guarded_byte(text, *byte)?;
    }
    Ok(())
}

/// Adds a word in quotes, with `\u003c` for each `<`.
pub fn add_guarded(text: &mut Vec<u8>, word: &[u8]) -> Result<(), AllocError>
    ensures { OnOk result (text.new.items ≡ text.old.items ++ guarded word.now) }
{
    text.push(b'"')?;
    add_guarded_bytes(text, word)?;
    text.push(b'"')?;
    Ok(())
}
