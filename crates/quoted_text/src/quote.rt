// Strings in quotes.

ghost use Rattle.std.specs.Prelude.{◌≡◌, ◌<◌, ◌++◌, OnOk};
ghost use Rattle.std.specs.List.{flat_map};
ghost use Rattle.quoted_text.specs.Quoted.{hex, escaped, quoted};

use std::alloc::AllocError;

fn hex(digit: u8) -> u8
    requires { digit < 16 }
    ensures { result ≡ hex digit }
{
    if digit < 10 { digit + 48 } else { digit + 87 }
}

/// Adds a byte, escaped if it could end the string or begin an escape, or is a control byte.
pub(crate) fn add_escaped(text: &mut Vec<u8>, byte: u8) -> Result<(), AllocError>
    ensures { OnOk result (text.new.items ≡ text.old.items ++ escaped byte) }
{
    if byte == b'"' {
        return text.extend_from_slice(b"\\\"");
    }
    if byte == b'\\' {
        return text.extend_from_slice(b"\\\\");
    }
    if byte < 32 {
        let code = [92, 117, 48, 48, hex(byte / 16), hex(byte % 16)];
        return text.extend_from_slice(&code);
    }
    text.push(byte)?;
    Ok(())
}

fn add_all_escaped(text: &mut Vec<u8>, word: &[u8]) -> Result<(), AllocError>
    ensures { OnOk result (text.new.items ≡ text.old.items ++ flat_map escaped word.now) }
{
    for byte in word {
        add_escaped(text, *byte)?;
    }
    Ok(())
}

/// Adds a word in quotes.
pub fn add_quoted(text: &mut Vec<u8>, word: &[u8]) -> Result<(), AllocError>
    ensures { OnOk result (text.new.items ≡ text.old.items ++ quoted word.now) }
{
    text.push(b'"')?;
    add_all_escaped(text, word)?;
    text.push(b'"')?;
    Ok(())
}
