// A line that names a site.

ghost use Rattle.std.specs.Prelude.{◌≡◌, Some, option_map};
ghost use Rattle.log_lines.specs.Grammar.{line_of};
ghost use Rattle.log_sites.specs.Names.{behind_space, name_text, site_of_said, site_in};

use log_lines::{LogCause, LogLine, begins_with, read_line};

// What stands behind the first space of a text.
fn behind_space(text: &[u8]) -> &[u8]
    ensures { result.now ≡ behind_space text.now }
{
    for (i, byte) in text.iter().enumerate() {
        if *byte == b' ' {
            return &text[i + 1..];
        }
    }
    &[]
}

/// The name that a line gives to its site: what stands behind the site's number.
pub(crate) fn name_text(line: &[u8]) -> &[u8]
    ensures { result.now ≡ name_text line.now }
{
    behind_space(behind_space(line))
}

fn site_of_said(said: Result<LogLine, LogCause>) -> Option<u64>
    ensures { result ≡ site_of_said said }
{
    match said {
        Ok(LogLine::Name(site)) => Some(site),
        Ok(LogLine::Version) => None,
        Ok(LogLine::Strand { .. }) => None,
        Ok(LogLine::Act(_)) => None,
        Ok(LogLine::Comment) => None,
        Ok(LogLine::End) => None,
        Err(_) => None,
    }
}

/// The site that a line names, if it names one.
pub(crate) fn site_in(line: &[u8]) -> Option<u64>
    ensures { result ≡ site_in line.now }
{
    if !begins_with(line, b"@") {
        return None;
    }
    site_of_said(read_line(line))
}
