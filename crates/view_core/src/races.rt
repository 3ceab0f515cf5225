// The races of a run, by pairs of lines.

ghost use Rattle.std.specs.Prelude.{◌≡◌, None, OnOk, IfOk, IfErr};
ghost use Rattle.run_page.specs.below.run_ledger.{refused_as_run};
ghost use Rattle.task_table.specs.below.or_no_memory.{Reports};
ghost use Rattle.refusal_replies.specs.below.whole_call.{Says};
ghost use Rattle.view_core.specs.Races.{ShowsRaces, status_of_count};

use refusal_replies::{AnswerStatus, Reply};
use run_page::{Entry, Program, Settings};
use schedule_report::{ShownRaces, shown_races};
use std::alloc::Global;
use task_table::{OrNoMemory, RefusedAt};

fn status_of_count(count: usize) -> AnswerStatus
    ensures { result ≡ status_of_count count }
{
    match count {
        0 => AnswerStatus::Done,
        _ => AnswerStatus::Races,
    }
}

fn reply(shown: ShownRaces) -> Reply
    ensures { Says (status_of_count shown.races) shown.text result }
{
    let ShownRaces { races, text } = shown;
    Reply::of_bytes(status_of_count(races), text.into_vec())
}

/// Shows the races of the run of a journal; the source is the text that begins with the program's.
pub(crate) fn show_races(
    alloc: Global,
    source: &[u8],
    program: &Program,
    settings: Settings,
    journal: &[Entry],
) -> Result<Reply, OrNoMemory<RefusedAt>>
    ensures whole { OnOk result (refused_as_run program.now settings journal.now ≡ None) }
    ensures shown { IfOk result (ShowsRaces source.now program.now settings journal.now) }
    ensures fails { IfErr result (Reports (refused_as_run program.now settings journal.now)) }
{
    let shown = shown_races(alloc, source, program, settings, journal)?;
    Ok(reply(shown))
}
