// What the lines of acts are right about.

ghost use Rattle.act_lines.specs.Laws.{LinesSayWhatHappens};

/// In a log without a faulty line, the lines of acts say just what happens, act by act.
pub fn lines_say_what_happens()
    ensures { LinesSayWhatHappens }
{}
