// The options of a call, read word by word.

ghost use Rattle.std.specs.Prelude.{◌≡◌, ◌++◌, ◌∷◌, ◌≤◌, [], IfOk, OnOk, OnErr, Some, None, drop, false, length, map, string_bytes, if◌then◌else◌};
ghost use Rattle.std.specs.Str.{bytes_eq};
ghost use Rattle.log_request.specs.Options.{no_options, with_all, with_json, with_heaps, with_blocks, flag_at, number_at, option_at, leading, is_due};

use crate::view::{LogView, ReportForm};
use log_lines::read_number;
use log_report::Detail;
use plain_vec::Listed;
use std::alloc::{AllocError, Global};

/// Whether the number of a block may come next.
#[derive(Clone, Copy)]
pub(crate) enum NextNumber {
    /// It may not.
    Unexpected,
    /// It must.
    Due,
    /// It may.
    Possible,
}

/// What the options so far ask for.
#[derive(Drop)]
pub(crate) struct Options {
    pub(crate) view: LogView,
    pub(crate) numbers: NextNumber,
}

/// Whether a word is this one.
pub(crate) fn word_is(word: &str, text: &str) -> bool
    ensures { result ≡ bytes_eq word.now text.now }
{
    word == text
}

impl Options {
    /// No option came.
    pub(crate) fn new(alloc: Global) -> Options
        ensures { result ≡ no_options }
    {
        Options {
            view: LogView {
                detail: Detail::Merged,
                form: ReportForm::Lines,
                heaps: false,
                blocks: Listed::new(alloc),
            },
            numbers: NextNumber::Unexpected,
        }
    }

    // Takes `--all`, unless it came before.
    fn take_all(&mut self) -> bool
        ensures option { with_all self.old.view.detail self.old ≡ (if result then Some self.new else None) }
        ensures kept { result ≡ false → self.new ≡ self.old }
    {
        match self.view.detail {
            Detail::Locations => false,
            Detail::Merged => {
                self.view.detail = Detail::Locations;
                self.numbers = NextNumber::Unexpected;
                true
            }
        }
    }

    // Takes `--json`, unless it came before.
    fn take_json(&mut self) -> bool
        ensures option { with_json self.old.view.form self.old ≡ (if result then Some self.new else None) }
        ensures kept { result ≡ false → self.new ≡ self.old }
    {
        match self.view.form {
            ReportForm::Json => false,
            ReportForm::Lines => {
                self.view.form = ReportForm::Json;
                self.numbers = NextNumber::Unexpected;
                true
            }
        }
    }

    // Takes `--heaps`, unless it came before.
    fn take_heaps(&mut self) -> bool
        ensures option { with_heaps self.old.view.heaps self.old ≡ (if result then Some self.new else None) }
        ensures kept { result ≡ false → self.new ≡ self.old }
    {
        if self.view.heaps {
            return false;
        }
        self.view.heaps = true;
        self.numbers = NextNumber::Unexpected;
        true
    }

    // Takes `--blocks`, unless it came before.
    fn take_blocks(&mut self) -> bool
        ensures option { with_blocks self.old ≡ (if result then Some self.new else None) }
        ensures kept { result ≡ false → self.new ≡ self.old }
    {
        if self.view.blocks.len() == 0 {
            self.numbers = NextNumber::Due;
            return true;
        }
        false
    }

    // Takes the name of an option; false if the word is none, or was given before.
    fn take_flag(&mut self, word: &str) -> bool
        ensures flag { flag_at self.old word.now ≡ (if result then Some self.new else None) }
        ensures kept { result ≡ false → self.new ≡ self.old }
    {
        if word_is(word, "--all") {
            return self.take_all();
        }
        if word_is(word, "--json") {
            return self.take_json();
        }
        if word_is(word, "--heaps") {
            return self.take_heaps();
        }
        if word_is(word, "--blocks") {
            return self.take_blocks();
        }
        false
    }

    // Takes the number of a block; false if the word isn't one.
    fn take_number(&mut self, word: &str) -> Result<bool, AllocError>
        ensures number { IfOk result (λ taken. number_at self.old word.now ≡ (if taken then Some self.new else None)) }
        ensures kept { IfOk result (λ taken. taken ≡ false → self.new ≡ self.old) }
    {
        match read_number(word.as_bytes()) {
            None => Ok(false),
            Some(number) => {
                self.view.blocks.push(number)?;
                self.numbers = NextNumber::Possible;
                Ok(true)
            }
        }
    }

    // Takes a word; false if it belongs to no option.
    fn take(&mut self, word: &str) -> Result<bool, AllocError>
        ensures option { IfOk result (λ taken. option_at self.old word.now ≡ (if taken then Some self.new else None)) }
        ensures kept { IfOk result (λ taken. taken ≡ false → self.new ≡ self.old) }
    {
        match self.numbers {
            NextNumber::Unexpected => Ok(self.take_flag(word)),
            NextNumber::Due => self.take_number(word),
            NextNumber::Possible => {
                if self.take_number(word)? {
                    return Ok(true);
                }
                Ok(self.take_flag(word))
            }
        }
    }

    /// Takes the options with which words begin; how many words they are.
    pub(crate) fn take_words(&mut self, words: &[String]) -> Result<usize, AllocError>
        ensures options { IfOk result (λ n. leading self.old (map string_bytes words.now) ≡ (self.new, drop n (map string_bytes words.now))) }
        ensures within { IfOk result (λ n. n ≤ length words.now) }
    {
        for (i, word) in words.iter().enumerate() {
            if !self.take(word.as_str())? {
                return Ok(i);
            }
        }
        Ok(words.len())
    }

    /// Whether the number of a block is missing.
    pub(crate) fn is_due(&self) -> bool
        ensures { result ≡ is_due self.now.numbers }
    {
        match self.numbers {
            NextNumber::Due => true,
            NextNumber::Unexpected | NextNumber::Possible => false,
        }
    }

    /// What they ask for.
    pub(crate) fn into_view(self) -> LogView
        ensures { result ≡ self.view }
    {
        let Options { view, numbers: _ } = self;
        view
    }
}
