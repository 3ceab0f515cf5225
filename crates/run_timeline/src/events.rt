// Events, each behind a comma.

ghost use Rattle.std.specs.Prelude.{◌≡◌, ◌<◌, ◌∷◌, ◌++◌, [], codes, OnOk};
ghost use Rattle.json_text.specs.Json.{json, further, NoMember};
ghost use Rattle.run_timeline.specs.Events.{span, arrow_begins, arrow_ends, process, lane};
ghost use Rattle.run_timeline.specs.Pieces.{event_head, span_head};

use json_text::{first_word, more_number, more_word};
use std::alloc::{AllocError, Global};

/// What viewers call an event, and the kind of event that it is.
#[derive(Clone, Copy)]
pub(crate) struct Label<'a> {
    pub(crate) name: &'a [u8],
    pub(crate) category: &'a [u8],
    pub(crate) phase: &'a [u8],
}

/// Where the events of an entry stand: at its number, in the lane of its worker.
#[derive(Clone, Copy)]
pub(crate) struct Place {
    pub(crate) number: u32,
    pub(crate) lane: u32,
}

/// Writes the events of a timeline.
#[derive(Drop)]
pub(crate) struct EventWriter {
    pub(crate) alloc: Global,
    pub(crate) text: Vec<u8>,
}

impl EventWriter {
    /// Begins an event: all but the members of its own.
    pub(crate) fn begin_event(
        &mut self,
        label: &Label,
        time: u64,
        lane: u32,
    ) -> Result<(), AllocError>
        ensures { OnOk result (self.new.text.items ≡ self.old.text.items ++ event_head label.now.name.now label.now.category.now label.now.phase.now time lane) }
    {
        self.text.push(b'{')?;
        first_word(&mut self.text, b"name", label.name)?;
        more_word(&mut self.text, b"cat", label.category)?;
        more_word(&mut self.text, b"ph", label.phase)?;
        more_number(self.alloc, &mut self.text, b"ts", time)?;
        more_number(self.alloc, &mut self.text, b"pid", 1)?;
        more_number(self.alloc, &mut self.text, b"tid", lane as u64)
    }

    /// Puts a comma and a line feed between two events.
    pub(crate) fn add_comma(&mut self) -> Result<(), AllocError>
        ensures { OnOk result (self.new.text.items ≡ self.old.text.items ++ 44 ∷ (10 ∷ [])) }
    {
        self.text.extend_from_slice(b",\n")
    }

    /// Begins the arguments of an event.
    pub(crate) fn begin_arguments(&mut self) -> Result<(), AllocError>
        ensures { OnOk result (self.new.text.items ≡ self.old.text.items ++ codes ",\"args\":{") }
    {
        self.text.extend_from_slice(b",\"args\":{")
    }

    /// Ends the arguments of an event, and the event.
    pub(crate) fn end_arguments(&mut self) -> Result<(), AllocError>
        ensures { OnOk result (self.new.text.items ≡ self.old.text.items ++ codes "}}") }
    {
        self.text.extend_from_slice(b"}}")
    }

    /// Ends an event.
    pub(crate) fn end_event(&mut self) -> Result<(), AllocError>
        ensures { OnOk result (self.new.text.items ≡ self.old.text.items ++ 125 ∷ []) }
    {
        self.text.push(b'}')?;
        Ok(())
    }

    /// Begins a span, or its end.
    pub(crate) fn begin_span(
        &mut self,
        label: &Label,
        id: u64,
        place: Place,
    ) -> Result<(), AllocError>
        ensures { OnOk result (self.new.text.items ≡ self.old.text.items ++ span_head label.now.phase.now label.now.name.now label.now.category.now id place.number place.lane) }
    {
        self.add_comma()?;
        self.begin_event(label, place.number as u64 * 1000, place.lane)?;
        more_number(self.alloc, &mut self.text, b"id", id)
    }

    /// Adds a span's beginning or end that has no members of its own.
    pub(crate) fn add_span(
        &mut self,
        label: &Label,
        id: u64,
        place: Place,
    ) -> Result<(), AllocError>
        ensures { OnOk result (self.new.text.items ≡ self.old.text.items ++ further (span label.now.phase.now label.now.name.now label.now.category.now id place.number place.lane NoMember)) }
    {
        self.begin_span(label, id, place)?;
        self.end_event()
    }

    /// Adds where an arrow begins.
    pub(crate) fn begin_arrow(
        &mut self,
        name: &[u8],
        id: u64,
        place: Place,
    ) -> Result<(), AllocError>
        requires { 0 < place.number }
        ensures { OnOk result (self.new.text.items ≡ self.old.text.items ++ further (arrow_begins name.now id place.number place.lane)) }
    {
        self.add_comma()?;
        let time = place.number as u64 * 1000 - 500;
        let label = Label {
            name,
            category: name,
            phase: b"s",
        };
        self.begin_event(&label, time, place.lane)?;
        more_number(self.alloc, &mut self.text, b"id", id)?;
        self.end_event()
    }

    /// Adds where an arrow ends.
    pub(crate) fn end_arrow(&mut self, name: &[u8], id: u64, place: Place) -> Result<(), AllocError>
        requires { 0 < place.number }
        ensures { OnOk result (self.new.text.items ≡ self.old.text.items ++ further (arrow_ends name.now id place.number place.lane)) }
    {
        self.add_comma()?;
        let time = place.number as u64 * 1000 - 500;
        let label = Label {
            name,
            category: name,
            phase: b"f",
        };
        self.begin_event(&label, time, place.lane)?;
        more_number(self.alloc, &mut self.text, b"id", id)?;
        more_word(&mut self.text, b"bp", b"e")?;
        self.end_event()
    }

    /// Adds the name of the whole, the first of all events.
    pub(crate) fn add_process(&mut self) -> Result<(), AllocError>
        ensures { OnOk result (self.new.text.items ≡ self.old.text.items ++ json process) }
    {
        let label = Label {
            name: b"process_name",
            category: b"__metadata",
            phase: b"M",
        };
        self.begin_event(&label, 0, 0)?;
        self.begin_arguments()?;
        first_word(
            &mut self.text,
            b"name",
            b"hheap: a millisecond is one entry",
        )?;
        self.end_arguments()
    }

    /// Adds the name of a worker's lane.
    pub(crate) fn add_lane(&mut self, worker: u32) -> Result<(), AllocError>
        ensures { OnOk result (self.new.text.items ≡ self.old.text.items ++ further (lane worker)) }
    {
        let name = format!(in self.alloc; "worker {worker}")?;
        let label = Label {
            name: b"thread_name",
            category: b"__metadata",
            phase: b"M",
        };
        self.add_comma()?;
        self.begin_event(&label, 0, worker)?;
        self.begin_arguments()?;
        first_word(&mut self.text, b"name", name.as_bytes())?;
        self.end_arguments()
    }
}
