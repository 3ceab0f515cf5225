// The settings of a run.

ghost use Rattle.std.specs.Prelude.{◌≡◌};
ghost use Rattle.run_trace.specs.Settings.{AreSettings, usual_settings, field_limit, version_number};

use hh_lang::MOST_FIELDS;
use std::marker::Model;

/// The version of a run's trace: in version 1 an object has at most 1,022 fields, and there is no `freeze`, `cas` or
/// parallel loop.
#[derive(Clone, Copy, PartialEq, Eq)]
pub enum Version {
    One,
    Two,
}

impl Version {
    /// The most fields that an object may have.
    pub fn field_limit(self) -> u32
        ensures { result ≡ field_limit self }
    {
        match self {
            Version::One => 1022,
            Version::Two => MOST_FIELDS,
        }
    }

    /// The number in the first line of a trace.
    pub fn number(self) -> u32
        ensures { result ≡ version_number self }
    {
        match self {
            Version::One => 1,
            Version::Two => 2,
        }
    }
}

/// The most workers that a run may ask for.
pub const WORKER_LIMIT: u32 = 64;

/// The most steps that a run may ask for.
pub const FUEL_LIMIT: u64 = 1_000_000_000;

/// The most chunks that a run may ask for.
pub const CHUNK_LIMIT: u32 = 65_536;

/// The most words for the limits of collections.
pub const WORDS_LIMIT: u32 = 1_000_000;

/// The settings of a run: 1 to `WORKER_LIMIT` workers; fuel in steps, 1 to `FUEL_LIMIT`; the most chunks in use, 2 to
/// `CHUNK_LIMIT`; the words at which a leaf heap is due for a collection and those at which a waiting heap may be
/// marked, both 16 to `WORDS_LIMIT`.
#[derive(Clone, Copy, PartialEq, Eq)]
pub struct Settings {
    version: Version,
    workers: u32,
    fuel: u64,
    chunks: u32,
    leaf: u32,
    inner: u32,
}

impl Model for Settings {
    ghost use Rattle.run_trace.specs.Settings.{SettingsValue, AreSettings};

    ghost Value = { SettingsValue };

    ghost view = { λ s. record { version = s.version; workers = s.workers; fuel = s.fuel; chunks = s.chunks; leaf = s.leaf; inner = s.inner } };

    ghost invariant = { λ s. AreSettings (record { version = s.version; workers = s.workers; fuel = s.fuel; chunks = s.chunks; leaf = s.leaf; inner = s.inner }) };

    ghost inverse = { λ l. record { version = l.version; workers = l.workers; fuel = l.fuel; chunks = l.chunks; leaf = l.leaf; inner = l.inner } };
}

impl Settings {
    pub fn new(
        version: Version,
        workers: u32,
        fuel: u64,
        chunks: u32,
        leaf: u32,
        inner: u32,
    ) -> Settings
        requires { AreSettings (record { version = version; workers = workers; fuel = fuel; chunks = chunks; leaf = leaf; inner = inner }) }
        ensures { result ≡ record { version = version; workers = workers; fuel = fuel; chunks = chunks; leaf = leaf; inner = inner } }
    {
        Settings {
            version,
            workers,
            fuel,
            chunks,
            leaf,
            inner,
        }
    }

    /// The default settings.
    pub fn usual() -> Settings
        ensures { result ≡ usual_settings }
    {
        Settings {
            version: Version::Two,
            workers: 1,
            fuel: 1_000_000,
            chunks: 4096,
            leaf: 4096,
            inner: 8192,
        }
    }

    /// The same settings under another version of the trace.
    pub fn with_version(self, version: Version) -> Settings
        ensures { result ≡ record self { version = version } }
    {
        Settings { version, ..self }
    }

    pub fn version(self) -> Version
        ensures { result ≡ self.version }
    {
        self.version
    }

    /// How many workers there are.
    pub fn workers(self) -> u32
        ensures value { result ≡ self.workers }
        ensures range { AreSettings self }
    {
        self.workers
    }

    /// The steps after which the run ends.
    pub fn fuel(self) -> u64
        ensures value { result ≡ self.fuel }
        ensures range { AreSettings self }
    {
        self.fuel
    }

    /// The most chunks in use.
    pub fn chunks(self) -> u32
        ensures value { result ≡ self.chunks }
        ensures range { AreSettings self }
    {
        self.chunks
    }

    /// The words allocated since the last collection at which a leaf heap is due for one.
    pub fn leaf(self) -> u32
        ensures value { result ≡ self.leaf }
        ensures range { AreSettings self }
    {
        self.leaf
    }

    /// The least words at which a waiting heap may be marked.
    pub fn inner(self) -> u32
        ensures value { result ≡ self.inner }
        ensures range { AreSettings self }
    {
        self.inner
    }
}
