//! The options of the commands: their names, ranges and defaults.

ghost use Rattle.std.specs.Prelude.{◌≡◌, ◌≤◌};
ghost use Rattle.sx_words.specs.Settings.{name_of, least_of, most_of, default_of};

/// An option, which sets one number of a command.
#[derive(Clone, Copy, Debug, PartialEq, Eq)]
pub enum Setting {
    /// How many threads work.
    Workers,
    /// In how many shards candidates are gathered.
    Shards,
    /// The exponent `j` of the margin μ, which is `2^-j`.
    Mu,
    /// How many rounds a price search has at most.
    Rounds,
    /// How many price searches run, the best of which is posted.
    Searches,
}

impl Setting {
    /// The name of the option, as it is written.
    pub fn name(self) -> &'static str
        ensures { result.now ≡ name_of self }
    {
        match self {
            Setting::Workers => "--workers",
            Setting::Shards => "--shards",
            Setting::Mu => "--mu",
            Setting::Rounds => "--rounds",
            Setting::Searches => "--searches",
        }
    }

    /// The least number that it takes.
    pub fn least(self) -> u32
        ensures { result ≡ least_of self }
    {
        match self {
            Setting::Workers | Setting::Shards | Setting::Mu | Setting::Searches => 1,
            Setting::Rounds => 0,
        }
    }

    /// The greatest number that it takes.
    pub fn most(self) -> u32
        ensures { result ≡ most_of self }
    {
        match self {
            Setting::Workers | Setting::Shards => 64,
            Setting::Mu => 20,
            Setting::Rounds => 10_000,
            Setting::Searches => 8,
        }
    }

    /// Its number if it is not given.
    pub fn default(self) -> u32
        ensures value { result ≡ default_of self }
        ensures least { least_of self ≤ result }
        ensures most { result ≤ most_of self }
    {
        match self {
            Setting::Workers => 4,
            Setting::Shards => 16,
            Setting::Mu => 10,
            Setting::Rounds => 500,
            Setting::Searches => 1,
        }
    }
}
