//! How the seeds of a storm are dealt out to workers.
ghost use Rattle.std.specs.Prelude.{◌≡◌, ◌<◌, ◌≤◌};
ghost use Rattle.tau_storm.specs.Inner.Dealing.{seeds_before, first_seed, seed_count};

/// The seeds of a storm and how many workers there are: each has some that follow one another, behind those of the workers before it.
#[derive(Clone, Copy)]
pub(crate) struct Deal {
    /// The first seed.
    pub(crate) seed: u64,
    /// How many seeds there are.
    pub(crate) seeds: u32,
    /// How many workers there are.
    pub(crate) workers: u32,
}

impl Deal {
    /// How many seeds the workers before this one have.
    fn before(self, worker: u32) -> u32
        requires some { 1 ≤ self.workers }
        requires worker { worker ≤ self.workers }
        ensures { result ≡ seeds_before self worker }
    {
        (u64::from(self.seeds) * u64::from(worker) / u64::from(self.workers)) as u32
    }

    /// The first seed of a worker.
    pub(crate) fn first(self, worker: u32) -> u64
        requires some { 1 ≤ self.workers }
        requires worker { worker < self.workers }
        ensures { result ≡ first_seed self worker }
    {
        self.seed.wrapping_add(u64::from(self.before(worker)))
    }

    /// How many seeds a worker has.
    pub(crate) fn count(self, worker: u32) -> u32
        requires some { 1 ≤ self.workers }
        requires worker { worker < self.workers }
        ensures { result ≡ seed_count self worker }
    {
        self.before(worker + 1) - self.before(worker)
    }
}
