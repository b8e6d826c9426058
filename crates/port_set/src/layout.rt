ghost use Rattle.std.specs.Prelude.{◌≡◌, ℕ, ◌+◌, ◌-◌, ◌*◌, ◌/◌, ◌%◌, ◌<◌, ◌≤◌};

/// How a set lies among the ports: they stand in blocks of one size, and those of the set are one run
/// of ports in each block from the first used one on.
#[derive(Clone, Copy)]
pub(crate) struct Layout {
    /// The number of the first block that has ports of the set: 0 or 1.
    pub(crate) first: u32,
    /// How many blocks there are.
    pub(crate) blocks: u32,
    /// How many ports a block has.
    pub(crate) block: u32,
    /// The place in a block at which the run begins.
    pub(crate) start: u32,
    /// How many ports a run has.
    pub(crate) run: u32,
    ghost whole: { blocks * block ≡ 65536 },
    ghost used: { first < blocks },
    ghost some: { 0 < run },
    ghost fits: { start + run ≤ block },
}

impl Layout {
    /// How many ports the set has.
    pub(crate) fn ports(&self) -> u32
        ensures { result ≡ (self.now.blocks - self.now.first) * self.now.run }
    {
        (self.blocks - self.first) * self.run
    }

    /// How many runs the set has.
    pub(crate) fn runs(&self) -> u32
        ensures { result ≡ self.now.blocks - self.now.first }
    {
        self.blocks - self.first
    }

    /// How many ports of the set are below this one of the set.
    pub(crate) fn ports_below(&self, port: u16) -> u32
        requires block { self.now.first ≤ port / self.now.block }
        requires place { self.now.start ≤ port % self.now.block }
        ensures { result
            ≡ (port / self.now.block - self.now.first) * self.now.run + (port % self.now.block - self.now.start) }
    {
        let port = u32::from(port);
        (port / self.block - self.first) * self.run + (port % self.block - self.start)
    }

    /// The port of the set below which there are `n` of it.
    pub(crate) fn port(&self, n: u32) -> u16
        requires { n < (self.now.blocks - self.now.first) * self.now.run }
        ensures { result
            ≡ (n / self.now.run + self.now.first) * self.now.block + (self.now.start + n % self.now.run) }
    {
        ((n / self.run + self.first) * self.block + (self.start + n % self.run)) as u16
    }
}
