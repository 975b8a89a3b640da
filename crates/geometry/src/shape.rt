// The limits of a configuration, and what it makes of planes, ADUs and the store.
ghost use Rattle.std.specs.Prelude.{true, false, MatchOption, ◌≡◌, ◌+◌, ◌-◌, ◌/◌, ◌<◌, min};
ghost use Rattle.geometry.specs.Shape.{adus_per_block, between, counted, drive_planes, each_in_range, no_config};
ghost use Rattle.geometry.specs.Shape.{planes_per_block, store_length, stretch_start, whole_blocks, within_limits};

// The seven numbers of a drive, in document 01's order, with its letters.
#[derive(Clone, Copy, Debug, Default, PartialEq, Eq)]
pub struct Config {
    // G, pages per block
    pub pages: u64,
    // D
    pub dies: u64,
    // L, planes per die
    pub planes: u64,
    // K, ADUs per plane
    pub adus: u64,
    // S, super blocks
    pub blocks: u64,
    // N, the rated erase count
    pub rated: u64,
    // T, the open period in seconds
    pub period: u64,
}

// A configuration of zeros, outside the limits.
pub fn no_config() -> Config
    ensures { result ≡ no_config }
{
    Config::default()
}

// A number of planes.
#[derive(Clone, Copy, Debug, Default, PartialEq, Eq)]
pub struct Planes(pub u64);

// A number of ADUs, or a place among them: how many stand before it.
#[derive(Clone, Copy, Debug, Default, PartialEq, Eq)]
pub struct Adus(pub u64);

fn is_between(low: u64, high: u64, n: u64) -> bool
    ensures { result ≡ between low high n }
{
    (low..=high).contains(&n)
}

#[tactic(auto, unfolding(crate::specs::Shape::each_in_range))]
fn each_in_range(config: Config) -> bool
    ensures { result ≡ each_in_range config }
{
    is_between(128, 8192, config.pages)
        & is_between(1, 64, config.dies)
        & is_between(1, 64, config.planes)
        & is_between(1, 256, config.adus)
        & is_between(1, 256, config.blocks)
        & is_between(1, 65535, config.rated)
        & is_between(1, 65535, config.period)
}

// W. The ranges alone keep the product to at most 2^25.
fn block_planes(config: Config) -> Planes
    requires { each_in_range config ≡ true }
    ensures { result ≡ planes_per_block config }
{
    Planes(config.pages * config.dies * config.planes)
}

// C. The ranges alone keep the product to at most 2^33.
fn block_adus(config: Config) -> Adus
    requires { each_in_range config ≡ true }
    ensures { result ≡ adus_per_block config }
{
    let w = block_planes(config);
    Adus(w.0 * config.adus)
}

#[tactic(auto, unfolding(crate::specs::Shape::within_limits))]
pub fn within_limits(config: Config) -> bool
    ensures { result ≡ within_limits config }
{
    each_in_range(config) && block_adus(config).0 <= 1048576
}

// A configuration within the limits: `of` makes it, and what needs the limits is a method of it.
#[derive(Clone, Copy)]
pub(crate) struct Bounded {
    pub(crate) config: Config,
    ghost within: { within_limits config ≡ true },
}

impl Bounded {
    pub(crate) fn of(config: Config) -> Option<Bounded>
        ensures { MatchOption result (within_limits config ≡ false) (λ b. b.config ≡ config) }
    {
        if within_limits(config) {
            Some(Bounded { config })
        } else {
            None
        }
    }

    // W
    #[tactic(auto, using(crate::proofs::Laws::Shape::in_range))]
    fn block_planes(self) -> Planes
        ensures { result ≡ planes_per_block self.config }
    {
        block_planes(self.config)
    }

    // C
    #[tactic(auto, using(crate::proofs::Laws::Shape::in_range))]
    pub(crate) fn block_adus(self) -> Adus
        ensures { result ≡ adus_per_block self.config }
    {
        block_adus(self.config)
    }

    // S × W
    fn drive_planes(self) -> Planes
        ensures { result ≡ drive_planes self.config }
    {
        Planes(self.config.blocks * self.block_planes().0)
    }

    // The blocks that n planes need.
    fn whole_blocks(self, n: Planes) -> u64
        ensures { result ≡ whole_blocks self.config n }
    {
        n.0.div_ceil(self.block_planes().0)
    }

    // Where a block's stretch begins; the store's end for a number past the last block.
    fn stretch_start(self, block: u64) -> Adus
        ensures { result ≡ stretch_start self.config (min block self.config.blocks) }
    {
        Adus(block.min(self.config.blocks) * self.block_adus().0)
    }
}

// W, or 0 outside the limits.
pub fn planes_per_block(config: Config) -> Planes
    ensures { result.0 ≡ counted config (planes_per_block config).0 }
{
    Bounded::of(config).map_or(Planes(0), |b| b.block_planes())
}

// S × W, or 0 outside the limits.
pub fn drive_planes(config: Config) -> Planes
    ensures { result.0 ≡ counted config (drive_planes config).0 }
{
    Bounded::of(config).map_or(Planes(0), |b| b.drive_planes())
}

// C, or 0 outside the limits.
pub fn adus_per_block(config: Config) -> Adus
    ensures { result.0 ≡ counted config (adus_per_block config).0 }
{
    Bounded::of(config).map_or(Adus(0), |b| b.block_adus())
}

// The blocks that n planes need, or 0 outside the limits.
pub fn whole_blocks(config: Config, n: Planes) -> u64
    ensures { result ≡ counted config (whole_blocks config n) }
{
    Bounded::of(config).map_or(0, |b| b.whole_blocks(n))
}

// Where a block's stretch of the store begins; the store's end for a number past the last block;
// 0 outside the limits.
pub fn stretch_start(config: Config, block: u64) -> Adus
    ensures { result.0 ≡ counted config (stretch_start config (min block config.blocks)).0 }
{
    Bounded::of(config).map_or(Adus(0), |b| b.stretch_start(block))
}

// S × C, or 0 outside the limits.
#[tactic(auto, unfolding(crate::specs::Shape::store_length, crate::specs::Shape::stretch_start))]
pub fn store_length(config: Config) -> Adus
    ensures { result.0 ≡ counted config (store_length config).0 }
{
    stretch_start(config, config.blocks)
}
