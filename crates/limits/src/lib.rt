// The limits of document 01, named once. Every other crate uses these names.
#![tactic(auto)]

ghost use Rattle.std.specs.Prelude.{◌≡◌};
ghost use Rattle.limits.specs.Limits.{limits};

#[derive(Clone, Copy)]
pub struct Limits {
    pub metadata: usize,
    pub dataset: u64,
    pub nesting: usize,
    pub members: usize,
    pub channels: u64,
}

impl Limits {
    // The longest metadata text, in bytes.
    pub const METADATA: usize = 61440;
    // The longest dataset, in bytes: 2^48.
    pub const DATASET: u64 = 281474976710656;
    // How deep arrays and objects may hold each other.
    pub const NESTING: usize = 32;
    // The most members an object may have.
    pub const MEMBERS: usize = 256;
    // The most channels a recording may have.
    pub const CHANNELS: u64 = 1024;

    pub fn new() -> Limits
        ensures { result ≡ limits }
    {
        Limits {
            metadata: Limits::METADATA,
            dataset: Limits::DATASET,
            nesting: Limits::NESTING,
            members: Limits::MEMBERS,
            channels: Limits::CHANNELS,
        }
    }
}
