ghost use Rattle.std.specs.Prelude.{◌≤◌};
ghost use Rattle.cj_base.specs.Bounds.{MOST_OBJECTS, MOST_NODES, MOST_OBJECT_SLOTS, MOST_LEAVES};

/// The most objects of a case, whatever limits a run is given.
pub const MOST_OBJECTS: u32 = 65_535;

/// The most nodes of all tracks of a case.
pub const MOST_NODES: u64 = 64_000_000;

/// The most objects times slots of a case.
pub const MOST_OBJECT_SLOTS: u64 = 64_000_000;

/// The most leaves of a case.
pub const MOST_LEAVES: u64 = 400_000_000;

/// The most objects of a made-up catalogue.
pub const MOST_MADE_OBJECTS: u32 = 2_000;

/// How much a run may take.
#[derive(Clone, Copy, Debug, PartialEq, Eq)]
pub struct Limits {
    pub objects: u32,
    /// Of all tracks.
    pub nodes: u64,
    /// Objects times slots of the window.
    pub object_slots: u64,
    pub leaves: u64,
    pub ghost most_objects: { objects ≤ MOST_OBJECTS },
    pub ghost most_nodes: { nodes ≤ MOST_NODES },
    pub ghost most_object_slots: { object_slots ≤ MOST_OBJECT_SLOTS },
    pub ghost most_leaves: { leaves ≤ MOST_LEAVES },
}

impl Limits {
    /// Those of a run that is not told any.
    pub const USUAL: Limits = Limits {
        objects: 2_000,
        nodes: 2_000_000,
        object_slots: 4_000_000,
        leaves: 4_000_000,
    };
}
