/// Where workers may be held back, in tests. A gate changes nothing, and each call returns: one that
/// holds an item back gives up after a stated number of turns.
pub trait Gate {
    /// A worker has claimed an item.
    fn before(&self, worker: u32, item: u32);

    /// A worker has an edge's lock, before it asks.
    fn within(&self, worker: u32, rec: u32, edge: u32);

    /// A worker has answered an item.
    fn after(&self, worker: u32, item: u32);
}

/// A gate that never waits.
#[derive(Clone, Copy, Debug, Default)]
pub struct FreeGate;

impl FreeGate {
    pub fn new() -> FreeGate {
        FreeGate
    }
}

impl Gate for FreeGate {
    fn before(&self, _worker: u32, _item: u32) {}

    fn within(&self, _worker: u32, _rec: u32, _edge: u32) {}

    fn after(&self, _worker: u32, _item: u32) {}
}
