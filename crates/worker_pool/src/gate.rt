/// Where each of several workers passes before a turn. A test may hold workers there; a run needs it for
/// nothing. One worker alone passes none.
pub trait Gate: Sync {
    /// The worker of this number is about to begin its turn of this number; both count from 1.
    fn pass(&self, worker: u32, turn: u64);
}

/// The gate that holds nobody.
#[derive(Clone, Copy)]
pub struct FreeGate;

impl Gate for FreeGate {
    fn pass(&self, worker: u32, turn: u64) {
        let _passed = (worker, turn);
    }
}
