// The gate of the workers.

/// A worker passes the gate before each script, and leaves it afterwards. Scripts have the numbers
/// of their places among the arguments. A gate has no meaning for contracts: tests use it to hold a
/// worker back.
pub trait Gate {
    fn enter(&self, script: u32);

    fn leave(&self, script: u32);
}

/// A gate that does nothing.
#[derive(Clone, Copy, Debug)]
pub struct FreeGate;

impl Gate for FreeGate {
    fn enter(&self, _script: u32) {}

    fn leave(&self, _script: u32) {}
}
