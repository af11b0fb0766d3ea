// Trees as they are drawn, and the type of their records; which records are valid is decided in `records`.
#![tactic(auto)]

// A tree's record: the count, the clusters in rising order, zeros.
#[repr(C)]
#[derive(Clone, Copy)]
pub struct Record {
    pub numbers: [u16; 32],
}

// The record of a tree on individuals, of which there are up to 32: the same, twice as long.
// No one generic type with `Record`, which is a type of the C interface (`capi`).
#[derive(Clone, Copy)]
pub struct WideRecord {
    pub numbers: [u32; 64],
}
