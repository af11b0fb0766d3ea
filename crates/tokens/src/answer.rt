// What the pieces of a node answer: a value with the place behind it, or a refusal.
pub use faults::Refusal;

// A number: its bytes from `from` up to `to`, none where the two are equal, and what they are worth, in whole thousandths; no value where it has more than
// three decimals, or is not written.
#[derive(Clone, Copy, Debug, PartialEq, Eq)]
pub struct Figure {
    pub from: usize,
    pub to: usize,
    pub value: Option<usize>,
}

// The two numbers behind a node, with no bytes where one is not written, and the place behind them.
#[derive(Clone, Copy, Debug, PartialEq, Eq)]
pub struct Figures {
    pub distance: Figure,
    pub support: Figure,
    pub next: usize,
}
