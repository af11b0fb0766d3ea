// The gene trees of a case: the number of species, the records, and how many are said to be there.
use weights::Rooting;

#[derive(Clone, Copy)]
pub struct Genes<'a> {
    pub rooting: Rooting,
    pub species: usize,
    pub records: &'a [u16],
    pub count: usize,
}
