// How much room there is for the case file and for what its cases hold, and how much a call is lent. What is lent is not filled with what the call would put.
// The bytes of the whole case file.
pub const CASES: usize = 2097152;

// A byte for each cluster and more, for the longest roster line, tree text or input has 65,537 bytes; and the entries of a table.
pub const MOST: usize = 65600;

// The numbers of the records of gene trees, of which a case has at most 4,097.
pub const NUMBERS: usize = 131168;
