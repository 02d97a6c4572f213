// The cells and rows of a table and the counts of its header, byte for byte as docs/TABLE.md has them.
// Assumes nothing.
ghost use Rattle.std.specs.Prelude.{◌≡◌};
ghost use Rattle.encoding.specs.Meaning.{direction_meaning};
ghost use Rattle.encoding.specs.Table.{direction_number};

// a cell: the number of its kind, the place of a string or number, a value, of which a table has the low 6 bytes
// kept: kinds are numbers, as cell_kinds says; a row's flag is 0 or the number of an enum, Direction or numbers' Comparison
// kept: no ghost field bounds the value: a range that a parser makes may have more than 6 bytes, and only put_cell cuts it; so decoder's clauses ask
#[derive(Clone, Copy)]
pub struct Cell {
    pub kind: u8,
    pub place: u8,
    pub value: usize,
}

// which way a scan goes
#[derive(Clone, Copy)]
pub enum Direction {
    Forward = 1,
    Backward = 2,
}

impl Direction {
    // the number that a row's flag has for it
    #[tactic(auto, unfolding(crate::specs::Table::direction_number))]
    pub fn number(self) -> u8
        ensures { result ≡ direction_number (direction_meaning self) }
    {
        self as u8
    }
}

// the steps of a branch field
#[derive(Clone, Copy)]
pub struct Branch {
    pub success: usize,
    pub failure: usize,
}

// a row of the steps but for its card: the number of its kind, a flag, the steps it leads to, two cells
#[derive(Clone, Copy)]
pub struct Row {
    pub kind: u8,
    pub flag: u8,
    pub branch: Branch,
    pub left: Cell,
    pub right: Cell,
}

// the counts of the header
// kept: that they are few is no ghost field: they are read out of any table, and only then found to be few (FewCounts) by the verifier
#[derive(Clone, Copy)]
pub struct Counts {
    pub steps: usize,
    pub strings: usize,
    pub numbers: usize,
    pub elements: usize,
    pub items: usize,
    pub literals: usize,
}
