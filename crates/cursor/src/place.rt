ghost use Rattle.std.specs.Prelude.{◌≡◌};
ghost use Rattle.cursor.specs.Step.{start};

use rule::Order;

// A file read up to a place: what it says so far. The label and the records stay in the file: here is where they start, and how many bytes or records they are.
#[derive(Clone, Copy)]
pub struct Cursor {
    pub n: u8,
    pub order: Order,
    pub label: usize,
    pub size: usize,
    pub records: usize,
    pub count: u16,
    pub at: usize,
}

impl Cursor {
    // The bit map is read, and no field yet: what absent fields mean.
    pub(crate) fn start() -> Cursor
        ensures { result ≡ start }
    {
        Cursor {
            n: 0,
            order: Order::rising(0),
            label: 0,
            size: 0,
            records: 0,
            count: 0,
            at: 1,
        }
    }
}
