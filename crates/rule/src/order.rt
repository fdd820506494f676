ghost use Rattle.std.specs.Prelude.{◌≡◌};
ghost use Rattle.rule.specs.Order.{rising};

// An order of the flags in ten bytes, the one asked first standing first; the places from n on are 0.
#[derive(Clone, Copy)]
pub struct Order {
    pub places: [u8; 10],
}

impl Order {
    // Ten zeros: what stands where no order is given.
    pub const ZEROS: Order = Order { places: [0; 10] };

    // The rising order of n flags: flag 0 is asked first. Of more than ten flags the first ten are named: there are no more places.
    pub fn rising(n: u8) -> Order
        ensures { result.places ≡ rising n }
    {
        let mut places = [0u8; 10];
        for i in 0..n.min(10) {
            places[i as usize] = i;
        }
        Order { places }
    }
}
