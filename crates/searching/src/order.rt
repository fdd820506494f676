// The order that the first flags of all sets give.
ghost use Rattle.searching.specs.Order.{Members, Followed};

use rule::Order;
use stretches::SET_COUNT;

// From the set of all n flags down to the empty one, each set's first flag.
pub fn follow(n: u8, first: &[u16; SET_COUNT]) -> Order
    requires { Members n first.now }
    ensures { Followed n first.now result.places }
{
    let mut places = [0u8; 10];
    let mut set = (arguments::row_count(n) - 1) as u16;
    for i in 0..n as usize {
        let v = first[set as usize];
        places[i] = v as u8;
        set = bits::set_bit(set, v, 0);
    }
    Order { places }
}
