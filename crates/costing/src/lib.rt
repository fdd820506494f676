// What it costs to ask the flags of a set with each of them first, and the cheapest (document 01, "Packing"; document 001, chapter 3).
#![tactic(auto)]

ghost use Rattle.std.specs.Prelude.{◌≡◌, ℕ, ◌*◌, ◌<◌, length};
ghost use Rattle.rule.specs.Bits.{bit};
ghost use Rattle.ways.specs.Ways.{place_of};
ghost use Rattle.costing.specs.Ready.{Ready, Lowest};
ghost use Rattle.costing.specs.Choice.{asking_cost, Bounded, via, Cheapest};

use stretches::SET_COUNT;
use ways::Halves;

// What a node weighs: more than all flags that walks can ask, 10 in each of 1,024 rows.
const NODE_WEIGHT: u32 = 16384;

// A flag of a set, and the least cost of the orders that ask it first.
#[derive(Clone, Copy)]
pub struct Choice {
    pub cost: u32,
    pub flag: u16,
}

// What asking a flag v costs while the set is still to be asked, by the codes of the set without v, in the halves of v, and of the set: the nodes that ask v,
// counted in 64 bits, and the rows whose walk does.
fn asking_cost(set: u16, halves: Halves, codes: &[u16]) -> u32
    requires { (set < 1024) × (length halves.source.now ≡ length codes.now * 2) }
    ensures { (v : ℕ) → halves.entry.p ≡ place_of set v → result ≡ asking_cost set v halves.entry.source.now codes.now }
{
    let asking = folding::count(halves, codes);
    let nodes = asking.nodes as u32;
    let ways = asking.ways as u32;
    nodes * NODE_WEIGHT + (ways << sets::size_of(set))
}

// What it costs to ask flag v of a set first: its own cost, and the least cost of the rest.
fn via(
    n: u8,
    set: u16,
    v: u16,
    starts: &[usize; SET_COUNT],
    workspace: &[u16],
    least: &[u32; SET_COUNT],
) -> u32
    requires { Ready n set starts.now workspace.now × Bounded n least.now × (bit set v ≡ 1) }
    ensures { result ≡ via n workspace.now least.now set v }
{
    let rest = bits::set_bit(set, v, 0);
    let source = stretches::locate(n, starts, rest);
    let from = source.start;
    let to = source.end;
    let own = stretches::locate(n, starts, set);
    let start = own.start;
    let end = own.end;
    let rest_cost = least[rest as usize];
    let halves = Halves::new(&workspace[from..to], ways::place_of(set, v));
    rest_cost + asking_cost(set, halves, &workspace[start..end])
}

// The cheapest flag of a set, of several the smallest; v is the set's smallest flag.
pub fn cheapest(
    n: u8,
    set: u16,
    v: u16,
    starts: &[usize; SET_COUNT],
    workspace: &[u16],
    least: &[u32; SET_COUNT],
) -> Choice
    requires { Ready n set starts.now workspace.now × Bounded n least.now × Lowest set v }
    ensures { Cheapest n workspace.now least.now set result.cost result.flag }
{
    let mut flag = v;
    let mut cost = via(n, set, v, starts, workspace, least);
    for u in v + 1..n as u16 {
        if bits::bit(set, u) == 1 {
            let other = via(n, set, u, starts, workspace, least);
            if other < cost {
                flag = u;
                cost = other;
            }
        }
    }
    Choice { cost, flag }
}
