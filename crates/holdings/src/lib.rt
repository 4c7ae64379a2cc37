// What statements begin with: amounts of the assets and of the asset parameters; and the state that they reach.
#![tactic(auto)]

ghost use Rattle.std.specs.Prelude.{◌≡◌, [], None, get_or, drop, pos, eqb};
ghost use Rattle.std.specs.Int.Signed.{le_z};
ghost use Rattle.laws.specs.Lists.{every};
ghost use Rattle.contract.specs.Limits.{max_assets};
ghost use Rattle.statements.specs.Running.{work_from};
ghost use Rattle.holdings.specs.Holdings.{amounts, holdings_of, reached};

use contract::{Contract, Function};
use evaluation::{Holdings, Memory};
use state::State;

// The amount of asset argument j, and 0 where there is none.
fn amount_of(assets: &[i64], j: usize) -> u64
    ensures { result ≡ get_or (amounts assets.now) j 0 }
{
    items::get_or(assets, j, 0).unsigned_abs()
}

// The amounts of the assets, then of the four asset parameters.
// Kept: (b) by `array::from_fn` a desk takes 78,103,768 instructions for 75,295,560 of a mixed session (two builds without proof of one tree).
// (c) By the parameters' slots zipped with the arguments the loop's proof did not close.
pub fn holdings_of(held: &[u64; Contract::ASSETS], assets: &[i64]) -> [u64; Holdings::MOST]
    ensures { result ≡ holdings_of held.now assets.now }
{
    let mut out = [0u64; Holdings::MOST];
    out[..Contract::ASSETS].copy_from_slice(held);
    for j in 0..Function::PARAMETERS {
        out[Contract::ASSETS + j] = amount_of(assets, j);
    }
    out
}

// The state in state q, with the memory that statements have reached.
pub fn reach(s: &mut State, memory: &Memory, q: usize)
    ensures { s.new ≡ reached s.old (work_from memory.now.kinds.now memory.now.numbers.now memory.now.texts.now memory.now.holdings.now [] 0 None) q }
{
    let Memory {
        kinds,
        numbers,
        texts,
        holdings,
        ..
    } = *memory;
    s.state = q;
    s.kinds = *kinds;
    s.numbers = *numbers;
    s.texts = *texts;
    s.assets.copy_from_slice(&holdings[..Contract::ASSETS]);
}

// Whether every asset argument is 0 or more.
pub fn none_negative(assets: &[i64]) -> bool
    ensures { result ≡ every (le_z (pos 0)) assets.now }
{
    assets.iter().all(|z| 0 <= *z)
}

// Whether the asset parameters hold nothing.
pub fn parameters_empty(holdings: &[u64; Holdings::MOST]) -> bool
    ensures { result ≡ every (λ a. eqb a 0) (drop max_assets holdings.now) }
{
    holdings[Contract::ASSETS..].iter().all(|a| *a == 0)
}
