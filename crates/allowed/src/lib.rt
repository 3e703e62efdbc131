// Which kinds may be items in a context: rule 2 of reading.
#![tactic(auto)]

ghost use Rattle.std.specs.Prelude.{◌≡◌, cond, eqb};
ghost use Rattle.channel.specs.Verdict.{starts_by, follows};

use channel::Kind;

// Whether a kind with a verdict of context 0 starts a run.
fn starts(k: Kind, v: u8) -> bool
    ensures { result ≡ starts_by k v }
{
    let right = v % 16 == 0;
    match k {
        Kind::Lower => right && v < 128,
        Kind::Amr740 => false,
        _ => right,
    }
}

// Whether a kind follows in a context.
fn follows_in(k: Kind, x: u8) -> bool
    ensures { result ≡ follows x k }
{
    match k {
        Kind::Amr740 => 2 <= x,
        _ => x != 0,
    }
}

// Rule 2: whether a kind with its verdict may be an item in a context: in context 0 one that starts a run, in any other one that follows.
pub fn allowed_in(k: Kind, x: u8, v: u8) -> bool
    ensures { result ≡ cond (eqb x 0) (starts_by k v) (follows x k) }
{
    if x == 0 {
        starts(k, v)
    } else {
        follows_in(k, x)
    }
}
