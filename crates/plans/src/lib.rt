// Plans of the D bytes: the entries of each byte of a kind, worked out when they are first wanted.
#![tactic(auto)]

mod one_kind;

ghost use Rattle.std.specs.Prelude.{◌≡◌, ◌-◌, ◌<◌, length, Some, slice_set};
ghost use Rattle.channel.specs.Kinds.{kind_no};
ghost use Rattle.plans.specs.Kept.{Kept};

use channel::Kind;
use dplaces::PlaceTable;
pub use one_kind::Plan;

// A place for the plan of each kind. It is a struct so that `Plans` can lend it for writing.
#[derive(Drop)]
struct Slots {
    plans: [Option<Plan>; 8],
}

impl Slots {
    // Keeps a plan.
    fn keep(&mut self, at: usize, plan: Plan)
        requires { at < length self.old.plans }
        ensures { self.new.plans ≡ slice_set self.old.plans at (Some plan) }
    {
        let plans = &mut self.plans[..];
        plans[at] = Some(plan);
    }
}

// What a call lends of the table, and the plans of the kinds that were wanted, each where its number says.
#[derive(Drop)]
pub struct Plans {
    table: Option<PlaceTable>,
    made: Slots,
    ghost room: { length made.plans ≡ 8 },
    ghost kept: { Kept made.plans },
}

// Room for the plans of the eight kinds, none of them made.
pub fn no_plans(table: Option<PlaceTable>) -> Plans {
    Plans {
        table,
        made: Slots { plans: [None; 8] },
    }
}

// Where the plan of a kind is kept.
fn place_of(k: Kind) -> usize
    ensures { result ≡ kind_no k - 1 }
{
    kinds::number(k) as usize - 1
}

impl Plans {
    ghost use Rattle.std.specs.Prelude.{IsNone};
    ghost use Rattle.std.specs.Borrow.{sem};
    ghost use Rattle.plans.specs.Made.{plan_of, Made, MadeMore, RestsMade};

    // Makes the plan of a kind, which is not made yet. (Written out where it is called, the room of the plan would be cleared for each frame.)
    #[cold]
    #[inline(never)]
    fn make(&mut self, k: Kind)
        requires { IsNone (plan_of self.old k) }
        ensures { MadeMore k self.old self.new }
    {
        let at = place_of(k);
        let plan = Plan::new(self.table, k);
        self.made.keep(at, plan);
    }

    // Makes the plan of a kind, if it is not made yet. Those that are made stay made.
    pub fn ready(&mut self, k: Kind)
        ensures { MadeMore k self.old self.new }
    {
        let made = &self.made.plans[..];
        if made[place_of(k)].is_none() {
            self.make(k);
        }
    }

    // The plan of a kind that is made.
    pub fn at(&self, k: Kind) -> &Plan
        requires { Made self.now k }
        ensures { result.now.kind ≡ k }
    {
        let made = &self.made.plans[..];
        match &made[place_of(k)] {
            Some(plan) => plan,
            None => unreachable!(),
        }
    }

    // The plan of a kind, made when it is first asked for. Those that are made stay made.
    pub fn of(&mut self, k: Kind) -> &Plan
        ensures* stays { sem 𝓛 (RestsMade self.entry k) }
        ensures value { result.now.kind ≡ k }
    {
        self.ready(k);
        self.at(k)
    }
}
