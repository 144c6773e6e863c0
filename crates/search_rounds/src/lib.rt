// Improving rounds in one subgroup: from a placement, each round goes to the first valid placement of less weight.
#![tactic(auto)]

ghost use Rattle.std.specs.Prelude.{Some};
ghost use Rattle.search_laws.specs.Tables.{case_of};
ghost use Rattle.search_total.specs.Post.{as_solution};
ghost use Rattle.search_rounds.specs.Post.{Low, Weighed, Improved, as_improvement};

use search_total::{Assignment, Solution};

// The placement reached, the rounds that are left, and whether none is better.
#[derive(Clone, Copy)]
pub struct BestSoFar {
    pub placement: Assignment,
    pub left: usize,
    pub stuck: bool,
}

// The same, as definitions have it.
#[derive(Clone, Copy)]
pub struct Improvement {
    pub answer: Solution,
    pub left: usize,
    pub stuck: bool,
}

// Up to so many rounds.
pub fn better(
    sets: &[u8; 32],
    needs: &[u8; 16],
    caps: &[u8; 16],
    costs: &[u8; 512],
    idle: u8,
    floor: usize,
    first: Assignment,
    rounds: usize,
) -> BestSoFar
    requires low { Low (case_of sets.now needs.now caps.now costs.now idle) floor }
    requires weighed { Weighed (case_of sets.now needs.now caps.now costs.now idle) (as_solution (Some first)) }
    ensures { Improved (case_of sets.now needs.now caps.now costs.now idle) rounds (as_solution (Some first)) (as_improvement result) }
{
    let mut best = first;
    for used in 0..rounds {
        let left = rounds - used;
        let weight = best.weight;
        if weight <= floor {
            return BestSoFar {
                placement: best,
                left,
                stuck: true,
            };
        }
        match search_hinted::first_within(sets, needs, caps, costs, idle, weight - 1) {
            Some(next) => best = next,
            None => {
                return BestSoFar {
                    placement: best,
                    left,
                    stuck: true,
                };
            }
        }
    }
    BestSoFar {
        placement: best,
        left: 0,
        stuck: false,
    }
}
