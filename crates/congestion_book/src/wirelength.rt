//! How long the nets of the recorded trees are.

ghost use Rattle.std.specs.Prelude.{◌≡◌, ◌^◌, ◌<◌, ◌≤◌, length};
ghost use Rattle.std.specs.List.{sum_by};
ghost use Rattle.route_report.specs.Wirelength.{places_at, wirelength_of};
ghost use Rattle.congestion_book.specs.Recorded.{wirelength_in};
ghost use Rattle.congestion_book.specs.kept.Fields.{AreExact, lists_kept};

use crate::routes::{Routes, rows_of};
use route_report::places_at;
use route_tree::Row;
use routing_problem::{Device, Problem};

/// The places that the wires of these rows pass.
#[tactic(auto, using(crate::proofs::Lengths::places_next, crate::proofs::Lengths::places_past))]
fn places_of(device: &Device, rows: &[Row]) -> u64
    requires { sum_by (λ r. places_at device.now r.node) rows.now ≤ 2 ^ 40 }
    ensures { result ≡ sum_by (λ r. places_at device.now r.node) rows.now }
{
    let mut places = 0u64;
    for row in rows {
        places += places_at(device, row.node);
    }
    places
}

impl Routes {
    /// The wirelength of a net by its recorded tree.
    fn wirelength_of(&self, problem: &Problem, net: u32) -> u64
        requires there { net < length problem.now.nets }
        requires recorded { AreExact problem.now self.now }
        ensures exact { result ≡ wirelength_of problem.now (lists_kept self.now) net }
        ensures short { result ≤ 2 ^ 40 }
    {
        let tree = &self.trees[net as usize];
        places_of(problem.device(), rows_of(tree))
    }

    /// The wirelength of all nets together.
    #[tactic(auto, using(crate::proofs::Counting::sum_next))]
    pub(crate) fn wirelength(&self, problem: &Problem) -> u64
        requires recorded { AreExact problem.now self.now }
        ensures { result ≡ wirelength_in problem.now (lists_kept self.now) }
    {
        let mut total = 0u64;
        for net in 0..problem.nets() {
            total += self.wirelength_of(problem, net);
        }
        total
    }
}
