//! What a cut says about a problem.

ghost use Rattle.std.specs.Prelude.{◌≡◌, ◌≤◌, length, IfOk};
ghost use Rattle.width_bound.specs.Cuts.{border_size};
ghost use Rattle.width_bound.specs.CutNets.{cut_nets, least_width};

use crate::border::count_border;
use crate::cut::Cut;
use crate::nets::count_cut_nets;
use crate::sides::Sides;
use rr_graph::Problem;
use std::alloc::{AllocError, Global};

/// What a cut says about a problem: how many nets are cut, how many pins are given up, how many
/// places the border has, and the least width that follows.
#[derive(Clone, Copy, Debug, PartialEq, Eq)]
pub struct CutFigures {
    pub nets: usize,
    pub pins: usize,
    pub places: usize,
    pub width: usize,
}

/// The nets less the pins for each place, rounded up; 0 if there is no place.
#[tactic(auto, using(crate::proofs::Rounding::no_places))]
fn least_width(nets: usize, pins: usize, places: usize) -> usize
    requires nets { nets ≤ 65535 }
    requires places { places ≤ 20200 }
    ensures { result ≡ least_width nets pins places }
{
    if places == 0 {
        return 0;
    }
    (nets.saturating_sub(pins) + (places - 1)) / places
}

/// What the cut says about the problem.
pub fn cut_figures(alloc: Global, problem: &Problem, cut: &Cut) -> Result<CutFigures, AllocError>
    ensures nets { IfOk result (λ c. c.nets ≡ cut_nets problem.now cut.now) }
    ensures pins { IfOk result (λ c. c.pins ≡ length cut.now.pins) }
    ensures places { IfOk result (λ c. c.places ≡
        border_size problem.now.device.nx problem.now.device.ny cut.now) }
    ensures width { IfOk result (λ c. c.width ≡ least_width c.nets c.pins c.places) }
{
    let sides = Sides::new(alloc, cut)?;
    let device = problem.device();
    let nets = count_cut_nets(&sides, problem) as usize;
    let pins = cut.pins().len();
    let places = count_border(&sides, device.nx(), device.ny()) as usize;
    Ok(CutFigures {
        nets,
        pins,
        places,
        width: least_width(nets, pins, places),
    })
}
