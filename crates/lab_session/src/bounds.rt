//! Numbers within the bounds that the libraries require.

ghost use Rattle.std.specs.Prelude.{◌≤◌, IfOk};
ghost use Rattle.place_file.specs.Placement.{longest_side};
ghost use Rattle.rr_graph.specs.Fabric.{most_tracks};
ghost use Rattle.node_cost.specs.Options.{most_iterations, most_workers};

use crate::unanswered::Unanswered;
use crate::words::{NO_NUMBER, number};

/// Reads a number of workers: 1 to `most_workers`.
pub fn worker_count(word: &str) -> Result<u32, Unanswered>
    ensures { IfOk result (λ n. (1 ≤ n) × (n ≤ most_workers)) }
{
    let Some(count) = number(word) else {
        return Err(NO_NUMBER);
    };
    if count < 1 || count > 16 {
        return Err(Unanswered::Refused("there are 1 to 16 workers"));
    }
    Ok(count)
}

/// Reads the number of an iteration: 1 to `most_iterations`.
pub fn iteration_number(word: &str) -> Result<u32, Unanswered>
    ensures { IfOk result (λ n. (1 ≤ n) × (n ≤ most_iterations)) }
{
    let Some(iteration) = number(word) else {
        return Err(NO_NUMBER);
    };
    if iteration < 1 || iteration > 500 {
        return Err(Unanswered::Refused("a negotiation has 1 to 500 iterations"));
    }
    Ok(iteration)
}

/// Reads a channel width: 1 to `most_tracks`.
pub fn channel_width(word: &str) -> Result<u32, Unanswered>
    ensures { IfOk result (λ n. (1 ≤ n) × (n ≤ most_tracks)) }
{
    let Some(width) = number(word) else {
        return Err(NO_NUMBER);
    };
    if width < 1 || width > 256 {
        return Err(Unanswered::Refused("a channel has 1 to 256 tracks"));
    }
    Ok(width)
}

/// Reads a number of columns or rows of an array: 1 to `longest_side`.
pub fn array_side(word: &str) -> Result<u32, Unanswered>
    ensures { IfOk result (λ n. (1 ≤ n) × (n ≤ longest_side)) }
{
    let Some(side) = number(word) else {
        return Err(NO_NUMBER);
    };
    if side < 1 || side > 100 {
        return Err(Unanswered::Refused("an array has 1 to 100 columns and rows"));
    }
    Ok(side)
}
