//! The options of VPR 4.30, and what takes their places here: the table of docs/TUTORIAL.md.

use std::fmt;
use std::io::Eprint;

/// What takes the place of an option of VPR.
#[derive(Clone, Copy, Debug, PartialEq, Eq)]
enum Counterpart {
    /// This option, command or tool.
    Is(&'static str),
    /// Nothing: it is always so.
    Always,
    /// Nothing.
    Lacking,
}

/// A row of the table: an option of VPR, the value that the row is for or none if it is for all,
/// and what takes the option's place.
#[derive(Clone, Copy, Debug)]
struct VprOption(&'static str, &'static str, Counterpart);

/// The table.
const OPTIONS: [VprOption; 48] = [
    VprOption("-route_only", "", Counterpart::Always),
    VprOption("-route_chan_width", "", Counterpart::Is("--width")),
    VprOption("-route_type", "detailed", Counterpart::Always),
    VprOption("-route_type", "global", Counterpart::Is("--global")),
    VprOption("-router_algorithm", "breadth_first", Counterpart::Always),
    VprOption("-router_algorithm", "timing_driven", Counterpart::Lacking),
    VprOption(
        "-max_router_iterations",
        "",
        Counterpart::Is("--iterations"),
    ),
    VprOption("-first_iter_pres_fac", "", Counterpart::Is("--first-pres")),
    VprOption("-initial_pres_fac", "", Counterpart::Is("--init-pres")),
    VprOption("-pres_fac_mult", "", Counterpart::Is("--mult")),
    VprOption("-acc_fac", "", Counterpart::Is("--acc")),
    VprOption("-bb_factor", "", Counterpart::Is("--bb")),
    VprOption("-base_cost_type", "demand_only", Counterpart::Always),
    VprOption("-base_cost_type", "intrinsic_delay", Counterpart::Lacking),
    VprOption("-base_cost_type", "delay_normalized", Counterpart::Lacking),
    VprOption(
        "-verify_binary_search",
        "",
        Counterpart::Is("width --verify"),
    ),
    VprOption("-nodisp", "", Counterpart::Always),
    VprOption("-auto", "", Counterpart::Is("tools/draw")),
    VprOption("-full_stats", "", Counterpart::Is("report --full-stats")),
    VprOption("-outfile_prefix", "", Counterpart::Lacking),
    VprOption("-place_only", "", Counterpart::Is("tools/place")),
    VprOption("-seed", "", Counterpart::Is("tools/place --seed")),
    VprOption("-inner_num", "", Counterpart::Is("tools/place --effort")),
    VprOption("-nx", "", Counterpart::Is("tools/place --size")),
    VprOption("-ny", "", Counterpart::Is("tools/place --size")),
    VprOption("-astar_fac", "", Counterpart::Lacking),
    VprOption("-max_criticality", "", Counterpart::Lacking),
    VprOption("-criticality_exp", "", Counterpart::Lacking),
    VprOption("-timing_analysis", "", Counterpart::Lacking),
    VprOption(
        "-timing_analyze_only_with_net_delay",
        "",
        Counterpart::Lacking,
    ),
    VprOption("-bend_cost", "", Counterpart::Lacking),
    VprOption("-fast", "", Counterpart::Lacking),
    VprOption("-init_t", "", Counterpart::Lacking),
    VprOption("-exit_t", "", Counterpart::Lacking),
    VprOption("-alpha_t", "", Counterpart::Lacking),
    VprOption("-place_algorithm", "", Counterpart::Lacking),
    VprOption("-place_cost_type", "", Counterpart::Lacking),
    VprOption("-place_chan_width", "", Counterpart::Lacking),
    VprOption("-fix_pins", "", Counterpart::Lacking),
    VprOption("-place_cost_exp", "", Counterpart::Lacking),
    VprOption("-num_regions", "", Counterpart::Lacking),
    VprOption("-block_dist", "", Counterpart::Lacking),
    VprOption("-enable_timing_computations", "", Counterpart::Lacking),
    VprOption("-timing_tradeoff", "", Counterpart::Lacking),
    VprOption("-recompute_crit_iter", "", Counterpart::Lacking),
    VprOption("-inner_loop_recompute_divider", "", Counterpart::Lacking),
    VprOption("-td_place_exp_first", "", Counterpart::Lacking),
    VprOption("-td_place_exp_last", "", Counterpart::Lacking),
];

impl fmt::Display for VprOption {
    fn fmt<W: fmt::Write>(&self, f: &mut fmt::Formatter<W>) -> fmt::Result {
        let VprOption(name, value, counterpart) = *self;
        let blank = if value.is_empty() { "" } else { " " };
        write!(f, "VPR's {name}{blank}{value}")?;
        match counterpart {
            Counterpart::Is(ours) => write!(f, " is {ours}")?,
            Counterpart::Always => write!(f, " is always so: leave it out")?,
            Counterpart::Lacking => write!(f, " has no counterpart")?,
        }
        write!(f, " (docs/TUTORIAL.md, 10)")
    }
}

/// Returns the row of an option with the word after it: the first row for this value or for all
/// values, or else the first row of the option.
fn row_of(option: &str, value: &str) -> Option<VprOption> {
    let mut found = None;
    for row in OPTIONS {
        if row.0 != option {
            continue;
        }
        if row.1.is_empty() || row.1 == value {
            return Some(row);
        }
        found = found.or(Some(row));
    }
    found
}

/// Prints on standard error, for each word that is an option of VPR, what takes its place. After
/// `--` there are no options.
pub fn tell_vpr_options(rt: &impl Eprint, words: &[String]) {
    for place in 0..words.len() {
        let word = words[place].as_str();
        if word == "--" {
            return;
        }
        if let Some(row) = row_of(word, word_at(words, place.saturating_add(1))) {
            let _ = eprintln!(rt; "{row}");
        }
    }
}

/// Returns the word at a place, or an empty one at the end.
fn word_at(words: &[String], place: usize) -> &str {
    match words.get(place) {
        Some(word) => word.as_str(),
        None => "",
    }
}
