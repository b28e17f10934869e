//! Ends of trials in the words of a script.

use crate::unanswered::Unanswered;
use crate::words::{NO_NUMBER, number, numbers};
use net_workers::TrialEnd;

/// Reads the words after `tried`: a width, and how its trial ended. `syntax` is that of the whole
/// call.
pub fn tried(given: &[&str], syntax: &'static str) -> Result<(u32, TrialEnd), Unanswered> {
    let [width, word, rest @ ..] = given else {
        return Err(Unanswered::Misread(syntax));
    };
    let Some(width) = number(width) else {
        return Err(NO_NUMBER);
    };
    match *word {
        "routed" => {
            let [iterations] = numbers::<1>(rest)?;
            Ok((width, TrialEnd::Routed { iterations }))
        }
        "unrouted" => {
            let [unrouted, overused, iterations] = numbers::<3>(rest)?;
            let end = TrialEnd::NotRouted {
                unrouted,
                overused,
                iterations,
            };
            Ok((width, end))
        }
        _ => Err(Unanswered::Misread(syntax)),
    }
}
