//! The one history of an iteration's turns. It exists only in proofs. What the threads share is its
//! length.

ghost use Rattle.std.specs.Prelude.{◌↔◌, ◌≡◌, ◌+◌, ◌<◌, ◌≤◌, ◌^◌, ◌++◌, ◌∷◌, [], length, MatchBool, IsTrue};
ghost use mathlib.Core.List.{IsPrefix};
ghost use Rattle.net_workers.specs.kept.TurnLogs.{Follows, IsLegal};
ghost use Rattle.net_workers.specs.kept.LogRules.{head_of};

use crate::made_turn::MadeTurn;
use crate::share::Round;
use logbook::{Gain, Offer, Plain, Play, Rule, Seen, Start, Word};
use std::marker::{Brand, Model, PhantomData};

/// A round with a history of its turns: the plan of the iteration, and which history is its own.
/// Each call picks them.
pub(crate) trait Logged: Round {
    ghost use Rattle.net_workers.specs.kept.TurnLogs.{Plan};
    ghost use Rattle.logbook.specs.Pages.{Book};

    ghost plan: { Plan };

    ghost history: { Book };
}

impl Logged for Brand {
    ghost use Rattle.net_workers.specs.kept.TurnLogs.{no_plan};
    ghost use Rattle.net_workers.specs.kept.LogRules.{no_history};

    ghost plan = { no_plan };

    ghost history = { no_history };
}

/// The rule of the history: the shared word is its length.
pub(crate) struct Law;

impl Rule<MadeTurn, u64> for Law {
    ghost use Rattle.std.specs.Prelude.{[]};
    ghost use base.Fml.{ftrue};
    ghost use Rattle.net_workers.specs.kept.LogRules.{IsKept};

    ghost holds = { λ cells log. IsKept cells log };

    ghost first = { [] };

    ghost hinted = { λ n log. Unit {0} };

    ghost shows = { λ log. [] };

    ghost keeps = { λ names log. ftrue };

    ghost moves = { λ ask before after answer. Unit {0} };
}

/// Callers trade nothing.
pub(crate) struct Nothing;

impl Gain<MadeTurn, u64> for Nothing {
    ghost use base.Fml.{ftrue};

    ghost after = { λ names about answer. ftrue };
}

/// The step that adds a turn.
pub(crate) struct Add;

impl Play<MadeTurn, u64> for Add {
    ghost use Rattle.net_workers.specs.kept.LogRules.{Adds};

    ghost then = { Adds };
}

/// What the step asks for: the turn.
impl Plain<MadeTurn, MadeTurn, u64> for Add {
    ghost use Rattle.std.specs.Prelude.{None};

    ghost ask = { λ turn. turn };

    ghost state = { λ turn. None };
}

/// An empty history, which has no name yet.
pub(crate) struct Opened {
    head: Word<MadeTurn, u64, Law>,
    pub(crate) seen: Seen<MadeTurn, u64, Law>,
    pub(crate) ghost empty: { seen.log ≡ [] },
    pub(crate) ghost head_is: { head ≡ head_of seen.book },
}

impl Opened {
    pub(crate) fn new() -> Opened {
        let (seen, mut first, _second) = Seen::open(Start::alone(), 0, 0);
        Opened {
            head: Word::tracked(0, &mut first),
            seen,
        }
    }

    /// Returns the history's word under a name, and the front that has seen nothing.
    pub(crate) fn named<L: Logged>(self) -> (Head<L>, Front<L>)
        requires { self.seen.book ≡ L.history }
        ensures { result.1 ≡ [] }
    {
        let Opened { head, seen } = self;
        (
            Head {
                head,
                of: PhantomData,
            },
            Front {
                turns: 0,
                seen,
                of: PhantomData,
            },
        )
    }
}

/// The word that all threads share: the length of the history.
#[derive(Drop)]
pub(crate) struct Head<L: Logged> {
    head: Word<MadeTurn, u64, Law>,
    of: PhantomData<L>,
    ghost head_is: { head ≡ head_of L.history },
}

/// The first turns of the history, as far as they were seen. Contracts see these turns.
#[derive(Drop)]
pub(crate) struct Front<L: Logged> {
    turns: u64,
    seen: Seen<MadeTurn, u64, Law>,
    of: PhantomData<L>,
}

impl<L: Logged> Model for Front<L> {
    ghost use Rattle.std.specs.Prelude.{◌≡◌, List, length};
    ghost use Rattle.net_workers.specs.declared.made_turn.MadeTurn.{MadeTurn};
    ghost use Rattle.net_workers.specs.kept.TurnLogs.{IsLegal};

    ghost Value = { List MadeTurn };

    ghost view = { λ f. f.seen.log };

    ghost invariant = { λ f. (f.turns ≡ length f.seen.log) × (f.seen.book ≡ L.history)
        × IsLegal L.plan f.seen.log };
}

impl<L: Logged> Front<L> {
    /// Returns the number of its turns.
    pub(crate) fn len(&self) -> u64
        ensures length { result ≡ length self.now }
        ensures legal { IsLegal L.plan self.now }
    {
        self.turns
    }

    /// Returns a copy.
    pub(crate) fn again(&self) -> Front<L>
        ensures { result ≡ self.now }
    {
        Front {
            turns: self.turns,
            seen: self.seen.again(),
            of: PhantomData,
        }
    }

    /// Returns whether the other one has at least as many turns. If so, it begins with these.
    pub(crate) fn begins(&self, other: &Front<L>) -> bool
        ensures exactly { IsTrue result ↔ (length self.now ≤ length other.now) }
        ensures begun { IsTrue result → IsPrefix self.now other.now }
    {
        let mut both = self.seen.again();
        both.learn(&other.seen);
        self.turns <= other.turns
    }

    /// Adds a turn after all that were seen, and returns whether it did. It doesn't if the history
    /// is longer.
    pub(crate) fn add(&mut self, head: &Head<L>, turn: &MadeTurn) -> bool
        requires room { length self.old < 2 ^ 62 }
        requires legal { Follows L.plan self.old turn.now }
        ensures { MatchBool result (self.new ≡ self.old ++ turn.now ∷ []) (self.new ≡ self.old) }
    {
        let turns = self.turns;
        let mut seen = self.seen.again();
        let mut offer: Offer<MadeTurn, u64, Law, Nothing> = seen.plain::<Nothing, MadeTurn, Add>(
            turn,
        );
        let mut pen = seen.no_pen();
        let found = head
            .head
            .compare_exchange::<Add, Nothing>(turns, turns + 1, &mut seen, &mut offer, &mut pen);
        if found != turns {
            return false;
        }
        self.turns = turns + 1;
        self.seen = seen;
        true
    }
}
